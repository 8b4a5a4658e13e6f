//! What a reply is sent in.

ghost use Rattle.std.specs.Prelude.{◌≡◌, ℕ, List, IfOk};

use ofx_types::OutOfMemory;
use std::alloc::Global;

/// What a reply is sent in, as the frame of a file. It is made before the event's record is kept, so that no memory is
/// needed after it.
pub trait Envelope: Copy {
    // the bytes that are sent for a reply
    ghost sent: { Self → List ℕ → List ℕ };

    /// The bytes of a reply in their envelope.
    fn wrap(&self, alloc: Global, reply: &[u8]) -> Result<Vec<u8>, OutOfMemory>
        ensures { IfOk result (λ line. line.items ≡ sent self.now reply.now) };
}

/// Nothing is sent.
#[derive(Clone, Copy)]
pub struct Unsent;

impl Envelope for Unsent {
    ghost use Rattle.std.specs.Prelude.{[]};

    ghost sent = { λ envelope reply. [] };

    fn wrap(&self, alloc: Global, _reply: &[u8]) -> Result<Vec<u8>, OutOfMemory> {
        Ok(Vec::new(alloc))
    }
}

/// The reply is sent as it is.
#[derive(Clone, Copy)]
pub struct Bare;

impl Envelope for Bare {
    ghost sent = { λ envelope reply. reply };

    fn wrap(&self, alloc: Global, reply: &[u8]) -> Result<Vec<u8>, OutOfMemory> {
        Ok(reply.to_vec(alloc)?)
    }
}
