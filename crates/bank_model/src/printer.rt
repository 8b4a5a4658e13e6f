//! Who writes replies.

ghost use Rattle.std.specs.Prelude.{◌≡◌, IfOk};
ghost use Rattle.ofx_types.specs.ReplyForm.{reply_text};
ghost use Rattle.ofx_types.specs.Printable.{IsPrintable};

use ofx_types::{OutOfMemory, ReplyFile};
use std::alloc::Global;

/// Writes reply files in their one printed form. A printer is a value without state, so that a bank may have
/// several.
pub trait Printer: Copy {
    /// The bytes of the reply.
    fn print(&self, alloc: Global, reply: &ReplyFile) -> Result<Vec<u8>, OutOfMemory>
        requires { IsPrintable reply.now }
        ensures { IfOk result (λ bytes. bytes.items ≡ reply_text reply.now) };
}
