//! What a client sends.

ghost use Rattle.std.specs.Prelude.{◌≡◌};
ghost use Rattle.postgres_messages.specs.declared.request.WriteFault.TheVariants as faults;

use std::alloc::AllocError;
use thiserror::Error;

/// A message of a client.
#[derive(Clone, Copy)]
pub enum FrontendMessage<'a> {
    /// The first message: who the client is, and which database it asks for. It sets the transactions' level, that they are
    /// committed on the standbys too, and that notices come.
    Startup {
        user: &'a [u8],
        database: &'a [u8],
    },
    /// Signs on by SCRAM-SHA-256, with the client's first message.
    SignOn(&'a [u8]),
    /// The client's last message of a sign-on.
    Reply(&'a [u8]),
    /// Parses a statement under a name. Its parameters have the types of these numbers.
    Parse {
        name: &'a [u8],
        sql: &'a [u8],
        types: &'a [u32],
    },
    /// Binds the statement of a name to values in their binary form. Its rows are asked for in theirs.
    Bind {
        name: &'a [u8],
        values: &'a [&'a [u8]],
    },
    /// Executes what is bound.
    Execute,
    /// Commits what was executed, and asks to be told when that is done.
    Sync,
    /// Ends the connection.
    Terminate,
}

/// Why a message wasn't written.
#[derive(Clone, Copy, Debug, PartialEq, Eq, Error)]
pub enum WriteFault {
    /// A text has a zero byte, or the message would be longer than 64 MiB, or have 65,536 values or more.
    #[error("the message can't be written")]
    Unwritable,
    /// Memory was refused.
    #[error("out of memory")]
    OutOfMemory,
}

impl From<AllocError> for WriteFault {
    ghost from_gives = { λ _ e. e ≡ faults.OutOfMemory };

    fn from(_refused: AllocError) -> WriteFault {
        WriteFault::OutOfMemory
    }
}
