//! The reply to a failed signon, as bytes.

ghost use Rattle.std.specs.Prelude.{◌≡◌, IfOk};
ghost use Rattle.ofx_types.specs.Calendar.{IsMoment};
ghost use Rattle.ofx_types.specs.ReplyForm.{reply_text};
ghost use Rattle.bank_model.specs.Rules as rules;

use bank_core::denial;
use ofx_file::write_reply;
use ofx_types::{Moment, OutOfMemory, RequestFile};
use std::alloc::Global;

/// The reply at a moment to a file whose signon failed, in its printed form.
pub fn denial_text(alloc: Global, at: Moment, file: RequestFile) -> Result<Vec<u8>, OutOfMemory>
    requires { IsMoment at.0 }
    ensures { IfOk result (λ text. text.items ≡ reply_text (rules.denial file at)) }
{
    write_reply(alloc, &denial(alloc, file, at))
}
