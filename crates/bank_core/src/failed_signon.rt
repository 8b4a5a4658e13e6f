//! The answer to a signon that failed.

ghost use Rattle.std.specs.Prelude.{◌≡◌};
ghost use Rattle.bank_model.specs.Rules as rules;

use bank_model::codes::SIGNON_INVALID;
use ofx_types::{Moment, ReplyFile, RequestFile, Sequence};
use std::alloc::Global;

/// The reply at a moment to a request file whose signon failed (OFX 1.6, "Signon"): its status alone. Nothing that
/// the file asks is answered.
#[tactic(auto, unfolding(bank_model::specs::Rules::denial))]
pub fn denial(alloc: Global, file: RequestFile, at: Moment) -> ReplyFile
    ensures { result ≡ rules.denial file at }
{
    ReplyFile {
        version: file.version,
        newer: file.newer,
        signon: SIGNON_INVALID,
        moment: at,
        replies: Sequence::new(alloc),
    }
}
