//! The message set of the signon (SIGNONMSGSRQV1).

ghost use Rattle.ofx_types.specs.FormWords.{ReadsForm};
ghost use Rattle.ofx_file.specs.RequestSteps as steps;

use msg_mail::read_signon;
use ofx_tree::Cursor;
use ofx_types::{Text, TreeFault};
use std::alloc::Global;

/// Who signs on, in the message set that OFX has for it: the user's name and the password.
#[tactic(auto, unfolding(crate::specs::RequestSteps::signon_in))]
pub(crate) fn signon_in(alloc: Global, ofx: &Cursor<'_>) -> Result<(Text, Text), TreeFault>
    ensures { ReadsForm result (steps.signon_in ofx.now) }
{
    let signon_set = ofx.one(b"SIGNONMSGSRQV1")?;
    let sonrq = signon_set.one(b"SONRQ")?;
    read_signon(alloc, &sonrq)
}
