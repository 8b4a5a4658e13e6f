//! Forms that come one after the other, each put after those that are read already.

ghost use Rattle.std.specs.Prelude.{◌≡◌, ◌++◌, IfErr, OnOk, OnErr, option_to_list};

use ofx_types::{OutOfMemory, Sequence, TreeFault};

/// Puts a form after the others, where there is one.
///
/// `OutOfMemory` where memory for it is refused; the forms are as before then.
pub fn put_form<T: Drop>(found: Option<T>, forms: &mut Sequence<T>) -> Result<(), TreeFault>
    ensures ok { OnOk result (forms.new ≡ forms.old ++ option_to_list found) }
    ensures err { IfErr result (λ fault. fault ≡ TreeFault.OutOfMemory) }
    ensures kept { OnErr result (forms.new ≡ forms.old) }
{
    let Some(form) = found else {
        return Ok(());
    };
    match forms.push(form) {
        Ok(()) => Ok(()),
        Err(OutOfMemory) => Err(TreeFault::OutOfMemory),
    }
}
