//! What is synchronised: the object that a message names, read and written.

ghost use Rattle.std.specs.Prelude.{◌≡◌, ◌++◌, OnOk};
ghost use Rattle.std.specs.Io.{StartsWith};
ghost use Rattle.ofx_types.specs.FormWords.{ReadsForm};
ghost use Rattle.ofx_types.specs.SyncReading as reading;
ghost use Rattle.ofx_types.specs.PrintedSync as text;

use msg_parts::{print_account, read_account_in};
use ofx_tree::{Cursor, Sheet};
use ofx_types::{Family, ObjectName, OutOfMemory, TreeFault};
use std::alloc::Global;

/// The object of a family that a message names.
pub(crate) fn read_object(
    alloc: Global,
    family: Family,
    sync: &Cursor<'_>,
) -> Result<ObjectName, TreeFault>
    ensures { ReadsForm result (reading.object_in family sync.now) }
{
    match family {
        Family::Intra => Ok(ObjectName::Intra(read_account_in(alloc, sync)?)),
        Family::RecIntra => Ok(ObjectName::RecIntra(read_account_in(alloc, sync)?)),
        Family::BankMail => Ok(ObjectName::BankMail(read_account_in(alloc, sync)?)),
        Family::Mail => Ok(ObjectName::Mail),
    }
}

/// Writes the account of an object, where it has one.
#[tactic(auto, unfolding(ofx_types::specs::PrintedSync::object_text))]
pub(crate) fn print_object(object: &ObjectName, sheet: &mut Sheet) -> Result<(), OutOfMemory>
    ensures ok { OnOk result (sheet.new ≡ sheet.old ++ text.object_text object.now) }
    ensures kept { StartsWith sheet.new sheet.old }
{
    match object {
        ObjectName::Intra(account) => print_account(account, sheet),
        ObjectName::RecIntra(account) => print_account(account, sheet),
        ObjectName::BankMail(account) => print_account(account, sheet),
        ObjectName::Mail => Ok(()),
    }
}
