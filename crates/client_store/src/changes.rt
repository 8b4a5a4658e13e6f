//! The changes of a reply that were done.

ghost use Rattle.std.specs.Prelude.{◌≡◌, ◌++◌, IfOk, OnOk};
ghost use Rattle.std.specs.List.{flat_map};
ghost use Rattle.bank_model.specs.Stores.{change_done};

use ofx_types::{Change, DeedReply, Duplicate, OutOfMemory};
use std::alloc::Global;

/// Copies of the changes of status 0, in their order.
pub(crate) fn changes_done(alloc: Global, replies: &[DeedReply]) -> Result<Vec<Change>, OutOfMemory>
    ensures { IfOk result (λ changes. changes.items ≡ flat_map change_done replies.now) }
{
    let mut changes = Vec::new(alloc);
    for reply in replies {
        add_done(&mut changes, reply)?;
    }
    Ok(changes)
}

/// Adds a copy of the change of a reply, where its status is 0.
fn add_done(changes: &mut Vec<Change>, reply: &DeedReply) -> Result<(), OutOfMemory>
    ensures { OnOk result (changes.new.items ≡ changes.old.items ++ change_done reply.now) }
{
    if reply.code != 0 {
        return Ok(());
    }
    match &reply.change {
        Some(change) => {
            changes.push(change.copy()?)?;
            Ok(())
        }
        None => Ok(()),
    }
}
