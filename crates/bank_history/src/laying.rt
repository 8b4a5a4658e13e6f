//! Recent entries are laid into what is held of their objects.

ghost use Rattle.std.specs.Prelude.{◌≡◌, ◌<◌, ◌≤◌, [], reverse, vec_len, vec_capacity, OnOk};
ghost use Rattle.bank_history.specs.EntryTrace.{entries_of};
ghost use Rattle.bank_history.specs.HistoryHeld.{AreNumbered, IsLaidBefore};

use crate::entry_trace::EntryTrace;
use crate::laid::Laid;
use crate::origins::mail_of;
use bank_model::Entry;
use ofx_types::OutOfMemory;

/// Lays the recent of all entries into what is held of their objects, one after another, until none is recent. Where memory is
/// refused, those that aren't laid stay.
pub(crate) fn lay(
    past: &EntryTrace,
    laid: &mut Laid,
    recent: &mut Vec<Entry>,
) -> Result<(), OutOfMemory>
    requires numbered { AreNumbered (entries_of past.now) }
    requires laid { IsLaidBefore laid.old recent.old.items (entries_of past.now) }
    ensures width { laid.new.objects.width ≡ laid.old.objects.width }
    ensures laid { IsLaidBefore laid.new recent.new.items (entries_of past.now) }
    ensures all { OnOk result (recent.new.items ≡ []) }
    ensures len { vec_len recent.new ≤ vec_len recent.old }
    ensures capacity { vec_capacity recent.new ≡ vec_capacity recent.old }
{
    recent.reverse();
    let outcome = lay_from_end(past, laid, recent);
    recent.reverse();
    outcome
}

/// Lays recent entries, of which the first one is last.
fn lay_from_end(
    past: &EntryTrace,
    laid: &mut Laid,
    recent: &mut Vec<Entry>,
) -> Result<(), OutOfMemory>
    requires numbered { AreNumbered (entries_of past.now) }
    requires laid { IsLaidBefore laid.old (reverse recent.old.items) (entries_of past.now) }
    ensures width { laid.new.objects.width ≡ laid.old.objects.width }
    ensures laid { IsLaidBefore laid.new (reverse recent.new.items) (entries_of past.now) }
    ensures all { OnOk result (recent.new.items ≡ []) }
    ensures len { vec_len recent.new ≤ vec_len recent.old }
    ensures capacity { vec_capacity recent.new ≡ vec_capacity recent.old }
{
    while !recent.is_empty() {
        lay_last(past, laid, recent)?;
    }
    Ok(())
}

/// Lays the last of some entries.
fn lay_last(past: &EntryTrace, laid: &mut Laid, recent: &mut Vec<Entry>) -> Result<(), OutOfMemory>
    requires some { 0 < vec_len recent.old }
    requires numbered { AreNumbered (entries_of past.now) }
    requires laid { IsLaidBefore laid.old (reverse recent.old.items) (entries_of past.now) }
    ensures width { laid.new.objects.width ≡ laid.old.objects.width }
    ensures laid { IsLaidBefore laid.new (reverse recent.new.items) (entries_of past.now) }
    ensures len { vec_len recent.new ≤ vec_len recent.old }
    ensures less { OnOk result (vec_len recent.new < vec_len recent.old) }
    ensures capacity { vec_capacity recent.new ≡ vec_capacity recent.old }
{
    let entry = &recent[recent.len() - 1];
    let mail = mail_of(&entry.change)?;
    laid.reserve(entry.object, &mail)?;
    match recent.pop() {
        Some(entry) => laid.add(entry, mail),
        None => unreachable!(),
    }
    Ok(())
}
