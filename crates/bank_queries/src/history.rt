//! The history of an object as a client gets it: its newest token, how far back it goes, and what it says (OFX 1.6,
//! "Data Synchronization").

ghost use Rattle.std.specs.Prelude.{◌≡◌, ◌≤◌, ◌∷◌, ◌++◌, [], nat_lt, Some, codes, length, map, filter, take, IfOk, OnOk};
ghost use Rattle.std.specs.List.{flat_map};
ghost use Rattle.std.specs.Option.{option_copied, IfSome};
ghost use Rattle.bank_history.specs.Made.{current_of};
ghost use Rattle.ofx_types.specs.SyncForm.{object_family};
ghost use Rattle.bank_model.specs.Objects as objects;
ghost use Rattle.bank_model.specs.Objects.{history_of};
ghost use Rattle.bank_model.specs.Judging as judging;
ghost use Rattle.bank_model.specs.Sync as rules;
ghost use Rattle.bank_model.specs.Sync.{reply_with_change, reply_of_entry, is_above, current_transfer, current_model, history_replies};
ghost use Rattle.bank_ledger.specs.DraftView.{drafted};

use crate::tokens::token_of;
use bank_history::{Made, count_of, last_number, number_at, put_made};
use bank_ledger::{Draft, own_uid};
use bank_model::Entry;
use bank_model::codes::DONE;
use ofx_types::{
    Change, DeedReply, Duplicate, Family, ModelRow, ObjectId, OutOfMemory, SyncAsk, SyncKind,
    TransferRow, TrnUid, XferCode,
};
use std::alloc::Global;

/// The number of the last entry of an object, 0 where there is none.
pub fn newest(draft: &Draft<'_>, object: ObjectId) -> u64
    ensures { result ≡ objects.newest object (drafted draft.now).entries }
{
    let before = draft.ledger().newest(object);
    last_number(draft.entries(), object, before)
}

/// Whether a client that asks so has lost synchronisation of an object.
#[tactic(auto, unfolding(bank_model::specs::Sync::is_lost))]
pub fn is_lost(draft: &Draft<'_>, object: ObjectId, kind: &SyncKind) -> bool
    ensures { result ≡ rules.is_lost draft.now.setup.window object (drafted draft.now).entries kind.now }
{
    match kind {
        SyncKind::After(text) => is_lost_at(draft, object, token_of(text)),
        SyncKind::TokenOnly => false,
        SyncKind::Refresh => false,
    }
}

fn is_lost_at(draft: &Draft<'_>, object: ObjectId, token: Option<u64>) -> bool
    ensures { result ≡ rules.is_lost_at draft.now.setup.window object (drafted draft.now).entries token }
{
    match token {
        Some(token) => newest(draft, object) < token || is_past(draft, object, token),
        None => true,
    }
}

/// Whether a token is below the floor: the number of the entry before the last `window` ones, 0 where there are no more
/// than these.
fn is_past(draft: &Draft<'_>, object: ObjectId, token: u64) -> bool
    ensures { result ≡ nat_lt token (objects.floor draft.now.setup.window object (drafted draft.now).entries) }
{
    let window = draft.setup().window as usize;
    let ledger = draft.ledger();
    let later = count_of(draft.entries(), object);
    if later <= window {
        return ledger.is_past(object, token, window - later);
    }
    let before = ledger.newest(object);
    let number = number_at(draft.entries(), object, later - window, before);
    token < number
}

/// The replies to a client that asks so about an object's history: none where it has lost synchronisation.
#[tactic(auto, unfolding(bank_model::specs::Sync::history_replies))]
pub fn replies_of_history(
    draft: &Draft<'_>,
    alloc: Global,
    object: ObjectId,
    ask: &SyncAsk,
) -> Result<Vec<DeedReply>, OutOfMemory>
    ensures { IfOk result (λ reported. reported.items ≡ history_replies draft.now.setup.window object (object_family ask.now.object)
        (drafted draft.now).entries ask.now.kind) }
{
    let family = ask.object.family();
    match &ask.kind {
        SyncKind::After(text) => {
            if is_lost(draft, object, &ask.kind) {
                return Ok(Vec::new(alloc));
            }
            above(draft, alloc, object, family, token_of(text))
        }
        SyncKind::TokenOnly => Ok(Vec::new(alloc)),
        SyncKind::Refresh => present(draft, alloc, object, family),
    }
}

/// The entries of an object above a token, which isn't below the floor.
fn above(
    draft: &Draft<'_>,
    alloc: Global,
    object: ObjectId,
    family: Family,
    token: Option<u64>,
) -> Result<Vec<DeedReply>, OutOfMemory>
    requires floor { IfSome token (λ token.
        objects.floor draft.now.setup.window object (drafted draft.now).entries ≤ token) }
    ensures { IfOk result (λ reported. reported.items ≡ map (reply_of_entry family)
        (rules.entries_above token (history_of object (drafted draft.now).entries))) }
{
    let mut reported = Vec::new(alloc);
    match token {
        Some(token) => {
            let before = draft.ledger().since(alloc, object, token)?;
            report_entries(&mut reported, &before, family)?;
            report_above(&mut reported, draft.entries(), object, family, token)?;
            Ok(reported)
        }
        None => Ok(reported),
    }
}

/// What there is now of an object, as if it were new.
fn present(
    draft: &Draft<'_>,
    alloc: Global,
    object: ObjectId,
    family: Family,
) -> Result<Vec<DeedReply>, OutOfMemory>
    ensures { IfOk result (λ reported. reported.items ≡ map (reply_with_change family (codes "0"))
        (rules.present object (drafted draft.now).entries)) }
{
    let mut reported = Vec::new(alloc);
    let mut made = draft.ledger().made(alloc, object)?;
    put_made(&mut made, draft.entries(), object)?;
    report_all_made(draft, &mut reported, &made, family)?;
    Ok(reported)
}

/// Says what there is now of what was made.
fn report_all_made(
    draft: &Draft<'_>,
    reported: &mut Vec<DeedReply>,
    made: &[Made],
    family: Family,
) -> Result<(), OutOfMemory>
    ensures { OnOk result (reported.new.items ≡ reported.old.items ++ map (reply_with_change family (codes "0"))
        (flat_map (current_of (drafted draft.now).entries) made.now)) }
{
    for one in made {
        report_made(draft, reported, one, family)?;
    }
    Ok(())
}

/// Says what there is now of a transfer, a recurring transfer or a mail.
fn report_made(
    draft: &Draft<'_>,
    reported: &mut Vec<DeedReply>,
    made: &Made,
    family: Family,
) -> Result<(), OutOfMemory>
    ensures { OnOk result (reported.new.items ≡ reported.old.items ++ map (reply_with_change family (codes "0"))
        (current_of (drafted draft.now).entries made.now)) }
{
    match made {
        Made::Transfer(id) => {
            let found = draft.row(*id);
            report_transfer(reported, found, family)
        }
        Made::Model(id) => {
            let cancelled = draft.is_cancelled(*id);
            let found = draft.model(*id);
            report_model(reported, cancelled, found, family)
        }
        Made::Mail(row) => {
            let copy = row.copy()?;
            report_now(reported, Change::NewMail(copy), family)
        }
    }
}

/// Adds a reply with the row of a transfer, where there is one that isn't cancelled.
fn report_transfer(
    reported: &mut Vec<DeedReply>,
    row: Option<&TransferRow>,
    family: Family,
) -> Result<(), OutOfMemory>
    ensures { OnOk result (reported.new.items
        ≡ reported.old.items ++ map (reply_with_change family (codes "0")) (current_transfer (option_copied row.entry))) }
{
    match row {
        Some(row) => report_open(reported, row, family),
        None => Ok(()),
    }
}

/// Adds a reply with the row of a transfer, where it isn't cancelled.
fn report_open(
    reported: &mut Vec<DeedReply>,
    row: &TransferRow,
    family: Family,
) -> Result<(), OutOfMemory>
    ensures { OnOk result (reported.new.items
        ≡ reported.old.items ++ map (reply_with_change family (codes "0")) (current_transfer (Some row.now))) }
{
    if is_cancelled(row.code) {
        return Ok(());
    }
    let copy = row.copy()?;
    report_now(reported, Change::NewTransfer(copy), family)
}

fn is_cancelled(code: XferCode) -> bool
    ensures { result ≡ judging.is_cancelled code }
{
    matches!(code, XferCode::Cancelled)
}

/// Adds a reply with the row of a recurring transfer, where there is one that isn't cancelled.
fn report_model(
    reported: &mut Vec<DeedReply>,
    cancelled: bool,
    row: Option<&ModelRow>,
    family: Family,
) -> Result<(), OutOfMemory>
    ensures { OnOk result (reported.new.items
        ≡ reported.old.items ++ map (reply_with_change family (codes "0")) (current_model cancelled (option_copied row.entry))) }
{
    match row {
        Some(row) => report_going_on(reported, cancelled, row, family),
        None => Ok(()),
    }
}

/// Adds a reply with the row of a recurring transfer, where it isn't cancelled.
fn report_going_on(
    reported: &mut Vec<DeedReply>,
    cancelled: bool,
    row: &ModelRow,
    family: Family,
) -> Result<(), OutOfMemory>
    ensures { OnOk result (reported.new.items
        ≡ reported.old.items ++ map (reply_with_change family (codes "0")) (current_model cancelled (Some row.now))) }
{
    if cancelled {
        return Ok(());
    }
    let copy = row.copy()?;
    report_now(reported, Change::NewModel(copy), family)
}

/// Says what there is now: the bank acts by itself.
fn report_now(
    reported: &mut Vec<DeedReply>,
    change: Change,
    family: Family,
) -> Result<(), OutOfMemory>
    ensures { OnOk result (reported.new.items ≡ reported.old.items ++ reply_with_change family (codes "0") change ∷ []) }
{
    let uid = own_uid()?;
    report(reported, uid, change, family)
}

/// Adds replies with entries, each with its own uid.
fn report_entries(
    reported: &mut Vec<DeedReply>,
    entries: &[&Entry],
    family: Family,
) -> Result<(), OutOfMemory>
    ensures { OnOk result (reported.new.items
        ≡ reported.old.items ++ map (reply_of_entry family) (map (λ entry. entry.now) entries.now)) }
{
    for entry in entries {
        report_own(reported, entry, family)?;
    }
    Ok(())
}

/// Adds a reply with an entry and its own uid.
fn report_own(
    reported: &mut Vec<DeedReply>,
    entry: &Entry,
    family: Family,
) -> Result<(), OutOfMemory>
    ensures { OnOk result (reported.new.items ≡ reported.old.items ++ reply_of_entry family entry.now ∷ []) }
{
    let uid = entry.trnuid.copy()?;
    let change = entry.change.copy()?;
    report(reported, uid, change, family)
}

/// Adds replies with the entries of an object above a token.
fn report_above(
    reported: &mut Vec<DeedReply>,
    entries: &[Entry],
    object: ObjectId,
    family: Family,
    token: u64,
) -> Result<(), OutOfMemory>
    ensures { OnOk result (reported.new.items ≡ reported.old.items ++ map (reply_of_entry family)
        (filter (is_above token) (history_of object entries.now))) }
{
    for entry in entries {
        report_entry(reported, entry, object, family, token)?;
    }
    Ok(())
}

/// Adds a reply with an entry, where it is one of the object and above the token.
#[tactic(auto, unfolding(bank_model::specs::Objects::history_of))]
fn report_entry(
    reported: &mut Vec<DeedReply>,
    entry: &Entry,
    object: ObjectId,
    family: Family,
    token: u64,
) -> Result<(), OutOfMemory>
    ensures { OnOk result (reported.new.items ≡ reported.old.items ++ map (reply_of_entry family)
        (filter (is_above token) (history_of object (entry.now ∷ [])))) }
{
    if entry.object.0 == object.0 && token < entry.number {
        return report_own(reported, entry, family);
    }
    Ok(())
}

/// Adds a reply with a change and its uid.
fn report(
    reported: &mut Vec<DeedReply>,
    trnuid: TrnUid,
    change: Change,
    family: Family,
) -> Result<(), OutOfMemory>
    ensures { OnOk result (reported.new.items ≡ reported.old.items ++ reply_with_change family trnuid change ∷ []) }
{
    reported.push(DeedReply {
        trnuid,
        family,
        code: DONE,
        change: Some(change),
    })?;
    Ok(())
}
