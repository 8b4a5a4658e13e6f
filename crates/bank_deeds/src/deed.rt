//! A deed of a user's file: its code, and what it adds to a draft (OFX 1.6, "Intrabank Funds Transfer", "Recurring
//! Transactions" and "Communication Between Customers and Financial Institutions").

ghost use Rattle.std.specs.Prelude.{◌≡◌, ◌+◌, ◌<◌, ◌≤◌, None, Some, length, if◌then◌else◌, IfOk, OnOk};
ghost use Rattle.std.specs.Option.{IfSome};
ghost use Rattle.std.specs.List.{slice_get};
ghost use Rattle.ofx_types.specs.DeedForm as forms;
ghost use Rattle.bank_model.specs.SetupLookups.{account_of};
ghost use Rattle.bank_model.specs.Deeds as rules;
ghost use Rattle.bank_model.specs.Deeds.{code_of, done, deed_answer};
ghost use Rattle.bank_model.specs.Rules.{named_by_deed};
ghost use Rattle.bank_model.specs.Sound.{IsSoundDeed};
ghost use Rattle.bank_accounts.specs.HeldAccounts.{AreHeld, IsHeld};
ghost use Rattle.bank_invariants.specs.Pending.{pending_of, ids_of};
ghost use Rattle.bank_ledger.specs.DraftView.{drafted, HasAdded, IsSameFile};
ghost use Rattle.bank_deeds.specs.Entries.{reported_of};
ghost use Rattle.bank_deeds.specs.Unrefused.{IsUnrefused};

use crate::mail::{add_bank_mail, add_mail};
use crate::models::{add_model, cancel_model, modify_model};
use crate::pending::pending_ids;
use crate::transfers::{cancel, modify, transfer};
use bank_ledger::Draft;
use bank_mail::{judge_bank_mail, judge_mail};
use bank_model::codes::{DONE, DUPLICATE_REQUEST, NO_ROOM};
use bank_recur::{judge_model, judge_model_cancel, judge_model_modify};
use bank_transfers::{judge_cancel, judge_modify, judge_transfer};
use ofx_types::{AcctId, Cents, Change, Deed, DeedReply, Duplicate, OutOfMemory, TrnUid, XferInfo};
use std::alloc::Global;

/// Answers a deed under a uid, and adds what it does. A uid is used up whatever comes of the deed.
///
/// Where the deed is in the synchronisation of one account, `only` is that account.
pub fn answer_deed(
    draft: &mut Draft<'_>,
    alloc: Global,
    only: Option<AcctId>,
    trnuid: &TrnUid,
    deed: &Deed,
) -> Result<DeedReply, OutOfMemory>
    requires known { draft.old.user.0 < length draft.old.setup.users }
    requires deed { IsSoundDeed deed.now }
    requires named { AreHeld draft.old.held (named_by_deed draft.old.setup deed.now) }
    ensures reply { IfOk result (λ reply. reply ≡ (deed_answer draft.old.setup (drafted draft.old)
        draft.old.user only draft.old.at trnuid.now deed.now).reply) }
    ensures after { OnOk result (drafted draft.new ≡ (deed_answer draft.old.setup
        (drafted draft.old) draft.old.user only draft.old.at trnuid.now deed.now).after) }
    ensures file { OnOk result (IsSameFile draft.old draft.new) }
{
    let pending = pending_ids(draft, alloc, deed)?;
    match code(draft, only, trnuid, deed, &pending) {
        DONE => done_reply(draft, only, trnuid, deed, &pending),
        DUPLICATE_REQUEST => {
            let reply = refusal(trnuid, deed, DUPLICATE_REQUEST)?;
            Ok(reply)
        }
        code => {
            let uid = trnuid.copy()?;
            draft.use_up(uid)?;
            let reply = refusal(trnuid, deed, code)?;
            Ok(reply)
        }
    }
}

/// Does a deed that isn't refused, and uses up its uid.
fn done_reply(
    draft: &mut Draft<'_>,
    only: Option<AcctId>,
    trnuid: &TrnUid,
    deed: &Deed,
    pending: &[u64],
) -> Result<DeedReply, OutOfMemory>
    requires known { draft.old.user.0 < length draft.old.setup.users }
    requires deed { IsSoundDeed deed.now }
    requires named { AreHeld draft.old.held (named_by_deed draft.old.setup deed.now) }
    requires done { code_of draft.old.setup (drafted draft.old) draft.old.user only draft.old.at trnuid.now
        deed.now ≡ 0 }
    requires pending { pending.now ≡ ids_of (pending_of (drafted draft.old) deed.now) }
    ensures reply { IfOk result (λ reply. reply ≡ (deed_answer draft.old.setup (drafted draft.old)
        draft.old.user only draft.old.at trnuid.now deed.now).reply) }
    ensures after { OnOk result (drafted draft.new ≡ (deed_answer draft.old.setup
        (drafted draft.old) draft.old.user only draft.old.at trnuid.now deed.now).after) }
    ensures file { OnOk result (IsSameFile draft.old draft.new) }
{
    let index = draft.entries().len();
    perform(draft, trnuid, deed, pending)?;
    let uid = trnuid.copy()?;
    draft.use_up(uid)?;
    reported(draft, index, trnuid, deed)
}

/// The reply to a deed that is done: it says what the entry at this index of those that are added says.
fn reported(
    draft: &Draft<'_>,
    index: usize,
    trnuid: &TrnUid,
    deed: &Deed,
) -> Result<DeedReply, OutOfMemory>
    requires { index < length draft.now.entries }
    ensures { IfOk result (λ reply. reply ≡ reported_of trnuid.now deed.now (slice_get draft.now.entries index)) }
{
    let trnuid = trnuid.copy()?;
    let change = match draft.entries().get(index) {
        Some(entry) => entry.change.copy()?,
        None => unreachable!(),
    };
    Ok(DeedReply {
        trnuid,
        family: deed.family(),
        code: DONE,
        change: Some(change),
    })
}

/// The code of a deed: 2019 where the uid is used up, otherwise the table's, and 2000 where the entries would be
/// too many.
fn code(
    draft: &Draft<'_>,
    only: Option<AcctId>,
    trnuid: &TrnUid,
    deed: &Deed,
    pending: &[u64],
) -> u16
    requires deed { IsSoundDeed deed.now }
    requires named { AreHeld draft.now.held (named_by_deed draft.now.setup deed.now) }
    requires pending { pending.now ≡ ids_of (pending_of (drafted draft.now) deed.now) }
    ensures { result ≡ code_of draft.now.setup (drafted draft.now) draft.now.user only draft.now.at trnuid.now
        deed.now }
{
    if draft.is_used(trnuid) {
        return DUPLICATE_REQUEST;
    }
    match judged(draft, only, deed) {
        DONE => room_code(draft, pending.len()),
        code => code,
    }
}

/// 2000 where there may not be so many entries and one more.
fn room_code(draft: &Draft<'_>, pending: usize) -> u16
    ensures { result ≡ (if rules.is_full draft.now.setup (length (drafted draft.now).entries + (pending + 1))
        then 2000 else 0) }
{
    let left = draft.setup().entries - draft.count();
    if pending as u64 >= left {
        return NO_ROOM;
    }
    DONE
}

/// The code of a deed by the table of refusals.
fn judged(draft: &Draft<'_>, only: Option<AcctId>, deed: &Deed) -> u16
    requires { AreHeld draft.now.held (named_by_deed draft.now.setup deed.now) }
    ensures { result ≡ rules.judged draft.now.setup (drafted draft.now) draft.now.user only deed.now }
{
    let setup = draft.setup();
    match deed {
        Deed::Transfer(info) => {
            let balance = source_balance(draft, info);
            judge_transfer(setup, draft.user(), only, info, draft.day(), balance)
        }
        Deed::ModifyTransfer(id, info) => {
            let row = draft.row(*id);
            judge_modify(setup, draft.user(), only, row, info, draft.day())
        }
        Deed::CancelTransfer(id) => {
            let row = draft.row(*id);
            judge_cancel(setup, draft.user(), only, row)
        }
        Deed::Model(_, info) => judge_model(setup, draft.user(), only, info, draft.day()),
        Deed::ModifyModel(id, _, info, _) => {
            let row = draft.model(*id);
            let cancelled = draft.is_cancelled(*id);
            judge_model_modify(setup, draft.user(), only, row, cancelled, info, draft.day())
        }
        Deed::CancelModel(id, _) => {
            let row = draft.model(*id);
            let cancelled = draft.is_cancelled(*id);
            judge_model_cancel(setup, draft.user(), only, row, cancelled)
        }
        Deed::BankMail(account, mail) => {
            judge_bank_mail(setup, draft.user(), only, account, mail)
        }
        Deed::Mail(mail) => judge_mail(mail),
    }
}

/// The balance of the source of a transfer. An account that the bank hasn't has 0.
fn source_balance(draft: &Draft<'_>, info: &XferInfo) -> Cents
    requires { IfSome (account_of draft.now.setup info.now.from) (IsHeld draft.now.held) }
    ensures { result.0 ≡ rules.source_balance draft.now.setup (drafted draft.now) info.now }
{
    match draft.setup().account(&info.from) {
        Some(account) => draft.held_balance(account),
        None => Cents(0),
    }
}

/// Adds the entries of a deed that isn't refused.
fn perform(
    draft: &mut Draft<'_>,
    trnuid: &TrnUid,
    deed: &Deed,
    pending: &[u64],
) -> Result<(), OutOfMemory>
    requires known { draft.old.user.0 < length draft.old.setup.users }
    requires few { length (drafted draft.old).entries + (length pending.now + 1) ≤ draft.old.setup.entries }
    requires deed { IsSoundDeed deed.now }
    requires named { AreHeld draft.old.held (named_by_deed draft.old.setup deed.now) }
    requires judged { IsUnrefused draft.old.setup (drafted draft.old) draft.old.user deed.now }
    requires pending { pending.now ≡ ids_of (pending_of (drafted draft.old) deed.now) }
    ensures added { OnOk result (HasAdded draft.old draft.new
        (done draft.old.setup (drafted draft.old) draft.old.user draft.old.at trnuid.now deed.now)) }
{
    match deed {
        Deed::Transfer(info) => transfer(draft, trnuid, info),
        Deed::ModifyTransfer(id, info) => modify(draft, trnuid, *id, info),
        Deed::CancelTransfer(id) => cancel(draft, trnuid, *id),
        Deed::Model(recur, info) => add_model(draft, trnuid, *recur, info),
        Deed::ModifyModel(id, recur, info, also) => {
            modify_model(draft, trnuid, (*id, *recur, *also), info, pending)
        }
        Deed::CancelModel(id, also) => { cancel_model(draft, trnuid, (*id, *also), pending) }
        Deed::BankMail(account, mail) => { add_bank_mail(draft, trnuid, account, mail) }
        Deed::Mail(mail) => add_mail(draft, trnuid, mail),
    }
}

/// The answer to a deed that is refused.
fn refusal(trnuid: &TrnUid, deed: &Deed, code: u16) -> Result<DeedReply, OutOfMemory>
    ensures { IfOk result (λ reply. reply
        ≡ record { trnuid = trnuid.now; family = forms.family_of deed.now; code = code; change = None }) }
{
    Ok(DeedReply {
        trnuid: trnuid.copy()?,
        family: deed.family(),
        code,
        change: None,
    })
}
