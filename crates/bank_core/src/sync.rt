//! Synchronisation: a client gets what it has missed of an object, and its deeds on the object are done (OFX 1.6,
//! "Data Synchronization").

ghost use Rattle.std.specs.Prelude.{◌≡◌, ◌<◌, ◌++◌, Some, true, length, map, IfOk, OnOk};
ghost use Rattle.std.specs.List.{AllByRecursion, flat_map};
ghost use Rattle.std.specs.Fmt.{decimal};
ghost use Rattle.ofx_types.specs.SyncForm as forms;
ghost use Rattle.ofx_types.specs.declared.request.Ask.TheVariants as asks;
ghost use Rattle.bank_model.specs.Sync as rules;
ghost use Rattle.bank_model.specs.Sync.{sync_on, sync_answer, deed_answers};
ghost use Rattle.bank_model.specs.Rules.{named_by, named_by_pair};
ghost use Rattle.bank_model.specs.Sound.{IsSoundDeed, IsSoundSync};
ghost use Rattle.bank_accounts.specs.HeldAccounts.{AreHeld};
ghost use Rattle.bank_ledger.specs.DraftView.{drafted, IsSameFile};

use bank_deeds::answer_deed;
use bank_ledger::Draft;
use bank_model::codes::{ACCOUNT_NOT_FOUND, REJECTED_WITHOUT_TOKEN, TOKEN_OUT_OF_DATE};
use bank_queries::{is_lost, newest, number_text, replies_of_history, token_of};
use ofx_types::{
    AcctId, Deed, DeedReply, Duplicate, ObjectId, OutOfMemory, Sequence, SyncAsk, SyncKind,
    SyncReply, TrnUid,
};
use std::alloc::Global;

/// Answers a synchronisation, and adds what its deeds do.
///
/// The history, and whether synchronisation is lost or the deeds are refused, are judged on the state before the deeds.
#[tactic(auto, unfolding(bank_model::specs::Sync::sync_answer))]
pub(crate) fn sync(
    draft: &mut Draft<'_>,
    alloc: Global,
    ask: &SyncAsk,
) -> Result<SyncReply, OutOfMemory>
    requires known { draft.old.user.0 < length draft.old.setup.users }
    requires ask { IsSoundSync ask.now }
    requires named { AreHeld draft.old.held (named_by draft.old.setup (asks.Sync ask.now)) }
    ensures reply { IfOk result (λ reply. reply ≡ (sync_answer draft.old.setup (drafted draft.old)
        draft.old.user draft.old.at ask.now).reply) }
    ensures after { OnOk result (drafted draft.new ≡ (sync_answer draft.old.setup
        (drafted draft.old) draft.old.user draft.old.at ask.now).after) }
    ensures file { OnOk result (IsSameFile draft.old draft.new) }
{
    match draft.setup().object(draft.user(), &ask.object) {
        Some(object) => sync_object(draft, alloc, ask, object),
        None => stranger_reply(alloc, ask),
    }
}

/// Answers a synchronisation of an object of the user's.
#[tactic(auto, unfolding(bank_model::specs::Sync::sync_on))]
fn sync_object(
    draft: &mut Draft<'_>,
    alloc: Global,
    ask: &SyncAsk,
    object: ObjectId,
) -> Result<SyncReply, OutOfMemory>
    requires known { draft.old.user.0 < length draft.old.setup.users }
    requires ask { IsSoundSync ask.now }
    requires named { AreHeld draft.old.held (named_by draft.old.setup (asks.Sync ask.now)) }
    ensures reply { IfOk result (λ reply. reply ≡ (sync_on draft.old.setup (drafted draft.old)
        draft.old.user draft.old.at ask.now (Some object)).reply) }
    ensures after { OnOk result (drafted draft.new ≡ (sync_on draft.old.setup
        (drafted draft.old) draft.old.user draft.old.at ask.now (Some object)).after) }
    ensures file { OnOk result (IsSameFile draft.old draft.new) }
{
    let lost = is_lost(draft, object, &ask.kind);
    let reported = replies_of_history(draft, alloc, object, ask)?;
    let before = newest(draft, object);
    let code = rejection(ask.reject, before, &ask.kind);
    let replies = deeds_or_rejection(draft, alloc, ask, code, reported)?;
    let after = newest(draft, object);
    let token = number_text(alloc, after)?;
    let name = ask.object.copy()?;
    Ok(SyncReply {
        object: name,
        token,
        lost,
        replies: Sequence::from_vec(replies),
    })
}

/// Answers the deeds of a synchronisation after what is reported of the history: each by itself, or all with one code.
#[tactic(auto, unfolding(bank_model::specs::Sync::deeds_or_rejection))]
fn deeds_or_rejection(
    draft: &mut Draft<'_>,
    alloc: Global,
    ask: &SyncAsk,
    code: Option<u16>,
    reported: Vec<DeedReply>,
) -> Result<Vec<DeedReply>, OutOfMemory>
    requires known { draft.old.user.0 < length draft.old.setup.users }
    requires ask { IsSoundSync ask.now }
    requires named { AreHeld draft.old.held (named_by draft.old.setup (asks.Sync ask.now)) }
    ensures replies { IfOk result (λ replies. replies.items ≡ reported.items ++ (rules.deeds_or_rejection draft.old.setup
        (drafted draft.old) draft.old.user draft.old.at ask.now code).replies) }
    ensures after { OnOk result (drafted draft.new ≡ (rules.deeds_or_rejection draft.old.setup
        (drafted draft.old) draft.old.user draft.old.at ask.now code).after) }
    ensures file { OnOk result (IsSameFile draft.old draft.new) }
{
    match code {
        Some(code) => refused_after(reported, ask, code),
        None => {
            let user = draft.user();
            let only = draft.setup().account_about(user, &ask.object);
            answer_deeds(draft, alloc, only, ask.deeds.items(), reported)
        }
    }
}

/// Answers deeds in their order after other replies, and adds what they do.
fn answer_deeds(
    draft: &mut Draft<'_>,
    alloc: Global,
    only: Option<AcctId>,
    deeds: &[(TrnUid, Deed)],
    reported: Vec<DeedReply>,
) -> Result<Vec<DeedReply>, OutOfMemory>
    requires known { draft.old.user.0 < length draft.old.setup.users }
    requires deeds { AllByRecursion (λ deed. IsSoundDeed deed.1) deeds.now }
    requires named { AreHeld draft.old.held (flat_map (named_by_pair draft.old.setup) deeds.now) }
    ensures replies { IfOk result (λ replies. replies.items ≡ reported.items ++ (deed_answers draft.old.setup
        (drafted draft.old) draft.old.user only draft.old.at deeds.now).replies) }
    ensures after { OnOk result (drafted draft.new ≡ (deed_answers draft.old.setup
        (drafted draft.old) draft.old.user only draft.old.at deeds.now).after) }
    ensures file { OnOk result (IsSameFile draft.old draft.new) }
{
    let mut replies = reported;
    for deed in deeds {
        let reply = answer_deed(draft, alloc, only, &deed.0, &deed.1)?;
        replies.push(reply)?;
    }
    Ok(replies)
}

/// The answer to a user whose account it isn't.
#[tactic(auto, unfolding(bank_model::specs::Sync::sync_on))]
fn stranger_reply(alloc: Global, ask: &SyncAsk) -> Result<SyncReply, OutOfMemory>
    ensures { IfOk result (λ reply. reply ≡ record {
      object = ask.now.object;
      token = decimal 0;
      lost = true;
      replies = map (rules.refused_with (forms.object_family ask.now.object) 2003) ask.now.deeds;
    }) }
{
    let replies = refused_after(Vec::new(alloc), ask, ACCOUNT_NOT_FOUND)?;
    Ok(SyncReply {
        object: ask.object.copy()?,
        token: number_text(alloc, 0)?,
        lost: true,
        replies: Sequence::from_vec(replies),
    })
}

/// The same refusal of each deed of a synchronisation, after other replies.
fn refused_after(
    reported: Vec<DeedReply>,
    ask: &SyncAsk,
    code: u16,
) -> Result<Vec<DeedReply>, OutOfMemory>
    ensures { IfOk result (λ replies. replies.items ≡ reported.items
        ++ map (rules.refused_with (forms.object_family ask.now.object) code) ask.now.deeds) }
{
    let family = ask.object.family();
    let mut replies = reported;
    for deed in ask.deeds.items() {
        let trnuid = deed.0.copy()?;
        replies.push(DeedReply {
            trnuid,
            family,
            code,
            change: None,
        })?;
    }
    Ok(replies)
}

/// The code with which all deeds are refused, where the client wants them done only if it has missed nothing.
fn rejection(reject: bool, newest: u64, kind: &SyncKind) -> Option<u16>
    ensures { result ≡ rules.rejection reject newest kind.now }
{
    if !reject {
        return None;
    }
    unless_newest(newest, kind)
}

fn unless_newest(newest: u64, kind: &SyncKind) -> Option<u16>
    ensures { result ≡ rules.unless_newest newest kind.now }
{
    match kind {
        SyncKind::After(text) => {
            if is_newest(newest, token_of(text)) {
                return None;
            }
            Some(TOKEN_OUT_OF_DATE)
        }
        SyncKind::TokenOnly => Some(REJECTED_WITHOUT_TOKEN),
        SyncKind::Refresh => Some(REJECTED_WITHOUT_TOKEN),
    }
}

fn is_newest(newest: u64, token: Option<u64>) -> bool
    ensures { result ≡ rules.is_newest newest token }
{
    match token {
        Some(token) => token == newest,
        None => false,
    }
}
