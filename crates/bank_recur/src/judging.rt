//! What is refused of a recurring transfer, of its change and of its cancellation (OFX 1.6, "Recurring Transactions").

ghost use Rattle.std.specs.Prelude.{◌≡◌, ◌∷◌, [], not, Some};
ghost use Rattle.std.specs.Option.{option_map};
ghost use Rattle.ofx_types.specs.AccountForm.{same_account};
ghost use Rattle.bank_model.specs.SetupForm.{IsWithinLimits};
ghost use Rattle.bank_model.specs.Judging as rules;
ghost use Rattle.bank_model.specs.Judging.{refused, first_of, model_code, model_modify_code, model_cancel_code};

use bank_model::codes::{
    DATE_TOO_SOON, DESTINATION_NOT_FOUND, DONE, INVALID_AMOUNT, MODEL_ALREADY_CANCELED,
    SOURCE_NOT_FOUND, UNKNOWN_MODEL_ID,
};
use bank_model::{Setup, is_after, is_positive};
use ofx_types::{AcctId, AcctName, Day, ModelRow, UserId, XferInfo};

/// The code of a recurring transfer that a user asks for on a business day.
///
/// Where the deed is in the synchronisation of one account, `only` is that account. Takes no memory.
#[tactic(auto, unfolding(bank_model::specs::Judging::model_code))]
pub fn judge_model(
    setup: &Setup,
    user: UserId,
    only: Option<AcctId>,
    info: &XferInfo,
    day: Day,
) -> u16
    requires { IsWithinLimits setup.now }
    ensures { result ≡ model_code setup.now user only info.now day }
{
    if !setup.is_own(user, only, &info.from) {
        return SOURCE_NOT_FOUND;
    }
    asked_code(setup, info, day)
}

/// The code of a change of the recurring transfer that has that row, on a business day. Takes no memory.
#[tactic(auto, unfolding(bank_model::specs::Judging::model_modify_code, bank_model::specs::Judging::model_cancel_code))]
pub fn judge_model_modify(
    setup: &Setup,
    user: UserId,
    only: Option<AcctId>,
    row: Option<&ModelRow>,
    cancelled: bool,
    info: &XferInfo,
    day: Day,
) -> u16
    requires { IsWithinLimits setup.now }
    ensures { result
        ≡ model_modify_code setup.now user only (option_map (λ r. r.now) row.entry) cancelled info.now day }
{
    match row {
        Some(found) => change_code(setup, user, only, found, cancelled, info, day),
        None => UNKNOWN_MODEL_ID,
    }
}

/// The code of a cancellation of the recurring transfer that has that row. Takes no memory.
#[tactic(auto, unfolding(bank_model::specs::Judging::model_cancel_code))]
pub fn judge_model_cancel(
    setup: &Setup,
    user: UserId,
    only: Option<AcctId>,
    row: Option<&ModelRow>,
    cancelled: bool,
) -> u16
    requires { IsWithinLimits setup.now }
    ensures { result ≡ model_cancel_code setup.now user only (option_map (λ r. r.now) row.entry) cancelled }
{
    match row {
        Some(found) => state_code(setup, user, only, found, cancelled),
        None => UNKNOWN_MODEL_ID,
    }
}

/// What is refused of a change of a recurring transfer that there is.
#[tactic(auto, unfolding(bank_model::specs::Judging::model_modify_code, bank_model::specs::Judging::model_cancel_code))]
fn change_code(
    setup: &Setup,
    user: UserId,
    only: Option<AcctId>,
    found: &ModelRow,
    cancelled: bool,
    info: &XferInfo,
    day: Day,
) -> u16
    requires { IsWithinLimits setup.now }
    ensures { result ≡ model_modify_code setup.now user only (Some found.now) cancelled info.now day }
{
    match state_code(setup, user, only, found, cancelled) {
        DONE => terms_code(setup, found, info, day),
        refusal => refusal,
    }
}

/// What is refused of a change for its new row.
fn terms_code(setup: &Setup, found: &ModelRow, info: &XferInfo, day: Day) -> u16
    requires { IsWithinLimits setup.now }
    ensures { result ≡ first_of (
        refused 2006 (not (same_account info.now.from found.now.from))
        ∷ refused 2009 (not (rules.is_destination setup.now info.now))
        ∷ refused 2012 (not (rules.is_positive info.now))
        ∷ refused 2014 (not (rules.is_after info.now.due day))
        ∷ []) }
{
    if !has_source(found, info) {
        return SOURCE_NOT_FOUND;
    }
    asked_code(setup, info, day)
}

/// What a change and a cancellation refuse alike.
#[tactic(auto, unfolding(bank_model::specs::Judging::model_cancel_code))]
fn state_code(
    setup: &Setup,
    user: UserId,
    only: Option<AcctId>,
    found: &ModelRow,
    cancelled: bool,
) -> u16
    requires { IsWithinLimits setup.now }
    ensures { result ≡ model_cancel_code setup.now user only (Some found.now) cancelled }
{
    if !setup.is_own(user, only, &found.from) {
        return UNKNOWN_MODEL_ID;
    }
    if cancelled {
        return MODEL_ALREADY_CANCELED;
    }
    DONE
}

/// What is refused of a new row for its destination, its amount and its first day.
fn asked_code(setup: &Setup, info: &XferInfo, day: Day) -> u16
    requires { IsWithinLimits setup.now }
    ensures { result ≡ first_of (
        refused 2009 (not (rules.is_destination setup.now info.now))
        ∷ refused 2012 (not (rules.is_positive info.now))
        ∷ refused 2014 (not (rules.is_after info.now.due day))
        ∷ []) }
{
    if !setup.is_destination(info) {
        return DESTINATION_NOT_FOUND;
    }
    if !is_positive(info) {
        return INVALID_AMOUNT;
    }
    if !is_after(info.due, day) {
        return DATE_TOO_SOON;
    }
    DONE
}

/// Whether the source stays that of the recurring transfer.
fn has_source(found: &ModelRow, info: &XferInfo) -> bool
    ensures { result ≡ same_account info.now.from found.now.from }
{
    info.from == found.from
}
