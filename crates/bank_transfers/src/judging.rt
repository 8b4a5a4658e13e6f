//! What is refused of a transfer, of its change and of its cancellation (OFX 1.6, "Intrabank Funds Transfer").

ghost use Rattle.std.specs.Prelude.{◌≡◌, ◌∷◌, [], not, ℤ, pos, int_lt, int_le, unwrap_or};
ghost use Rattle.std.specs.Option.{option_map};
ghost use Rattle.ofx_types.specs.AccountForm.{same_account};
ghost use Rattle.bank_model.specs.SetupForm.{IsWithinLimits};
ghost use Rattle.bank_model.specs.Judging as rules;
ghost use Rattle.bank_model.specs.Judging.{refused, first_of, transfer_code, modify_code, cancel_code};

use bank_model::codes::{
    ALREADY_CANCELED, ALREADY_COMMITTED, DATE_TOO_SOON, DESTINATION_NOT_FOUND, DONE,
    INSUFFICIENT_FUNDS, INVALID_AMOUNT, SOURCE_NOT_FOUND, UNKNOWN_SERVER_ID,
};
use bank_model::{Setup, is_after, is_positive};
use ofx_types::{AcctId, AcctName, Cents, Day, TransferRow, UserId, XferCode, XferInfo};

/// The code of a transfer that a user asks for on a business day, when its source has that balance.
///
/// Where the deed is in the synchronisation of one account, `only` is that account. Takes no memory.
///
/// ```rust
/// use bank_model::Setup;
/// use bank_transfers::judge_transfer;
/// use ofx_types::{Cents, Day, Duplicate, UserId, XferInfo};
///
/// let bytes = b"OFXBANK 1\nBANK 1\nLEAD 5\nWINDOW 3\nENTRIES 99\nUSER alice secret\n\
///     ACCT 1001 CHECKING 500 alice\nACCT 1002 SAVINGS 0 alice\n";
/// let setup = Setup::read(rt.alloc(), bytes).expect(&rt, "a setup");
/// let [first, second] = setup.accounts.items() else {
///     panic!(rt; "two accounts");
/// };
/// let info = XferInfo {
///     from: first.name.copy().expect(&rt, "room"),
///     to: second.name.copy().expect(&rt, "room"),
///     amount: Cents(500),
///     due: None,
/// };
/// let judged = judge_transfer(&setup, UserId(0), None, &info, Day(19_753), Cents(500));
/// assert_eq!(rt; judged, 0);
/// // A balance of 4.99 doesn't cover it.
/// let judged = judge_transfer(&setup, UserId(0), None, &info, Day(19_753), Cents(499));
/// assert_eq!(rt; judged, 10504);
/// ```
#[tactic(auto, unfolding(bank_model::specs::Judging::transfer_code))]
pub fn judge_transfer(
    setup: &Setup,
    user: UserId,
    only: Option<AcctId>,
    info: &XferInfo,
    day: Day,
    balance: Cents,
) -> u16
    requires { IsWithinLimits setup.now }
    ensures { result ≡ transfer_code setup.now user only info.now day balance.0 }
{
    if !setup.is_own(user, only, &info.from) {
        return SOURCE_NOT_FOUND;
    }
    if !setup.is_destination(info) {
        return DESTINATION_NOT_FOUND;
    }
    if !is_positive(info) {
        return INVALID_AMOUNT;
    }
    if is_due(info, day) && balance.0 < info.amount.0 {
        return INSUFFICIENT_FUNDS;
    }
    DONE
}

/// The code of a change of the transfer that has that row, on a business day. Takes no memory.
#[tactic(auto, unfolding(bank_model::specs::Judging::modify_code))]
pub fn judge_modify(
    setup: &Setup,
    user: UserId,
    only: Option<AcctId>,
    row: Option<&TransferRow>,
    info: &XferInfo,
    day: Day,
) -> u16
    requires { IsWithinLimits setup.now }
    ensures { result ≡ modify_code setup.now user only (option_map (λ r. r.now) row.entry) info.now day }
{
    match row {
        Some(found) => change_code(setup, user, only, found, info, day),
        None => UNKNOWN_SERVER_ID,
    }
}

/// The code of a cancellation of the transfer that has that row. Takes no memory.
#[tactic(auto, unfolding(bank_model::specs::Judging::cancel_code))]
pub fn judge_cancel(
    setup: &Setup,
    user: UserId,
    only: Option<AcctId>,
    row: Option<&TransferRow>,
) -> u16
    requires { IsWithinLimits setup.now }
    ensures { result ≡ cancel_code setup.now user only (option_map (λ r. r.now) row.entry) }
{
    match row {
        Some(found) => state_code(setup, user, only, found),
        None => UNKNOWN_SERVER_ID,
    }
}

/// What is refused of a change of a transfer that there is.
#[tactic(auto, unfolding(bank_model::specs::Judging::modify_code, bank_model::specs::Judging::cancel_code))]
fn change_code(
    setup: &Setup,
    user: UserId,
    only: Option<AcctId>,
    found: &TransferRow,
    info: &XferInfo,
    day: Day,
) -> u16
    requires { IsWithinLimits setup.now }
    ensures { result ≡ modify_code setup.now user only (Some found.now) info.now day }
{
    match state_code(setup, user, only, found) {
        DONE => asked_code(setup, found, info, day),
        refusal => refusal,
    }
}

/// What is refused of a change for what it asks.
fn asked_code(setup: &Setup, found: &TransferRow, info: &XferInfo, day: Day) -> u16
    requires { IsWithinLimits setup.now }
    ensures { result ≡ first_of (
        refused 2006 (not (same_account info.now.from found.now.from))
        ∷ refused 2009 (not (rules.is_destination setup.now info.now))
        ∷ refused 2012 (not (rules.is_positive info.now))
        ∷ refused 2014 (not (rules.is_after info.now.due day))
        ∷ []) }
{
    if info.from != found.from {
        return SOURCE_NOT_FOUND;
    }
    if !setup.is_destination(info) {
        return DESTINATION_NOT_FOUND;
    }
    if !is_positive(info) {
        return INVALID_AMOUNT;
    }
    if !is_after(info.due, day) {
        return DATE_TOO_SOON;
    }
    DONE
}

/// What a change and a cancellation refuse alike.
#[tactic(auto, unfolding(bank_model::specs::Judging::cancel_code))]
fn state_code(setup: &Setup, user: UserId, only: Option<AcctId>, found: &TransferRow) -> u16
    requires { IsWithinLimits setup.now }
    ensures { result ≡ cancel_code setup.now user only (Some found.now) }
{
    if !setup.is_own(user, only, &found.from) {
        return UNKNOWN_SERVER_ID;
    }
    match found.code {
        XferCode::Waiting => DONE,
        XferCode::Posted | XferCode::NoFunds => ALREADY_COMMITTED,
        XferCode::Cancelled => ALREADY_CANCELED,
    }
}

/// Whether it is due on or before the business day, as it is without a day.
fn is_due(info: &XferInfo, day: Day) -> bool
    ensures { result ≡ rules.is_due info.now day }
{
    match info.due {
        Some(due) => due.0 <= day.0,
        None => true,
    }
}
