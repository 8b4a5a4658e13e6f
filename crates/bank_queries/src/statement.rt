//! Statements of accounts (OFX 1.6, "Statement Download").

ghost use Rattle.std.specs.Prelude.{◌≡◌, Some, IfOk};
ghost use Rattle.std.specs.Option.{IfSome};
ghost use Rattle.bank_model.specs.SetupLookups.{account_of, own_account};
ghost use Rattle.bank_model.specs.Rules as rules;
ghost use Rattle.bank_accounts.specs.HeldAccounts.{IsHeld};
ghost use Rattle.bank_ledger.specs.DraftView.{drafted};

use bank_ledger::Draft;
use bank_model::codes::{ACCOUNT_NOT_FOUND, DONE};
use ofx_types::{
    AcctId, AcctName, AskReply, Duplicate, Moment, OutOfMemory, Period, StatementBody,
    StatementList, TrnUid,
};
use std::alloc::Global;

/// Midnight of 1 January 1900.
const FIRST_MOMENT: Moment = Moment(-2_208_988_800);

/// The statement of the account of that name, where it is the user's.
///
/// ```rust
/// use bank_accounts::{Account, Held};
/// use bank_ledger::{Draft, Ledger};
/// use bank_model::Setup;
/// use bank_queries::statement_of;
/// use ofx_types::{AcctId, AskReply, Cents, Day, Moment, TrnUid, UserId};
/// use std::hash::RandomState;
///
/// let alloc = rt.alloc();
/// let bytes = b"OFXBANK 1\nBANK 1\nLEAD 5\nWINDOW 3\nENTRIES 99\n\
///     USER alice secret\nACCT 1001 CHECKING 500 alice\n";
/// let setup = Setup::read(alloc, bytes).expect(&rt, "a setup");
/// let keys = RandomState::new(&rt).expect(&rt, "keys");
/// let ledger = Ledger::new(alloc, keys, setup.window);
/// let mut held = Held::new(alloc);
/// let (account, _side) = Account::new(alloc, AcctId(0), Cents(500)).expect(&rt, "room");
/// held.add(account).expect(&rt, "room");
/// let (noon, today) = (Moment(1_706_702_400), Day(19_753));
/// let draft = Draft::new(alloc, &setup, &ledger, &held, UserId(0), noon, today);
/// let uid = TrnUid::new(b"t1").expect(&rt, "a uid");
/// let name = &setup.accounts.items()[0].name;
/// let reply = statement_of(&draft, alloc, &uid, name, None).expect(&rt, "room");
/// let AskReply::Statement(_, 0, Some(body)) = reply else {
///     panic!(rt; "a statement");
/// };
/// assert!(rt; body.ledger == Cents(500) && body.list.is_none());
/// ```
pub fn statement_of(
    draft: &Draft<'_>,
    alloc: Global,
    trnuid: &TrnUid,
    name: &AcctName,
    period: Option<Period>,
) -> Result<AskReply, OutOfMemory>
    requires { IfSome (account_of draft.now.setup name.now) (IsHeld draft.now.held) }
    ensures { IfOk result (λ reply. reply ≡ rules.statement_reply draft.now.setup (drafted draft.now)
        draft.now.at trnuid.now name.now period (own_account draft.now.setup draft.now.user name.now)) }
{
    match draft.setup().own_account(draft.user(), name) {
        Some(account) => {
            let body = body(draft, alloc, name, period, account)?;
            Ok(AskReply::Statement(trnuid.copy()?, DONE, Some(body)))
        }
        None => Ok(AskReply::Statement(trnuid.copy()?, ACCOUNT_NOT_FOUND, None)),
    }
}

/// What a statement shows of an account.
fn body(
    draft: &Draft<'_>,
    alloc: Global,
    name: &AcctName,
    period: Option<Period>,
    account: AcctId,
) -> Result<StatementBody, OutOfMemory>
    requires { IsHeld draft.now.held account }
    ensures { IfOk result (λ body. body ≡ rules.statement draft.now.setup (drafted draft.now) draft.now.at
        name.now period account) }
{
    let balance = draft.held_balance(account);
    Ok(StatementBody {
        account: name.copy()?,
        list: list(draft, alloc, name, period)?,
        ledger: balance,
        available: balance,
        moment: draft.at(),
    })
}

/// The list of a statement, where it is asked for.
fn list(
    draft: &Draft<'_>,
    alloc: Global,
    name: &AcctName,
    period: Option<Period>,
) -> Result<Option<StatementList>, OutOfMemory>
    ensures { IfOk result (λ list. list ≡ rules.asked_list (drafted draft.now) draft.now.at name.now
        period) }
{
    match period {
        Some(period) if period.include => { Ok(Some(list_in(draft, alloc, name, period)?)) }
        _ => Ok(None),
    }
}

/// The transactions of a period.
fn list_in(
    draft: &Draft<'_>,
    alloc: Global,
    name: &AcctName,
    period: Period,
) -> Result<StatementList, OutOfMemory>
    ensures { IfOk result (λ list. list ≡ rules.list_of (drafted draft.now) draft.now.at name.now
        period) }
{
    let start = period.start.unwrap_or(FIRST_MOMENT);
    Ok(StatementList {
        start,
        end: period.end.unwrap_or(draft.at()),
        lines: draft.lines(alloc, name, (start, period.end))?,
    })
}
