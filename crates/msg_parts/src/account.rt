//! The accounts of requests and replies (BANKACCTFROM, BANKACCTTO), read and written.

ghost use Rattle.std.specs.Prelude.{◌≡◌, ◌++◌, OnOk, codes};
ghost use Rattle.std.specs.Io.{StartsWith};
ghost use Rattle.ofx_types.specs.AccountForm.{kind_word};
ghost use Rattle.ofx_types.specs.FormWords.{ReadsForm};
ghost use Rattle.ofx_types.specs.RequestReading as reading;
ghost use Rattle.ofx_types.specs.MailReading.{account_in};
ghost use Rattle.ofx_types.specs.CommonText.{account_from};
ghost use Rattle.ofx_types.specs.TransferText.{account_to};
ghost use Rattle.ofx_types.specs.Sheet.{element, aggregate};
ghost use Rattle.msg_parts.specs.PartSteps as steps;

use ofx_tree::{Cursor, Sheet};
use ofx_types::{AcctKind, AcctName, OutOfMemory, TreeFault};
use std::alloc::Global;

/// The most bytes of a bank's id and of an account's number.
const MAX_BYTES: u32 = 32;

/// The account that a message is about (BANKACCTFROM), which occurs once in it.
///
/// The first fault of its form, with its offset; `OutOfMemory` where memory for its texts is refused.
///
/// ```rust
/// use msg_parts::{print_account, read_account_in};
/// use ofx_tape::Tape;
/// use ofx_tree::{Cursor, Sheet};
/// use ofx_types::AcctKind;
///
/// let alloc = rt.alloc();
/// let body = b"<OFX><BANKACCTFROM><BANKID>1<ACCTID>1001<ACCTTYPE>CHECKING</BANKACCTFROM></OFX>";
/// let tape = Tape::read(alloc, body).expect(&rt, "a tape");
/// let account = read_account_in(alloc, &Cursor::root(&tape)).expect(&rt, "an account");
/// assert!(rt; account.kind == AcctKind::Checking);
/// assert!(rt; account.number.as_bytes() == b"1001".as_slice());
/// let mut sheet = Sheet::new(alloc);
/// print_account(&account, &mut sheet).expect(&rt, "room");
/// assert!(rt;
///     sheet
///         .into_bytes()
///         .starts_with(b"<BANKACCTFROM>\r\n<BANKID>1\r\n<ACCTID>1001\r\n")
/// );
/// ```
#[tactic(auto, unfolding(ofx_types::specs::MailReading::account_in))]
pub fn read_account_in(alloc: Global, message: &Cursor<'_>) -> Result<AcctName, TreeFault>
    ensures { ReadsForm result (account_in message.now) }
{
    let bankacctfrom = message.one(b"BANKACCTFROM")?;
    read_account(alloc, &bankacctfrom)
}

/// The account that an aggregate names: BANKID and ACCTID, each a text of at most 32 bytes, and ACCTTYPE.
///
/// The first fault of its form, with its offset; `OutOfMemory` where memory for its texts is refused.
#[tactic(auto, unfolding(ofx_types::specs::RequestReading::account_of))]
pub fn read_account(alloc: Global, aggregate: &Cursor<'_>) -> Result<AcctName, TreeFault>
    ensures { ReadsForm result (reading.account_of aggregate.now) }
{
    let bank = aggregate.text(alloc, b"BANKID", MAX_BYTES)?;
    let number = aggregate.text(alloc, b"ACCTID", MAX_BYTES)?;
    let kind = kind_at(&aggregate.one(b"ACCTTYPE")?)?;
    Ok(AcctName { bank, number, kind })
}

/// The kind that an element says.
fn kind_at(child: &Cursor<'_>) -> Result<AcctKind, TreeFault>
    ensures { result ≡ reading.kind_at child.now.node }
{
    if child.value_eq(b"CHECKING") {
        return Ok(AcctKind::Checking);
    }
    if child.value_eq(b"SAVINGS") {
        return Ok(AcctKind::Savings);
    }
    if child.value_eq(b"MONEYMRKT") {
        return Ok(AcctKind::MoneyMarket);
    }
    if child.value_eq(b"CREDITLINE") {
        return Ok(AcctKind::CreditLine);
    }
    Err(TreeFault::Value(child.offset() as u64))
}

/// Writes the account that a message is about, or from which a transfer takes its amount (BANKACCTFROM).
#[tactic(auto, unfolding(ofx_types::specs::CommonText::account_from))]
pub fn print_account(account: &AcctName, sheet: &mut Sheet) -> Result<(), OutOfMemory>
    ensures ok { OnOk result (sheet.new ≡ sheet.old ++ account_from account.now) }
    ensures kept { StartsWith sheet.new sheet.old }
{
    print_account_as(b"BANKACCTFROM", account, sheet)
}

/// Writes the account to which a transfer brings its amount (BANKACCTTO).
#[tactic(auto, unfolding(ofx_types::specs::TransferText::account_to))]
pub fn print_destination(account: &AcctName, sheet: &mut Sheet) -> Result<(), OutOfMemory>
    ensures ok { OnOk result (sheet.new ≡ sheet.old ++ account_to account.now) }
    ensures kept { StartsWith sheet.new sheet.old }
{
    print_account_as(b"BANKACCTTO", account, sheet)
}

#[tactic(auto, using(crate::proofs::Joined::joined))]
fn print_account_as(name: &[u8], account: &AcctName, sheet: &mut Sheet) -> Result<(), OutOfMemory>
    ensures ok { OnOk result (sheet.new ≡ sheet.old ++ aggregate name.now (steps.account_parts account.now)) }
    ensures kept { StartsWith sheet.new sheet.old }
{
    sheet.start(name)?;
    sheet.text(b"BANKID", &account.bank)?;
    sheet.text(b"ACCTID", &account.number)?;
    print_kind(account.kind, sheet)?;
    sheet.end(name)
}

fn print_kind(kind: AcctKind, sheet: &mut Sheet) -> Result<(), OutOfMemory>
    ensures ok { OnOk result (sheet.new ≡ sheet.old ++ element (codes "ACCTTYPE") (kind_word kind)) }
    ensures kept { StartsWith sheet.new sheet.old }
{
    sheet.element(b"ACCTTYPE", kind.word())
}
