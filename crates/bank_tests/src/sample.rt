//! The bank of these tests: two users, two accounts, and what the users ask for around 31 January 2024.

ghost use Rattle.std.specs.Prelude.{◌≡◌};
ghost use Rattle.bank_model.specs.SetupForm.{IsWithinLimits};

use bank_model::Setup;
use ofx_types::{
    AcctKind, AcctName, Cents, Day, Freq, MailRow, MailText, ModelRow, Moment, Recur, Text, UserId,
    XferInfo,
};
use std::alloc::Global;
use std::process::Abort;

pub const ALICE: UserId = UserId(0);

pub const BOB: UserId = UserId(1);

pub const YESTERDAY: Day = Day(19_752);

/// 31 January 2024.
pub const TODAY: Day = Day(19_753);

pub const TOMORROW: Day = Day(19_754);

/// Alice has the account 1001, Alice and Bob have the account 1002.
const SETUP: &[u8] = b"\
    OFXBANK 1\n\
    BANK 121099999\n\
    LEAD 5\n\
    WINDOW 3\n\
    ENTRIES 9999999999\n\
    USER alice secret\n\
    USER bob hunter\n\
    ACCT 1001 CHECKING 10000 alice\n\
    ACCT 1002 SAVINGS 5000 alice bob\n";

/// The bank's setup.
pub fn bank(rt: &impl Abort, alloc: Global) -> Setup
    ensures { IsWithinLimits result }
{
    Setup::read(alloc, SETUP).expect(rt, "the setup")
}

/// The name of an account of the bank, or of a checking account that it hasn't.
pub fn account(rt: &impl Abort, alloc: Global, number: &str) -> AcctName {
    let kind = match number {
        "1002" => AcctKind::Savings,
        _ => AcctKind::Checking,
    };
    AcctName {
        bank: text(rt, alloc, b"121099999", 32),
        number: text(rt, alloc, number.as_bytes(), 32),
        kind,
    }
}

/// A text of at most so many bytes.
pub fn text(rt: &impl Abort, alloc: Global, bytes: &[u8], most: u32) -> Text {
    Text::new(alloc, bytes, most).expect(rt, "a text")
}

/// A recurring transfer of 1.00 from 1001 to 1002.
pub fn model_row(
    rt: &impl Abort,
    alloc: Global,
    id: u64,
    freq: Freq,
    count: Option<u32>,
    first: Day,
) -> ModelRow
    ensures { result.first ≡ first }
{
    ModelRow {
        id,
        recur: Recur { count, freq },
        from: account(rt, alloc, "1001"),
        to: account(rt, alloc, "1002"),
        amount: Cents(100),
        first,
    }
}

/// What is asked of a transfer.
pub fn info(
    rt: &impl Abort,
    alloc: Global,
    from: &str,
    to: &str,
    cents: i64,
    due: Option<Day>,
) -> XferInfo {
    XferInfo {
        from: account(rt, alloc, from),
        to: account(rt, alloc, to),
        amount: Cents(cents),
        due,
    }
}

/// What a mail of Alice says.
pub fn mail(rt: &impl Abort, alloc: Global, target: &[u8], subject: &[u8]) -> MailText {
    MailText {
        created: Moment(0),
        sender: text(rt, alloc, b"alice", 32),
        target: text(rt, alloc, target, 32),
        subject: text(rt, alloc, subject, 64),
        body: text(rt, alloc, b"Hi", 10_000),
    }
}

/// A mail of Alice to the bank.
pub fn mail_row(rt: &impl Abort, alloc: Global, subject: &[u8]) -> MailRow {
    MailRow {
        about: None,
        user: text(rt, alloc, b"alice", 32),
        mail: mail(rt, alloc, b"BANK", subject),
    }
}
