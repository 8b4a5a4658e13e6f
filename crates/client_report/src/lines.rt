//! The lines, each as a text.

ghost use Rattle.std.specs.Prelude.{◌≡◌, IfOk};
ghost use Rattle.std.specs.Fmt.{decimal};
ghost use Rattle.ofx_types.specs.TextRules.{trimmed};
ghost use Rattle.client_report.specs.Lines.{balance_text, done_text, newest_text, store_text};

use crate::words::{put_balance, put_done, put_newest, put_store};
use client_store::Store;
use ofx_types::{AcctName, ObjectName, OutOfMemory, StatementBody, Text, TrnUid};
use ofx_values::print_number;
use std::alloc::Global;

/// The text of these bytes, which begin and end with a byte that isn't white space, and have no control byte.
fn text_of(alloc: Global, bytes: &[u8]) -> Result<Text, OutOfMemory>
    requires { trimmed bytes.now ≡ bytes.now }
    ensures { IfOk result (λ line. line ≡ bytes.now) }
{
    match Text::new(alloc, bytes, u32::MAX) {
        Ok(line) => Ok(line),
        Err(_) => Err(OutOfMemory),
    }
}

/// The digits of a number, without leading zeros.
pub fn number_text(alloc: Global, number: u64) -> Result<Text, OutOfMemory>
    ensures { IfOk result (λ text. text ≡ decimal number) }
{
    let mut digits = Vec::new(alloc);
    print_number(number, &mut digits)?;
    text_of(alloc, &digits)
}

/// The line of a statement: `balance NUMBER KIND AMOUNT` with the ledger balance, or `balance NUMBER KIND error CODE` where
/// there is none.
pub fn balance_line(
    alloc: Global,
    account: &AcctName,
    code: u16,
    body: &Option<StatementBody>,
) -> Result<Text, OutOfMemory>
    ensures { IfOk result (λ line. line ≡ balance_text account.now code body.now) }
{
    let mut line = Vec::new(alloc);
    put_balance(account, code, body, &mut line)?;
    text_of(alloc, &line)
}

/// The line of a deed that was asked for: `done TRNUID CODE`.
///
/// ```rust
/// use client_report::done_line;
/// use ofx_types::TrnUid;
///
/// let uid = TrnUid::new(b"c1-1").expect(&rt, "a uid");
/// let line = done_line(rt.alloc(), &uid, 0).expect(&rt, "room");
/// assert!(rt; line.as_bytes() == b"done c1-1 0".as_slice());
/// ```
pub fn done_line(alloc: Global, trnuid: &TrnUid, code: u16) -> Result<Text, OutOfMemory>
    ensures { IfOk result (λ line. line ≡ done_text trnuid.now code) }
{
    let mut line = Vec::new(alloc);
    put_done(trnuid, code, &mut line)?;
    text_of(alloc, &line)
}

/// The line of a store: `OBJ token T lost N rows R`.
pub fn store_line(alloc: Global, store: &Store) -> Result<Text, OutOfMemory>
    ensures { IfOk result (λ line. line ≡ store_text store.now) }
{
    let mut line = Vec::new(alloc);
    put_store(store, &mut line)?;
    text_of(alloc, &line)
}

/// The line of the newest token of an object: `newest OBJ T`.
pub fn newest_line(alloc: Global, object: &ObjectName, token: u64) -> Result<Text, OutOfMemory>
    ensures { IfOk result (λ line. line ≡ newest_text object.now token) }
{
    let mut line = Vec::new(alloc);
    put_newest(object, token, &mut line)?;
    text_of(alloc, &line)
}
