//! The words of a line, appended to the bytes before them.

ghost use Rattle.std.specs.Prelude.{◌≡◌, ◌<◌, ◌^◌, ◌++◌, length, OnOk};
ghost use Rattle.client_report.specs.Lines as forms;

use client_store::Store;
use ofx_types::{AcctName, ObjectName, OutOfMemory, StatementBody, TrnUid};
use ofx_values::{print_amount, print_number};

#[tactic(auto, unfolding(crate::specs::Lines::account_words))]
fn put_account(account: &AcctName, out: &mut Vec<u8>) -> Result<(), OutOfMemory>
    ensures { OnOk result (out.new.items ≡ out.old.items ++ forms.account_words account.now) }
{
    out.extend_from_slice(account.number.as_bytes())?;
    out.push(b' ')?;
    out.extend_from_slice(account.kind.word())?;
    Ok(())
}

fn put_about(word: &[u8], account: &AcctName, out: &mut Vec<u8>) -> Result<(), OutOfMemory>
    ensures { OnOk result (out.new.items ≡ out.old.items ++ (word.now ++ forms.account_words account.now)) }
{
    out.extend_from_slice(word)?;
    put_account(account, out)
}

#[tactic(auto, unfolding(crate::specs::Lines::object_words))]
fn put_object(object: &ObjectName, out: &mut Vec<u8>) -> Result<(), OutOfMemory>
    ensures { OnOk result (out.new.items ≡ out.old.items ++ forms.object_words object.now) }
{
    match object {
        ObjectName::Intra(account) => put_about(b"intra ", account, out),
        ObjectName::RecIntra(account) => put_about(b"recintra ", account, out),
        ObjectName::BankMail(account) => put_about(b"bankmail ", account, out),
        ObjectName::Mail => {
            out.extend_from_slice(b"mail")?;
            Ok(())
        }
    }
}

fn flag_word(flag: bool) -> &'static [u8]
    ensures { result.now ≡ forms.flag_word flag }
{
    if flag { b"Y" } else { b"N" }
}

fn put_balance_words(
    code: u16,
    body: &Option<StatementBody>,
    out: &mut Vec<u8>,
) -> Result<(), OutOfMemory>
    ensures { OnOk result (out.new.items ≡ out.old.items ++ forms.balance_words code body.now) }
{
    match body {
        Some(body) => print_amount(body.ledger, out),
        None => {
            out.extend_from_slice(b"error ")?;
            print_number(code as u64, out)
        }
    }
}

#[tactic(auto, unfolding(crate::specs::Lines::balance_text))]
pub(crate) fn put_balance(
    account: &AcctName,
    code: u16,
    body: &Option<StatementBody>,
    out: &mut Vec<u8>,
) -> Result<(), OutOfMemory>
    ensures { OnOk result (out.new.items ≡ out.old.items ++ forms.balance_text account.now code body.now) }
{
    out.extend_from_slice(b"balance ")?;
    put_account(account, out)?;
    out.push(b' ')?;
    put_balance_words(code, body, out)
}

#[tactic(auto, unfolding(crate::specs::Lines::done_text))]
pub(crate) fn put_done(trnuid: &TrnUid, code: u16, out: &mut Vec<u8>) -> Result<(), OutOfMemory>
    ensures { OnOk result (out.new.items ≡ out.old.items ++ forms.done_text trnuid.now code) }
{
    out.extend_from_slice(b"done ")?;
    out.extend_from_slice(trnuid.as_bytes())?;
    out.push(b' ')?;
    print_number(code as u64, out)
}

/// How many rows a store has.
fn row_count(store: &Store) -> u64
    ensures { result ≡ length store.now.rows }
{
    store.rows().len() as u64
}

#[tactic(auto, unfolding(crate::specs::Lines::store_text))]
pub(crate) fn put_store(store: &Store, out: &mut Vec<u8>) -> Result<(), OutOfMemory>
    ensures text { OnOk result (out.new.items ≡ out.old.items ++ forms.store_text store.now) }
    ensures few { length store.now.rows < 2 ^ 64 }
{
    let rows = row_count(store);
    put_object(store.object(), out)?;
    out.extend_from_slice(b" token ")?;
    print_number(store.token(), out)?;
    out.extend_from_slice(b" lost ")?;
    out.extend_from_slice(flag_word(store.lost()))?;
    out.extend_from_slice(b" rows ")?;
    print_number(rows, out)
}

#[tactic(auto, unfolding(crate::specs::Lines::newest_text))]
pub(crate) fn put_newest(
    object: &ObjectName,
    token: u64,
    out: &mut Vec<u8>,
) -> Result<(), OutOfMemory>
    ensures { OnOk result (out.new.items ≡ out.old.items ++ forms.newest_text object.now token) }
{
    out.extend_from_slice(b"newest ")?;
    put_object(object, out)?;
    out.push(b' ')?;
    print_number(token, out)
}
