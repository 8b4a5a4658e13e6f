//! Each kind of line of a setup, read from its bytes.

ghost use Rattle.std.specs.Prelude.{◌∷◌, ◌≡◌, ◌<◌, ◌≤◌, ◌≤ℤ◌, pos, length, IfOk, IfSome, if◌then◌else◌};
ghost use Rattle.std.specs.Option.{option_map};
ghost use Rattle.std.specs.Str.Lines.{strip_carriage_return};
ghost use Rattle.bank_model.specs.SetupReading.{owner_more, line_at, bank_at, limit_at, user_at, kind_at, user_named, owners_at, account_at};

use crate::directory::Directory;
use crate::setup::words::{cut_at, is_word, number, number_in, suffix, word_text};
use crate::setup::{AccountLine, Owners, User, Users};
use ofx_types::{AcctKind, AcctName, Cents, Duplicate, OutOfMemory, Text, UserId};
use std::alloc::Global;

/// The line without a CR at its end.
fn without_cr(line: &[u8]) -> &[u8]
    ensures { result.now ≡ strip_carriage_return line.now }
{
    if line.is_empty() {
        return line;
    }
    let last = line.len() - 1;
    if line[last] == b'\r' {
        return &line[..last];
    }
    line
}

/// The first line without its end, and the bytes after it. None where no LF ends a line.
#[tactic(auto, unfolding(crate::specs::SetupReading::line_at))]
pub(super) fn first_line(bytes: &[u8]) -> Option<(&[u8], &[u8])>
    ensures exact { option_map (λ parts. (parts.0.now, parts.1.now)) result ≡ line_at bytes.now }
    ensures less { IfSome result (λ parts. length parts.1.now < length bytes.now) }
{
    let (line, rest) = cut_at(bytes, b'\n')?;
    Some((without_cr(line), rest))
}

/// The bank of a line `BANK bank`.
#[tactic(auto, unfolding(crate::specs::SetupReading::bank_at))]
pub(super) fn bank_of(alloc: Global, line: &[u8]) -> Result<Option<Text>, OutOfMemory>
    ensures { IfOk result (λ bank. bank ≡ bank_at line.now) }
{
    let Some(bank) = suffix(line, b"BANK") else {
        return Ok(None);
    };
    if !is_word(bank) {
        return Ok(None);
    }
    Ok(Some(word_text(alloc, bank)?))
}

/// The number of a line `KEY number`, from the lowest to the highest.
#[tactic(auto, unfolding(crate::specs::SetupReading::limit_at))]
pub(super) fn limit_of(line: &[u8], key: &[u8], lowest: u64, highest: u64) -> Option<u64>
    ensures exact { result ≡ limit_at key.now lowest highest line.now }
    ensures high { IfSome result (λ n. n ≤ highest) }
{
    let word = suffix(line, key)?;
    number_in(word, lowest, highest)
}

/// The user of `name password`.
#[tactic(auto, unfolding(crate::specs::SetupReading::user_at))]
pub(super) fn user_of(alloc: Global, fields: &[u8]) -> Result<Option<User>, OutOfMemory>
    ensures { IfOk result (λ user. user ≡ user_at fields.now) }
{
    let Some((name, pass)) = cut_at(fields, b' ') else {
        return Ok(None);
    };
    if !is_word(name) {
        return Ok(None);
    }
    if !is_word(pass) {
        return Ok(None);
    }
    let name = word_text(alloc, name)?;
    let pass = word_text(alloc, pass)?;
    Ok(Some(User { name, pass }))
}

fn kind_of(word: &[u8]) -> Option<AcctKind>
    ensures { result ≡ kind_at word.now }
{
    if word == b"CHECKING".as_slice() {
        return Some(AcctKind::Checking);
    }
    if word == b"SAVINGS".as_slice() {
        return Some(AcctKind::Savings);
    }
    if word == b"MONEYMRKT".as_slice() {
        return Some(AcctKind::MoneyMarket);
    }
    if word == b"CREDITLINE".as_slice() {
        return Some(AcctKind::CreditLine);
    }
    None
}

/// The number of the user of that name. There are at most 1,000 users.
fn user_of_name(alloc: Global, users: &Users, name: &[u8]) -> Result<Option<UserId>, OutOfMemory>
    requires { length users.now ≤ 1000 }
    ensures { IfOk result (λ user. user ≡ user_named users.now name.now) }
{
    if !is_word(name) {
        return Ok(None);
    }
    let name = word_text(alloc, name)?;
    match users.find(&name) {
        Some(index) => Ok(Some(UserId(index as u32))),
        None => Ok(None),
    }
}

/// Adds the user of that name. False where there is none, or where the owners have the user already.
fn add_owner(
    alloc: Global,
    users: &Users,
    owners: &mut Owners,
    name: &[u8],
) -> Result<bool, OutOfMemory>
    requires { length users.now ≤ 1000 }
    ensures { IfOk result (λ added. owner_more users.now owners.old name.now ≡ (if added then Some owners.new else None)) }
{
    match user_of_name(alloc, users, name)? {
        Some(owner) => owners.add(owner),
        None => Ok(false),
    }
}

/// The owners whose names are listed, one space between each two.
fn owners_of(alloc: Global, users: &Users, names: &[u8]) -> Result<Option<Owners>, OutOfMemory>
    requires { length users.now ≤ 1000 }
    ensures { IfOk result (λ owners. owners ≡ owners_at users.now names.now) }
{
    let mut owners = Directory::new(alloc);
    let mut rest = names;
    while let Some((name, others)) = cut_at(rest, b' ') {
        if !add_owner(alloc, users, &mut owners, name)? {
            return Ok(None);
        }
        rest = others;
    }
    if !add_owner(alloc, users, &mut owners, rest)? {
        return Ok(None);
    }
    Ok(Some(owners))
}

/// The account of `number kind opening owners`, at that bank.
#[tactic(auto, unfolding(crate::specs::SetupReading::account_at))]
pub(super) fn account_of(
    alloc: Global,
    bank: &Text,
    users: &Users,
    fields: &[u8],
) -> Result<Option<AccountLine>, OutOfMemory>
    requires { length users.now ≤ 1000 }
    ensures exact { IfOk result (λ account. account ≡ account_at bank.now users.now fields.now) }
    ensures opened { IfOk result (λ account. IfSome account (λ line. pos 0 ≤ℤ line.opening.0)) }
{
    let Some((number_word, fields)) = cut_at(fields, b' ') else {
        return Ok(None);
    };
    let Some((kind_word, fields)) = cut_at(fields, b' ') else {
        return Ok(None);
    };
    let Some((opening_word, names)) = cut_at(fields, b' ') else {
        return Ok(None);
    };
    if !is_word(number_word) {
        return Ok(None);
    }
    let Some(kind) = kind_of(kind_word) else {
        return Ok(None);
    };
    let Some(opening) = number(opening_word) else {
        return Ok(None);
    };
    let Some(owners) = owners_of(alloc, users, names)? else {
        return Ok(None);
    };
    let number = word_text(alloc, number_word)?;
    let bank = bank.copy()?;
    Ok(Some(AccountLine {
        name: AcctName { bank, number, kind },
        opening: Cents(opening as i64),
        owners,
    }))
}
