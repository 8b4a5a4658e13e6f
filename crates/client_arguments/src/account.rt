//! Accounts and other texts among the arguments.

ghost use Rattle.std.specs.Prelude.{◌≡◌, ◌↔◌, IsTrue};
ghost use Rattle.std.specs.List.{find};
ghost use Rattle.std.specs.Option.{option_map};
ghost use Rattle.std.specs.Str.{bytes_eq};
ghost use Rattle.ofx_types.specs.AccountForm.{kind_word};
ghost use Rattle.bank_model.specs.Sound.{IsTextWithin};
ghost use Rattle.client_arguments.specs.Arguments.{IsAccount};
ghost use Rattle.client_arguments.specs.Reading.{Reads};

use crate::fault::ArgumentsFault;
use ofx_types::{AcctKind, AcctName, Duplicate, Text};

/// The most bytes of the number of an account.
pub(crate) const MAX_NUMBER: usize = 32;

/// Whether a word has 1 byte up to the limit.
pub(crate) fn is_within(argument: &Text, most: usize) -> bool
    ensures { IsTrue result ↔ IsTextWithin most argument.now }
{
    let length = argument.as_bytes().len();
    0 < length && length <= most
}

/// All kinds of accounts.
const KINDS: [AcctKind; 4] = [
    AcctKind::Checking,
    AcctKind::Savings,
    AcctKind::MoneyMarket,
    AcctKind::CreditLine,
];

/// The first of these kinds whose word this is.
fn kind_among<'k>(argument: &Text, kinds: &'k [AcctKind]) -> Option<&'k AcctKind>
    ensures { option_map (λ kind. kind.now) result ≡ find (λ kind. bytes_eq argument.now (kind_word kind)) kinds.now }
{
    kinds
        .iter()
        .find(|kind| argument.as_bytes() == (**kind).word())
}

/// The kind of account that a word names.
pub(crate) fn kind_of(argument: &Text) -> Result<AcctKind, ArgumentsFault>
    ensures { Reads (λ (kind : AcctKind). argument.now ≡ kind_word kind) result }
{
    match kind_among(argument, &KINDS) {
        Some(kind) => Ok(*kind),
        None => Err(ArgumentsFault::Usage),
    }
}

/// The account of a bank that two words name.
pub(crate) fn account_of(
    bank: &Text,
    number: &Text,
    kind: &Text,
) -> Result<AcctName, ArgumentsFault>
    ensures { Reads (IsAccount bank.now number.now kind.now) result }
{
    if !is_within(number, MAX_NUMBER) {
        return Err(ArgumentsFault::Usage);
    }
    let kind = kind_of(kind)?;
    Ok(AcctName {
        bank: bank.copy()?,
        number: number.copy()?,
        kind,
    })
}
