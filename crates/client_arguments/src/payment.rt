//! Transfers among the arguments.

ghost use Rattle.std.specs.Prelude.{◌≡◌, IfOk};
ghost use Rattle.std.specs.List.{find};
ghost use Rattle.std.specs.Option.{option_map};
ghost use Rattle.std.specs.Str.{bytes_eq};
ghost use Rattle.ofx_types.specs.RecurringForm.{freq_word};
ghost use Rattle.client_arguments.specs.Arguments as forms;
ghost use Rattle.client_arguments.specs.Reading.{Reads};

use crate::account::account_of;
use crate::day::{day_word, last_day};
use crate::fault::ArgumentsFault;
use crate::number::count_of;
use ofx_types::{Cents, Day, Freq, Recur, Text, XferInfo};
use ofx_values::read_amount;

/// The amount that a word says.
pub(crate) fn amount_of(argument: &Text) -> Result<Cents, ArgumentsFault>
    ensures { Reads (forms.IsAmountWord argument.now) result }
{
    match read_amount(argument.as_bytes()) {
        Ok(amount) => Ok(amount),
        Err(_) => Err(ArgumentsFault::Usage),
    }
}

/// All frequencies.
const FREQS: [Freq; 9] = [
    Freq::Weekly,
    Freq::Biweekly,
    Freq::TwiceMonthly,
    Freq::Monthly,
    Freq::FourWeeks,
    Freq::Bimonthly,
    Freq::Quarterly,
    Freq::Semiannually,
    Freq::Annually,
];

/// The first of these frequencies whose word this is.
fn freq_among<'f>(argument: &Text, freqs: &'f [Freq]) -> Option<&'f Freq>
    ensures { option_map (λ freq. freq.now) result ≡ find (λ freq. bytes_eq argument.now (freq_word freq)) freqs.now }
{
    freqs
        .iter()
        .find(|freq| argument.as_bytes() == (**freq).word())
}

/// How often something recurs, as a word says.
pub(crate) fn freq_of(argument: &Text) -> Result<Freq, ArgumentsFault>
    ensures { Reads (λ (freq : Freq). argument.now ≡ freq_word freq) result }
{
    match freq_among(argument, &FREQS) {
        Some(freq) => Ok(*freq),
        None => Err(ArgumentsFault::Usage),
    }
}

/// Source, destination and amount of a transfer, and the day on which it is due.
fn payment(
    bank: &Text,
    number: &Text,
    kind: &Text,
    other_number: &Text,
    other_kind: &Text,
    amount: &Text,
    due: Option<Day>,
) -> Result<XferInfo, ArgumentsFault>
    ensures payment { Reads (forms.IsPayment bank.now number.now kind.now other_number.now other_kind.now amount.now) result }
    ensures due { IfOk result (λ info. info.due ≡ due) }
{
    let from = account_of(bank, number, kind)?;
    let to = account_of(bank, other_number, other_kind)?;
    let amount = amount_of(amount)?;
    Ok(XferInfo {
        from,
        to,
        amount,
        due,
    })
}

/// The transfer that the arguments after `transfer` say.
pub(crate) fn transfer_of(bank: &Text, arguments: &[Text]) -> Result<XferInfo, ArgumentsFault>
    ensures { Reads (forms.IsTransfer bank.now arguments.now) result }
{
    match arguments {
        [number, kind, other_number, other_kind, amount, more @ ..] => {
            let due = last_day(more)?;
            payment(bank, number, kind, other_number, other_kind, amount, due)
        }
        _ => Err(ArgumentsFault::Usage),
    }
}

/// The recurring transfer that the arguments after `repeat` say.
pub(crate) fn repeat_of(
    bank: &Text,
    arguments: &[Text],
) -> Result<(Recur, XferInfo), ArgumentsFault>
    ensures { Reads (λ (found : Recur × XferInfo). forms.IsRepeat bank.now arguments.now found.0 found.1) result }
{
    match arguments {
        [
            number,
            kind,
            other_number,
            other_kind,
            amount,
            day,
            freq,
            count,
        ] => {
            let first = day_word(day)?;
            let recur = recur_of(freq, count)?;
            let info = payment(
                bank,
                number,
                kind,
                other_number,
                other_kind,
                amount,
                Some(first),
            )?;
            Ok((recur, info))
        }
        _ => Err(ArgumentsFault::Usage),
    }
}

/// How a series recurs, as two words say.
fn recur_of(freq: &Text, count: &Text) -> Result<Recur, ArgumentsFault>
    ensures { Reads (forms.IsRecur freq.now count.now) result }
{
    let freq = freq_of(freq)?;
    let count = count_of(count)?;
    Ok(Recur { count, freq })
}
