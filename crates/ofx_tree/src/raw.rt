//! What the raw bytes of an element spell: amounts, moments, numbers and ids. None of them has more bytes than a short value.

ghost use Rattle.std.specs.Prelude.{◌≡◌, ◌≤◌, true, false, length, position, IfSome, IfNone};
ghost use Rattle.ofx_types.specs.TextRules.{is_refused_in_text};
ghost use Rattle.ofx_types.specs.AmountReading.{amount_at};
ghost use Rattle.ofx_types.specs.DateReading.{moment_at};
ghost use Rattle.ofx_types.specs.NumberReading.{number_at};
ghost use Rattle.ofx_types.specs.FormWords.{id_of, is_text_within};
ghost use Rattle.ofx_types.specs.ValueForm.{value_of};
ghost use Rattle.ofx_types.specs.ValueReading.{ReadsValue};

use ofx_tape::{SHORT_VALUE, short_value};
use ofx_types::{Cents, Moment, is_white_space};
use ofx_values::{read_amount, read_moment, read_number};

/// The most digits of an id.
const ID_DIGITS: usize = 10;

/// The amount that the value spells.
#[tactic(auto, using(crate::proofs::Short::amounts_are_short))]
pub(crate) fn amount_of_raw(raw: &[u8]) -> Option<Cents>
    ensures { ReadsValue (λ c. c.0) result (amount_at (value_of raw.now)) }
{
    let mut room = [0; SHORT_VALUE];
    let Some(value) = short_value(raw, &mut room) else {
        return None;
    };
    match read_amount(value) {
        Ok(amount) => Some(amount),
        Err(_) => None,
    }
}

/// The moment that the value spells.
#[tactic(auto, using(crate::proofs::Short::moments_are_short))]
pub(crate) fn moment_of_raw(raw: &[u8]) -> Option<Moment>
    ensures { ReadsValue (λ m. m.0) result (moment_at (value_of raw.now)) }
{
    let mut room = [0; SHORT_VALUE];
    let Some(value) = short_value(raw, &mut room) else {
        return None;
    };
    match read_moment(value) {
        Ok(moment) => Some(moment),
        Err(_) => None,
    }
}

/// The number that the value is, of 1 digit up to `most` of them.
#[tactic(auto, using(crate::proofs::Short::numbers_are_short))]
pub(crate) fn number_of_raw(raw: &[u8], most: usize) -> Option<u64>
    requires { most ≤ 10 }
    ensures { result ≡ number_at most (value_of raw.now) }
{
    let mut room = [0; SHORT_VALUE];
    let Some(value) = short_value(raw, &mut room) else {
        return None;
    };
    read_number(value, most)
}

/// The id that the value is, where it is a text of 1 to 64 bytes: 0 where that text is no number of an id's digits.
#[tactic(auto, using(crate::proofs::Short::ids_are_short))]
pub(crate) fn id_of_raw(raw: &[u8]) -> Option<u64>
    ensures text { IfSome result (λ id. is_text_within SHORT_VALUE (value_of raw.now) ≡ true) }
    ensures id { IfSome result (λ id. id ≡ id_of (value_of raw.now)) }
    ensures none { IfNone result (is_text_within SHORT_VALUE (value_of raw.now) ≡ false) }
{
    let mut room = [0; SHORT_VALUE];
    let Some(value) = short_value(raw, &mut room) else {
        return None;
    };
    if !is_text(value) {
        return None;
    }
    Some(read_number(value, ID_DIGITS).unwrap_or(0))
}

/// Whether a short value is a text of 1 byte or more.
#[tactic(auto, using(crate::proofs::Short::short_text))]
fn is_text(value: &[u8]) -> bool
    requires { length value.now ≤ SHORT_VALUE }
    ensures { result ≡ is_text_within SHORT_VALUE value.now }
{
    !value.is_empty() && first_refused(value).is_none()
}

/// The offset of the first control byte other than tab, LF and CR.
fn first_refused(value: &[u8]) -> Option<usize>
    ensures { result ≡ position is_refused_in_text value.now }
{
    value
        .iter()
        .position(|byte| *byte < 0x20 && !is_white_space(*byte))
}
