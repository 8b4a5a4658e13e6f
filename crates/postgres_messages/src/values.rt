//! The values of a row.

ghost use Rattle.std.specs.Prelude.{◌≡◌, ◌∷◌, option_map};
ghost use Rattle.postgres_messages.specs.Fields.{after_values};
ghost use Rattle.postgres_messages.specs.Views.{Gives, values, some_unless_empty};

use crate::fields::get_value;

/// So many values one after the other.
#[derive(Clone, Copy)]
pub struct Values<'a> {
    pub count: u16,
    pub bytes: &'a [u8],
}

impl<'a> Values<'a> {
    /// The first value, and those after it. A value may be absent.
    #[tactic(auto, unfolding(crate::specs::Fields::values_of))]
    pub fn split_first(&self) -> Option<(Option<&'a [u8]>, Values<'a>)>
        ensures { option_map (λ found. option_map (λ v. v.now) found.0 ∷ values found.1) result ≡ some_unless_empty (values self.now) }
    {
        if self.count == 0 {
            return None;
        }
        match get_value(self.bytes) {
            Ok((value, rest)) => Some((
                value,
                Values {
                    count: self.count - 1,
                    bytes: rest,
                },
            )),
            Err(_) => None,
        }
    }
}

/// What follows so many values.
#[tactic(auto, using(crate::proofs::Loops::values_go_on), unfolding(crate::specs::Fields::after_values))]
pub(crate) fn skip_values(count: u16, bytes: &[u8]) -> Result<&[u8], usize>
    ensures { Gives (λ rest. rest.now) result (after_values count bytes.now) }
{
    let mut rest = bytes;
    for _ in 0..count {
        let (_, next) = get_value(rest)?;
        rest = next;
    }
    Ok(rest)
}
