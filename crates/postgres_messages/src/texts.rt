//! Lists of texts: the ways to sign on, and the fields of a report.

ghost use Rattle.std.specs.Prelude.{◌≡◌, length, option_map};
ghost use Rattle.postgres_messages.specs.Fields.{after_texts, field, has_text};
ghost use Rattle.postgres_messages.specs.Views.{Gives, texts};

use crate::fields::get_text;

/// Texts one after the other, each ended by a zero byte, up to an empty one.
#[derive(Clone, Copy)]
pub struct Texts<'a> {
    pub bytes: &'a [u8],
}

impl<'a> Texts<'a> {
    /// What follows this byte in the first text that it leads: the field of a report.
    #[tactic(auto, unfolding(crate::specs::Fields::texts_of))]
    pub fn field(&self, kind: u8) -> Option<&'a [u8]>
        ensures { option_map (λ text. text.now) result ≡ field kind (texts self.now) }
    {
        let mut rest = self.bytes;
        for _ in 0..self.bytes.len() {
            match get_text(rest) {
                Ok(([first, text @ ..], next)) => {
                    if *first == kind {
                        return Some(text);
                    }
                    rest = next;
                }
                _ => return None,
            }
        }
        None
    }

    /// Whether this is one of the texts. It isn't empty.
    #[tactic(auto, unfolding(crate::specs::Fields::texts_of))]
    pub fn contains(&self, wanted: &[u8]) -> bool
        ensures { result ≡ has_text wanted.now (texts self.now) }
    {
        let mut rest = self.bytes;
        for _ in 0..self.bytes.len() {
            match get_text(rest) {
                Ok((text, next)) if !text.is_empty() => {
                    if text == wanted {
                        return true;
                    }
                    rest = next;
                }
                _ => return false,
            }
        }
        false
    }
}

/// What follows a list of texts.
#[tactic(auto, using(crate::proofs::Loops::skip_goes_on), unfolding(crate::specs::Fields::after_texts))]
pub(crate) fn skip_texts(bytes: &[u8]) -> Result<&[u8], usize>
    ensures { Gives (λ rest. rest.now) result (after_texts (length bytes.now) bytes.now) }
{
    let mut rest = bytes;
    for _ in 0..bytes.len() {
        let (text, next) = get_text(rest)?;
        if text.is_empty() {
            return Ok(next);
        }
        rest = next;
    }
    Err(rest.len())
}
