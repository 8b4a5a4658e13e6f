//! A client's name.

ghost use Rattle.std.specs.Prelude.{◌≡◌, ◌≤◌, length, IfOk, MatchBool};
ghost use Rattle.std.specs.List.{list_all};
ghost use Rattle.std.specs.Char.{is_ascii_alphanumeric};
ghost use Rattle.record_fields.specs.Answers.{ReadsField};
ghost use Rattle.client_saved.specs.Bounds.{IsName};
ghost use Rattle.client_saved.specs.Reading.{name_at};

use ofx_types::Text;
use record_fields::{RecordFault, get_filled_text};
use std::alloc::Global;

/// The most bytes of a name.
const MAX_BYTES: usize = 12;

/// Whether a text may be a client's name: 1 to 12 letters and digits of ASCII.
pub fn is_name(text: &Text) -> bool
    ensures { MatchBool result (IsName text.now) (IsName text.now → ⊥) }
{
    let bytes = text.as_bytes();
    !bytes.is_empty() && bytes.len() <= MAX_BYTES && is_alphanumeric(bytes)
}

fn is_alphanumeric(bytes: &[u8]) -> bool
    ensures { result ≡ list_all is_ascii_alphanumeric bytes.now }
{
    bytes.iter().all(|byte| byte.is_ascii_alphanumeric())
}

/// The name at `at`.
#[tactic(auto, unfolding(crate::specs::Reading::name_at))]
pub(crate) fn get_name(alloc: Global, text: &[u8], at: usize) -> Result<(Text, usize), RecordFault>
    requires { at ≤ length text.now }
    ensures gives { ReadsField result (name_at text.now at) }
    ensures within { IfOk result (λ found. found.1 ≤ length text.now) }
{
    let (name, next) = get_filled_text(alloc, text, at, 12)?;
    if !is_alphanumeric(name.as_bytes()) {
        return Err(RecordFault::Bad(at as u64));
    }
    Ok((name, next))
}
