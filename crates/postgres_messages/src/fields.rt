//! The fields of a message, each read from the start of bytes. A refusal is how many bytes are left from the start of the field.

ghost use Rattle.std.specs.Prelude.{◌≡◌, ◌<◌, IfSome, length, option_map, position};
ghost use Rattle.postgres_messages.specs.Fields.{u16_in, u32_in, is_zero, text_in, value_in};
ghost use Rattle.postgres_messages.specs.Views.{Gives};

/// A number of two bytes, and what follows it.
#[tactic(auto, unfolding(crate::specs::Fields::u16_in))]
pub(crate) fn get_u16(bytes: &[u8]) -> Result<(u16, &[u8]), usize>
    ensures { Gives (λ found. (found.0, found.1.now)) result (u16_in bytes.now) }
{
    match bytes {
        [a, b, rest @ ..] => Ok((u16::from_be_bytes([*a, *b]), rest)),
        _ => Err(bytes.len()),
    }
}

/// A number of four bytes, and what follows it.
#[tactic(auto, unfolding(crate::specs::Fields::u32_in))]
pub(crate) fn get_u32(bytes: &[u8]) -> Result<(u32, &[u8]), usize>
    ensures { Gives (λ found. (found.0, found.1.now)) result (u32_in bytes.now) }
{
    match bytes {
        [a, b, c, d, rest @ ..] => Ok((u32::from_be_bytes([*a, *b, *c, *d]), rest)),
        _ => Err(bytes.len()),
    }
}

/// A text, and what follows the zero byte that ends it.
#[tactic(auto, unfolding(crate::specs::Fields::text_in))]
pub(crate) fn get_text(bytes: &[u8]) -> Result<(&[u8], &[u8]), usize>
    ensures { Gives (λ found. (found.0.now, found.1.now)) result (text_in bytes.now) }
{
    match zero_in(bytes) {
        Some(end) => Ok((&bytes[..end], &bytes[end + 1..])),
        None => Err(bytes.len()),
    }
}

/// The offset of the first zero byte.
pub(crate) fn zero_in(bytes: &[u8]) -> Option<usize>
    ensures offset { result ≡ position is_zero bytes.now }
    ensures within { IfSome result (λ n. n < length bytes.now) }
{
    bytes.iter().position(|b| *b == 0)
}

/// A value with its size, or the mark that there is none, and what follows.
#[tactic(auto, unfolding(crate::specs::Fields::value_in))]
pub(crate) fn get_value(bytes: &[u8]) -> Result<(Option<&[u8]>, &[u8]), usize>
    ensures { Gives (λ found. (option_map (λ v. v.now) found.0, found.1.now)) result (value_in bytes.now) }
{
    let (size, rest) = get_u32(bytes)?;
    if size == u32::MAX {
        return Ok((None, rest));
    }
    let size = size as usize;
    if rest.len() < size {
        return Err(bytes.len());
    }
    Ok((Some(&rest[..size]), &rest[size..]))
}
