//! Whose a request is, where it was taken.

use http_front::read_request;
use ofx_types::trim;

/// The body of the one request that these bytes are. None where they aren't just one.
pub(crate) fn body_of(bytes: &[u8]) -> Option<&[u8]> {
    let head = read_request(bytes).ok()?;
    let body = &bytes[head.size..];
    if head.length == Some(body.len() as u64) {
        Some(body)
    } else {
        None
    }
}

/// The user's name in a file that was signed on, as the file spells it.
///
/// Such a file has a SONRQ with a USERID. Where only one SONRQ is in it, and one USERID in that, they are these; otherwise
/// the name isn't reported, since a file may have others in parts that nobody reads.
pub(crate) fn user_in(body: &[u8]) -> Option<&[u8]> {
    let signon = before(after_only(body, b"<SONRQ>")?, b"</SONRQ>")?;
    let name = before(after_only(signon, b"<USERID>")?, b"<")?;
    Some(trim(name))
}

/// What follows a tag that occurs once.
fn after_only<'a>(text: &'a [u8], tag: &[u8]) -> Option<&'a [u8]> {
    let rest = suffix(text, tag)?;
    match suffix(rest, tag) {
        None => Some(rest),
        Some(_) => None,
    }
}

/// What follows the first of these tags.
fn suffix<'a>(text: &'a [u8], tag: &[u8]) -> Option<&'a [u8]> {
    for at in 0..text.len() {
        if text[at] == b'<'
            && let Some(rest) = text[at..].strip_prefix(tag)
        {
            return Some(rest);
        }
    }
    None
}

/// What precedes the first occurrence of this text.
fn before<'a>(text: &'a [u8], end: &[u8]) -> Option<&'a [u8]> {
    for at in 0..text.len() {
        if text[at..].starts_with(end) {
            return Some(&text[..at]);
        }
    }
    None
}
