//! The start of a reply, and whether its connection ends after it (RFC 9112, section 9.3).

use httparse::{EMPTY_HEADER, Header, Response, Status};

/// The most bytes of a head.
const MAX_BYTES: usize = 8192;

/// The most fields of a head.
const MAX_FIELDS: usize = 64;

/// The first bytes of a reply, up to 8,192.
#[derive(Drop)]
pub(crate) struct ReplyHead {
    bytes: [u8; MAX_BYTES],
    size: usize,
}

impl ReplyHead {
    /// Nothing has come.
    pub(crate) fn new() -> ReplyHead {
        ReplyHead {
            bytes: [0; MAX_BYTES],
            size: 0,
        }
    }

    /// Whether nothing has come.
    pub(crate) fn is_empty(&self) -> bool {
        self.size == 0
    }

    /// These bytes come.
    pub(crate) fn take(&mut self, more: &[u8]) {
        for byte in more {
            if let Some(place) = self.bytes.get_mut(self.size) {
                *place = *byte;
                self.size = self.size.saturating_add(1);
            }
        }
    }

    /// Whether a head has come that says that its connection ends after the reply: a `Connection` field has `close`, or the
    /// reply is of HTTP/1.0 and none has `keep-alive`.
    pub(crate) fn is_last(&self) -> bool {
        match self.bytes.get(..self.size) {
            Some(bytes) => says_last(bytes),
            None => false,
        }
    }
}

fn says_last(bytes: &[u8]) -> bool {
    let mut fields = [EMPTY_HEADER; MAX_FIELDS];
    let mut head = Response::new(&mut fields);
    match head.parse(bytes) {
        Ok(Status::Complete(_)) => {
            let is_old = head.version == Some(0);
            let fields = &*head.headers;
            has_option(fields, b"close") || (is_old && !has_option(fields, b"keep-alive"))
        }
        _ => false,
    }
}

/// Whether a `Connection` field has this option.
fn has_option(fields: &[Header<'_>], option: &[u8]) -> bool {
    fields.iter().any(|field| field.name.eq_ignore_ascii_case("Connection")
        && is_among(field.value, option))
}

/// Whether an option is among those of a value, which are parted by commas.
fn is_among(value: &[u8], option: &[u8]) -> bool {
    value
        .split(|byte| *byte == b',')
        .any(|word| word.trim_ascii().eq_ignore_ascii_case(option))
}
