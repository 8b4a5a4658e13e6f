//! What heads tell, and why there is none.

/// What a request's head says.
#[derive(Clone, Copy, PartialEq, Eq)]
pub struct Head {
    /// The method is `POST`, byte for byte.
    pub method_is_post: bool,
    /// The request target is `/ofx`, byte for byte.
    pub path_is_ofx: bool,
    /// The body's number of bytes, where the head states it in a form that is taken.
    pub length: Option<u64>,
    /// The connection ends after this request: it is HTTP/1.0, or a Connection field says `close`.
    pub last: bool,
    /// The head's number of bytes. The body comes after them.
    pub size: usize,
}

/// What a reply's head says.
#[derive(Clone, Copy, PartialEq, Eq)]
pub struct ReplyHead {
    /// The status code, below 1,000.
    pub code: u16,
    /// The body's number of bytes, where the head states it in a form that is taken.
    pub length: Option<u64>,
    /// The head's number of bytes. The body comes after them.
    pub size: usize,
}

/// Why the bytes begin with no head that is taken.
#[derive(Clone, Copy, PartialEq, Eq)]
pub enum HeadFault {
    /// More bytes are awaited.
    NotYet,
    /// No head comes of these bytes, or one that is too long or has too many fields.
    Bad,
}

/// The most bytes of a head.
pub(crate) const MAX_BYTES: usize = 8192;

/// The most fields of a head.
pub(crate) const MAX_FIELDS: usize = 64;

/// More fields than fewer than 8,192 bytes can have: each has a byte of its name, a colon and a line feed at least.
pub(crate) const FIELDS_IN_ALL: usize = 2730;
