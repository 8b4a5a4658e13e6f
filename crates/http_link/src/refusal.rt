//! Requests that are refused by their heads.

/// Why a request is refused by its head alone. The connection ends after each.
#[derive(Clone, Copy, PartialEq, Eq)]
pub enum Refusal {
    /// No head comes of the bytes, or one that is too long or has too many fields.
    BadHead,
    /// The method isn't `POST`.
    NotPost,
    /// The path isn't `/ofx`.
    NotFound,
    /// The head says no usable length of the body.
    NoLength,
    /// The body is longer than 262,144 bytes.
    TooLarge,
}
