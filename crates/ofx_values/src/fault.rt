//! What a value is that has no form.

use thiserror::Error;

/// Which value isn't spelled by the bytes.
#[derive(Clone, Copy, Debug, PartialEq, Eq, Error)]
pub enum ValueFault {
    /// The bytes spell no amount.
    #[error("not an amount")]
    Amount,
    /// The bytes spell no date.
    #[error("not a date")]
    Date,
}
