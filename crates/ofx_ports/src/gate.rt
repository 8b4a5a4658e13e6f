//! Where a call stops on its way, so that a test can hold it there.

/// Stands between taking the accounts and the lock of the journal.
pub trait Gate {
    /// Lets a call through: that of a user, by the user's number, or 2^32 for what the bank does by itself.
    fn pass(&self, call: u64);
}

/// The gate of a bank that serves: it does nothing.
#[derive(Clone, Copy, Debug)]
pub struct OpenGate;

impl Gate for OpenGate {
    fn pass(&self, _call: u64) {}
}
