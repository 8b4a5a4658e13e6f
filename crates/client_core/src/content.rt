//! What a file has to ask for a wish.

use ofx_types::{AcctName, Deed, ObjectName};

/// What one file asks.
#[derive(Drop)]
pub enum Content {
    /// The statement of an account, and all four synchronisations.
    Look(AcctName),
    /// A deed, with the synchronisation of its object.
    Do(ObjectName, Deed),
}
