//! What an entry gives to the rows that the bank keeps.

ghost use Rattle.std.specs.Prelude.{◌≡◌};
ghost use Rattle.std.specs.Option.{option_copied};
ghost use Rattle.bank_ledger.specs.Changes.{has_row, has_model, cancels, row_given_by, model_given_by};

use ofx_types::{ModelRow, TransferRow};

/// The row that an entry gives, or that a recurring transfer is cancelled.
#[derive(Drop)]
pub enum RowChange {
    /// A transfer has this row from now on.
    Row(TransferRow),
    /// A recurring transfer made the transfer with this row.
    Made(TransferRow),
    /// A recurring transfer has this row from now on, and begins anew.
    Model(ModelRow),
    /// The recurring transfer with this id is cancelled.
    NoModel(u64),
    /// A mail came in or went out, which changes no row.
    Mail,
}

impl RowChange {
    /// Whether it is a row of the transfer with this id.
    pub(crate) fn has_row(&self, id: u64) -> bool
        ensures { result ≡ has_row id self.now }
    {
        match self {
            RowChange::Row(row) => row.id == id,
            RowChange::Made(row) => row.id == id,
            _ => false,
        }
    }

    /// Whether it is a row of the recurring transfer with this id.
    pub(crate) fn has_model(&self, id: u64) -> bool
        ensures { result ≡ has_model id self.now }
    {
        match self {
            RowChange::Model(row) => row.id == id,
            _ => false,
        }
    }

    /// Whether it cancels the recurring transfer with this id.
    pub(crate) fn cancels(&self, id: u64) -> bool
        ensures { result ≡ cancels id self.now }
    {
        match self {
            RowChange::NoModel(gone) => *gone == id,
            _ => false,
        }
    }

    /// The row of a transfer, lent.
    pub(crate) fn row(&self) -> Option<&TransferRow>
        ensures { option_copied result ≡ row_given_by self.now }
    {
        match self {
            RowChange::Row(row) => Some(row),
            RowChange::Made(row) => Some(row),
            _ => None,
        }
    }

    /// The row of a recurring transfer, lent.
    pub(crate) fn model(&self) -> Option<&ModelRow>
        ensures { option_copied result ≡ model_given_by self.now }
    {
        match self {
            RowChange::Model(row) => Some(row),
            _ => None,
        }
    }
}
