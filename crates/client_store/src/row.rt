//! One row of an object.

ghost use Rattle.std.specs.Prelude.{◌≡◌};
ghost use Rattle.bank_model.specs.Stores as model;
ghost use Rattle.client_store.specs.RowForm as form;
ghost use Rattle.client_store.specs.RowForm.{seen};

use ofx_types::{Duplicate, Family, MailRow, ModelRow, OutOfMemory, TransferRow};

/// What a client keeps of one thing that an object's history made.
#[derive(Drop)]
pub enum Row {
    /// A transfer.
    Transfer(TransferRow),
    /// A recurring transfer.
    Model(ModelRow),
    /// A mail.
    Mail(MailRow),
}

impl Duplicate for Row {
    fn copy(&self) -> Result<Row, OutOfMemory> {
        match self {
            Row::Transfer(row) => Ok(Row::Transfer(row.copy()?)),
            Row::Model(row) => Ok(Row::Model(row.copy()?)),
            Row::Mail(row) => Ok(Row::Mail(row.copy()?)),
        }
    }
}

impl Row {
    /// The id of a transfer or of a recurring transfer (SRVRTID, RECSRVRTID). A mail has none.
    pub fn id(&self) -> Option<u64>
        ensures { result ≡ model.id_of (seen self.now) }
    {
        match self {
            Row::Transfer(row) => Some(row.id),
            Row::Model(row) => Some(row.id),
            Row::Mail(_) => None,
        }
    }

    /// Whether the row may be in an object of the family: transfers, recurring transfers or mails alone.
    pub fn is_of(&self, family: Family) -> bool
        ensures { result ≡ form.is_of family (seen self.now) }
    {
        match (self, family) {
            (Row::Transfer(_), Family::Intra) => true,
            (Row::Model(_), Family::RecIntra) => true,
            (Row::Mail(_), Family::BankMail) => true,
            (Row::Mail(_), Family::Mail) => true,
            _ => false,
        }
    }

    /// Whether the row may come after another in an object of the family: it is of the family, and its id, where both have
    /// one, is above the id of the row before it, if there is one.
    pub fn may_follow(&self, family: Family, before: Option<u64>) -> bool
        ensures { result ≡ form.may_follow family (form.bound_after 0 before) (seen self.now) }
    {
        self.is_of(family) && self.is_above(before)
    }

    /// Whether its id is above another, where there are both.
    fn is_above(&self, before: Option<u64>) -> bool
        ensures { result ≡ form.is_from (form.bound_after 0 before) (model.id_of (seen self.now)) }
    {
        match (self.id(), before) {
            (Some(own), Some(other)) => other < own,
            _ => true,
        }
    }

    /// The recurring transfer that made it, where it is a transfer of that id, and 0 otherwise.
    pub(crate) fn model_if_named(&self, id: u64) -> u64
        ensures { result ≡ model.model_if_named id 0 (seen self.now) }
    {
        match self {
            Row::Transfer(row) => { if row.id == id { row.model } else { 0 } }
            _ => 0,
        }
    }

    /// Whether it comes before the index of that id. A mail comes before any.
    pub(crate) fn is_below(&self, id: u64) -> bool
        ensures { result ≡ model.is_below id (seen self.now) }
    {
        match self.id() {
            Some(own) => own < id,
            None => true,
        }
    }

    /// Whether it has that id.
    pub(crate) fn has_id(&self, id: u64) -> bool
        ensures { result ≡ model.has_id id (seen self.now) }
    {
        match self.id() {
            Some(own) => own == id,
            None => false,
        }
    }
}
