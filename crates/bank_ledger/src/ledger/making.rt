//! Whether a recurring transfer may make a transfer of its series.

ghost use Rattle.std.specs.Prelude.{◌≡◌, ◌&&◌, ◌==◌, is_some};
ghost use Rattle.bank_model.specs.Models.{next_occurrence};
ghost use Rattle.bank_model.specs.Due.{date_to_make};

use crate::ledger::Ledger;
use ofx_types::Day;

impl Ledger {
    /// Whether the next transfer of the recurring transfer with this id has this occurrence number in its series, and a date by a
    /// last day.
    pub fn makes(&self, id: u64, occurrence: u32, last: Day) -> bool
        ensures { result ≡ (is_some (date_to_make last id self.now.state.entries)
            && (occurrence == next_occurrence id self.now.state.entries)) }
    {
        match self.models.get(id) {
            Some(_) => self.models.date_to_make(id, last).is_some()
                && occurrence == self.models.next_k(id),
            None => false,
        }
    }
}
