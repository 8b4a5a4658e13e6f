//! The accounts that an event names.

ghost use Rattle.std.specs.Prelude.{◌≡◌, ◌<◌, ◌↔◌, length, map, Some, IfOk, All, Contains};
ghost use Rattle.std.specs.List.Sorted.{IsStrictlyIncreasing};
ghost use Rattle.ofx_types.specs.declared.number.AcctId.{AcctId};
ghost use Rattle.bank_model.specs.Rules as rules;

use crate::book::Book;
use bank_model::{Event, Printer};
use ofx_types::{AcctId, OutOfMemory};
use std::alloc::Global;

impl<P: Printer> Book<P> {
    /// The accounts of the bank that the event names, in rising order and each once: those that must be held while it is
    /// answered.
    pub fn named(&self, alloc: Global, event: &Event) -> Result<Vec<AcctId>, OutOfMemory>
        ensures rising { IfOk result (λ accounts. IsStrictlyIncreasing (map (λ account. account.0) accounts.items)) }
        ensures named { IfOk result (λ accounts. (account : AcctId) → Contains accounts.items account
            ↔ Contains (rules.named self.now.setup self.now.state event.now) (Some account)) }
        ensures known { IfOk result (λ accounts. All (λ account. account.0 < length self.now.tables) accounts.items) }
    {
        match event {
            Event::File(_, file) => self.setup.named_by_file(alloc, file),
            Event::Post(id) => self.setup.named_by_row(alloc, self.ledger.row(*id)),
            Event::Spawn(_, _) | Event::Letter(_, _, _) => Ok(Vec::new(alloc)),
        }
    }
}
