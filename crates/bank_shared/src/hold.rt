//! What is done in one hold of the journal, with the accounts that its caller has taken before.

ghost use Rattle.std.specs.Prelude.{◌≡◌, ◌↔◌, Some, Contains, IsTrue, IfOk, IfErr, IfNone};
ghost use Rattle.std.specs.Option.{IfSome};
ghost use Rattle.ofx_types.specs.Calendar.{IsMoment};
ghost use Rattle.ofx_types.specs.declared.number.AcctId.{AcctId};
ghost use Rattle.bank_model.specs.declared.event.State.{State};
ghost use Rattle.bank_model.specs.Rules as rules;
ghost use Rattle.bank_model.specs.Rules.{IsLegal};
ghost use Rattle.bank_accounts.specs.HeldAccounts.{AreHeld, HaveSameNumbers};
ghost use Rattle.bank_accounts.specs.Sides.{AreOf};
ghost use Rattle.bank_turns.specs.Taking.{MayBeTaken};
ghost use Rattle.token_board.specs.Publishing.{Meets};
ghost use Rattle.bank_shared.specs.Advancing.{IsUnadvanced};
ghost use Rattle.bank_shared.specs.Calls.{IsSettled, LeavesPending};
ghost use Rattle.bank_shared.specs.Holds.{IsPassOf, MeetsOrStays, caller_of};
ghost use Rattle.bank_shared.specs.Outcomes.{IsSubmitted, IsRefused, IsLookedFor, IsTried};

use crate::journal::Journal;
use crate::name::BankName;
use crate::outcome::{Looked, Submitted, Tried};
use bank_accounts::Held;
use bank_callers::laws::tokens_are_the_banks;
use bank_model::{Event, Printer, SubmitFault};
use bank_turns::has_all;
use ofx_ports::Keeper;
use ofx_types::{AcctId, Moment, OutOfMemory};
use token_board::{Board, Pass};

impl<N: BankName, K: Keeper, P: Printer> Journal<N, K, P> {
    /// Makes the event of a file happen. What is pending is settled first, where the accounts that it names are held. The accounts
    /// that the file names are.
    ///
    /// - `Keeper(n)`: the keeper's count of faults rose to n in this call, and the log has this fault.
    /// - `OutOfMemory`.
    pub(crate) fn submit(
        &mut self,
        board: &Board,
        held: &mut Held,
        pass: &mut Pass,
        event: &Event,
        at: Moment,
    ) -> Result<Submitted, SubmitFault>
        requires board { board.now ≡ N.board }
        requires pass { IsPassOf N.setup N.opening N.board pass.old }
        requires moment { IsMoment at.0 }
        requires legal { (S : State) → IsLegal N.setup S at event.now }
        requires named { (S : State) → AreHeld held.old (rules.named N.setup S event.now) }
        requires own { AreOf N.tables held.old }
        ensures submitted { IfOk result (IsSubmitted N.tables event.now at (caller_of N.opening pass.old) (caller_of N.opening pass.new)) }
        ensures refused { IfErr result (IsRefused event.now at (caller_of N.opening pass.old) (caller_of N.opening pass.new)) }
        ensures pass { IsPassOf N.setup N.opening N.board pass.new }
        ensures numbers { HaveSameNumbers held.new held.old }
        ensures accounts { AreOf N.tables held.new }
    {
        tokens_are_the_banks();
        let settled = self.settle_held(board, held, pass);
        self.log_holds();
        match settled {
            Err(fault) => Err(fault),
            Ok(Some(numbers)) => Ok(Submitted::Lacks(numbers)),
            Ok(None) => {
                let committed = self.commit(board, held, pass, event, at);
                self.log_holds();
                match committed {
                    Ok(reply) => Ok(Submitted::Answered(reply)),
                    Err(fault) => Err(fault),
                }
            }
        }
    }

    /// Looks for what is due first at a moment. What is pending is settled first, where the accounts that it names are held.
    ///
    /// - `Keeper(n)`: the keeper's count of faults rose to n in this call, and the log has this fault.
    /// - `OutOfMemory`.
    pub(crate) fn look(
        &mut self,
        board: &Board,
        held: &mut Held,
        pass: &mut Pass,
        at: Moment,
    ) -> Result<Looked, SubmitFault>
        requires board { board.now ≡ N.board }
        requires pass { IsPassOf N.setup N.opening N.board pass.old }
        requires moment { IsMoment at.0 }
        requires own { AreOf N.tables held.old }
        ensures looked { IfOk result (IsLookedFor N.setup N.tables at (caller_of N.opening pass.old) (caller_of N.opening pass.new)) }
        ensures refused { IfErr result (IsUnadvanced N.setup at (caller_of N.opening pass.old) (caller_of N.opening pass.new)) }
        ensures pass { IsPassOf N.setup N.opening N.board pass.new }
        ensures numbers { HaveSameNumbers held.new held.old }
        ensures accounts { AreOf N.tables held.new }
    {
        tokens_are_the_banks();
        let settled = self.settle_held(board, held, pass);
        self.log_holds();
        match settled {
            Err(fault) => Err(fault),
            Ok(Some(numbers)) => Ok(Looked::Lacks(numbers)),
            Ok(None) => match self.book().due(at) {
                None => Ok(Looked::Nothing),
                Some(event) => match self.named(&event) {
                    Err(OutOfMemory) => Err(SubmitFault::OutOfMemory),
                    Ok(numbers) => Ok(Looked::Due(event, numbers)),
                },
            },
        }
    }

    /// Makes an event happen that was due, where it is still legal and the accounts that it names are held. What is pending is
    /// settled first, where the accounts that it names are held.
    ///
    /// - `Keeper(n)`: the keeper's count of faults rose to n in this call, and the log has this fault.
    /// - `OutOfMemory`.
    pub(crate) fn commit_due(
        &mut self,
        board: &Board,
        held: &mut Held,
        pass: &mut Pass,
        event: &Event,
        at: Moment,
    ) -> Result<Tried, SubmitFault>
        requires board { board.now ≡ N.board }
        requires pass { IsPassOf N.setup N.opening N.board pass.old }
        requires moment { IsMoment at.0 }
        requires own { AreOf N.tables held.old }
        ensures tried { IfOk result (IsTried N.setup N.tables event.now at (caller_of N.opening pass.old) (caller_of N.opening pass.new)) }
        ensures refused { IfErr result (IsRefused event.now at (caller_of N.opening pass.old) (caller_of N.opening pass.new)) }
        ensures pass { IsPassOf N.setup N.opening N.board pass.new }
        ensures numbers { HaveSameNumbers held.new held.old }
        ensures accounts { AreOf N.tables held.new }
    {
        tokens_are_the_banks();
        let settled = self.settle_held(board, held, pass);
        self.log_holds();
        match settled {
            Err(fault) => Err(fault),
            Ok(Some(numbers)) => Ok(Tried::Lacks(numbers)),
            Ok(None) => {
                if !self.legal(event, at) {
                    return Ok(Tried::Gone);
                }
                match self.unheld(held, event) {
                    Err(OutOfMemory) => Err(SubmitFault::OutOfMemory),
                    Ok(Some(_)) => Ok(Tried::Moved),
                    Ok(None) => {
                        let committed = self.commit(board, held, pass, event, at);
                        self.log_holds();
                        match committed {
                            Ok(_) => Ok(Tried::Done),
                            Err(fault) => Err(fault),
                        }
                    }
                }
            }
        }
    }

    /// Whether the event may happen at that moment. Takes no memory.
    pub fn legal(&self, event: &Event, at: Moment) -> bool
        requires { IsMoment at.0 }
        ensures { IsTrue result ↔ IsLegal self.now.setup self.now.state at event.now }
    {
        self.book().legal(event, at)
    }

    /// Settles what is pending where the accounts that it names are held. Otherwise it answers these, and nothing has happened.
    fn settle_held(
        &mut self,
        board: &Board,
        held: &mut Held,
        pass: &mut Pass,
    ) -> Result<Option<Vec<AcctId>>, SubmitFault>
        requires board { board.now ≡ N.board }
        requires pass { pass.old.table ≡ N.board.table }
        requires own { AreOf N.tables held.old }
        ensures settled { IfOk result (λ lacking. IfNone lacking (IsSettled self.old self.new)) }
        ensures met { IfOk result (λ lacking. IfNone lacking (Meets N.board self.old.log self.new.log pass.old pass.new)) }
        ensures lacks { IfOk result (λ lacking. IfSome lacking (λ numbers. MayBeTaken N.tables numbers.items)) }
        ensures same { IfOk result (λ lacking. IfSome lacking (λ _. pass.new ≡ pass.old)) }
        ensures fails { IfErr result (LeavesPending self.old self.new) }
        ensures pass { MeetsOrStays N.board self.old.log self.new.log pass.old pass.new }
        ensures numbers { HaveSameNumbers held.new held.old }
        ensures accounts { AreOf N.tables held.new }
    {
        self.log_holds();
        match self.lacking(held) {
            Err(OutOfMemory) => Err(SubmitFault::OutOfMemory),
            Ok(Some(numbers)) => Ok(Some(numbers)),
            Ok(None) => match self.settle(board, held, pass) {
                Ok(()) => Ok(None),
                Err(fault) => Err(fault),
            },
        }
    }

    /// The accounts that the pending event names, where they aren't all held. None where nothing is pending, too.
    fn lacking(&self, held: &Held) -> Result<Option<Vec<AcctId>>, OutOfMemory>
        ensures held { IfOk result (λ lacking. IfNone lacking (IfSome self.now.pending
            (λ pending. AreHeld held.now (rules.named self.now.setup self.now.state pending.event)))) }
        ensures may { IfOk result (λ lacking. IfSome lacking (λ numbers. MayBeTaken N.tables numbers.items)) }
    {
        match self.pending() {
            None => Ok(None),
            Some(event) => self.unheld(held, event),
        }
    }

    /// The accounts that an event names, where they aren't all held.
    fn unheld(&self, held: &Held, event: &Event) -> Result<Option<Vec<AcctId>>, OutOfMemory>
        ensures held { IfOk result (λ unheld. IfNone unheld (AreHeld held.now (rules.named self.now.setup self.now.state event.now))) }
        ensures may { IfOk result (λ unheld. IfSome unheld (λ numbers. MayBeTaken N.tables numbers.items)) }
    {
        let numbers = self.named(event)?;
        if has_all(held, &numbers) {
            Ok(None)
        } else {
            Ok(Some(numbers))
        }
    }

    /// The accounts that an event names, in rising order and each once.
    fn named(&self, event: &Event) -> Result<Vec<AcctId>, OutOfMemory>
        ensures may { IfOk result (λ numbers. MayBeTaken N.tables numbers.items) }
        ensures all { IfOk result (λ numbers. (account : AcctId) → Contains numbers.items account
            ↔ Contains (rules.named self.now.setup self.now.state event.now) (Some account)) }
    {
        let numbers = self.book().named(self.alloc, event)?;
        Ok(numbers)
    }
}
