//! How a bank answers files: with the accounts that they name, which are taken before the journal's lock.

ghost use Rattle.std.specs.Prelude.{◌≡◌, ◌<◌, false, List, Option, Some, length, IfOk, IfErr};
ghost use Rattle.ofx_types.specs.Calendar.{IsMoment};
ghost use Rattle.ofx_types.specs.declared.number.AcctId.{AcctId};
ghost use Rattle.ofx_types.specs.declared.number.UserId.{UserId};
ghost use Rattle.bank_model.specs.declared.event.Event.TheVariants as events;
ghost use Rattle.bank_model.specs.declared.event.State.{State};
ghost use Rattle.bank_model.specs.Polls as polls;
ghost use Rattle.bank_model.specs.Rules as rules;
ghost use Rattle.bank_model.specs.Rules.{IsLegal};
ghost use Rattle.bank_model.specs.Sound.{IsSound};
ghost use Rattle.bank_turns.specs.Taking.{MayBeTaken, AreListed};
ghost use Rattle.bank_callers.specs.Callers.{IsRightView, IsCommitted, IsUncommitted};
ghost use Rattle.bank_shared.specs.Holds.{IsPassOf, caller_of};
ghost use Rattle.bank_shared.specs.Outcomes.{Commits, IsSubmitted, IsRefused};

use crate::bank::Bank;
use crate::name::BankName;
use crate::outcome::Submitted;
use bank_model::{Event, Printer, SubmitFault};
use bank_turns::{give_all, merged, take_all};
use ofx_ports::{Gate, Keeper};
use ofx_types::{AcctId, Duplicate, Moment, OutOfMemory, RequestFile, UserId};
use std::sync::Wait;
use token_board::Pass;

impl<N: BankName, K: Keeper, P: Printer> Bank<N, K, P> {
    /// Answers a file of a user, which is sound and no poll. It takes the accounts that the file names, in the order of their
    /// numbers, each as soon as it is home. Then it passes the gate with the user's number and waits for the journal. All accounts
    /// are given back whatever comes of it.
    ///
    /// What the pass has seen then ends with the file's ending, which is its own: the answer with this reply, or a fault of the
    /// keeper. Other callers' endings may come before it. Each token of at least 1 that the pass had loaded is the number of an
    /// entry of its object there. What it knows is right: in the state after it no user's TRNUID is used twice, and the balances
    /// add up to the opening ones.
    ///
    /// - `Keeper(n)`: the keeper's count of faults rose to n in this call, and the log has this fault.
    /// - `OutOfMemory`: the pass owns nothing new.
    pub fn submit<R: Wait, G: Gate>(
        &self,
        rt: &R,
        pass: &mut Pass,
        user: UserId,
        file: &RequestFile,
        at: Moment,
        gate: &G,
    ) -> Result<Vec<u8>, SubmitFault>
        requires pass { IsPassOf N.setup N.opening N.board pass.old }
        requires moment { IsMoment at.0 }
        requires known { user.0 < length N.setup.users }
        requires sound { IsSound file.now }
        requires event { polls.is_poll file.now ≡ false }
        ensures answered { IfOk result (λ reply. IsCommitted user file.now at reply.items
            (Some (caller_of N.opening pass.old)) (Some (caller_of N.opening pass.new))) }
        ensures refused { IfErr result (IsUncommitted user file.now at
            (Some (caller_of N.opening pass.old)) (Some (caller_of N.opening pass.new))) }
        ensures pass { IsPassOf N.setup N.opening N.board pass.new }
        ensures right { IsRightView N.setup (caller_of N.opening pass.new) }
    {
        let answered = self.submit_file(rt, pass, user, file, at, gate);
        self.known(pass);
        answered
    }

    /// Answers a file by its event.
    fn submit_file<R: Wait, G: Gate>(
        &self,
        rt: &R,
        pass: &mut Pass,
        user: UserId,
        file: &RequestFile,
        at: Moment,
        gate: &G,
    ) -> Result<Vec<u8>, SubmitFault>
        requires pass { IsPassOf N.setup N.opening N.board pass.old }
        requires moment { IsMoment at.0 }
        requires known { user.0 < length N.setup.users }
        requires sound { IsSound file.now }
        requires event { polls.is_poll file.now ≡ false }
        ensures answered { IfOk result (λ reply. IsCommitted user file.now at reply.items
            (Some (caller_of N.opening pass.old)) (Some (caller_of N.opening pass.new))) }
        ensures refused { IfErr result (IsUncommitted user file.now at
            (Some (caller_of N.opening pass.old)) (Some (caller_of N.opening pass.new))) }
        ensures pass { IsPassOf N.setup N.opening N.board pass.new }
    {
        let Ok(own) = file.copy() else {
            return Err(SubmitFault::OutOfMemory);
        };
        let Ok(numbers) = self.numbers_in(file) else {
            return Err(SubmitFault::OutOfMemory);
        };
        let event = Event::File(user, own);
        self.submit_until_held(rt, pass, &event, numbers, user, at, gate)
    }

    /// Makes a file's event happen, with the accounts of these numbers, which are those that it names, and, where others are wanted
    /// for what is pending, with those too.
    fn submit_until_held<R: Wait, G: Gate>(
        &self,
        rt: &R,
        pass: &mut Pass,
        event: &Event,
        numbers: Vec<AcctId>,
        user: UserId,
        at: Moment,
        gate: &G,
    ) -> Result<Vec<u8>, SubmitFault>
        requires pass { IsPassOf N.setup N.opening N.board pass.old }
        requires moment { IsMoment at.0 }
        requires legal { (S : State) → IsLegal N.setup S at event.now }
        requires may { MayBeTaken N.tables numbers.items }
        requires listed { (S : State) → AreListed numbers.items (rules.named N.setup S event.now) }
        ensures answered { IfOk result (λ reply. Commits event.now at reply.items (caller_of N.opening pass.old) (caller_of N.opening pass.new)) }
        ensures refused { IfErr result (IsRefused event.now at (caller_of N.opening pass.old) (caller_of N.opening pass.new)) }
        ensures pass { IsPassOf N.setup N.opening N.board pass.new }
    {
        let mut numbers = numbers;
        for _ in rt.forever() {
            match self.submit_held(rt, pass, &numbers, event, user, at, gate) {
                Err(fault) => return Err(fault),
                Ok(Submitted::Answered(reply)) => return Ok(reply),
                Ok(Submitted::Lacks(more)) => match self.numbers_of_both(&numbers, &more) {
                    Err(OutOfMemory) => return Err(SubmitFault::OutOfMemory),
                    Ok(all) => numbers = all,
                },
            }
        }
        unreachable!()
    }

    /// Takes the accounts of these numbers, passes the gate, makes a file's event happen where nothing is pending that names other
    /// accounts, and gives all accounts back.
    fn submit_held<R: Wait, G: Gate>(
        &self,
        rt: &R,
        pass: &mut Pass,
        numbers: &[AcctId],
        event: &Event,
        user: UserId,
        at: Moment,
        gate: &G,
    ) -> Result<Submitted, SubmitFault>
        requires pass { IsPassOf N.setup N.opening N.board pass.old }
        requires moment { IsMoment at.0 }
        requires legal { (S : State) → IsLegal N.setup S at event.now }
        requires may { MayBeTaken N.tables numbers.now }
        requires listed { (S : State) → AreListed numbers.now (rules.named N.setup S event.now) }
        ensures submitted { IfOk result (IsSubmitted N.tables event.now at (caller_of N.opening pass.old) (caller_of N.opening pass.new)) }
        ensures refused { IfErr result (IsRefused event.now at (caller_of N.opening pass.old) (caller_of N.opening pass.new)) }
        ensures pass { IsPassOf N.setup N.opening N.board pass.new }
    {
        match take_all(&self.row, rt, self.alloc, numbers) {
            Err(OutOfMemory) => Err(SubmitFault::OutOfMemory),
            Ok((mut held, turns)) => {
                gate.pass(u64::from(user.0));
                let submitted = self
                    .journal
                    .lock(rt)
                    .submit(&self.board, &mut held, pass, event, at);
                give_all(&self.row, held, turns);
                submitted
            }
        }
    }

    /// The numbers of the accounts that a file names.
    fn numbers_in(&self, file: &RequestFile) -> Result<Vec<AcctId>, OutOfMemory>
        ensures may { IfOk result (λ numbers. MayBeTaken N.tables numbers.items) }
        ensures listed { IfOk result (λ numbers. (user : UserId) (S : State)
            → AreListed numbers.items (rules.named N.setup S (events.File user file.now))) }
    {
        let numbers = self.setup.named_by_file(self.alloc, file)?;
        Ok(numbers)
    }

    /// The numbers of both lists, in rising order.
    pub(crate) fn numbers_of_both(
        &self,
        numbers: &[AcctId],
        more: &[AcctId],
    ) -> Result<Vec<AcctId>, OutOfMemory>
        requires may { MayBeTaken N.tables numbers.now }
        requires more { MayBeTaken N.tables more.now }
        ensures may { IfOk result (λ all. MayBeTaken N.tables all.items) }
        ensures listed { IfOk result (λ all. (named : List (Option AcctId)) → AreListed numbers.now named → AreListed all.items named) }
    {
        let count = self.setup.accounts.items().len();
        let all = merged(self.alloc, count as u32, numbers, more)?;
        Ok(all)
    }
}
