//! How a bank makes happen what is due: it looks in one hold of the journal, takes the accounts that the event names, and makes it
//! happen in another hold.

ghost use Rattle.std.specs.Prelude.{◌≡◌, IfOk, IfErr, MatchOption};
ghost use Rattle.ofx_types.specs.Calendar.{IsMoment};
ghost use Rattle.bank_turns.specs.Taking.{MayBeTaken};
ghost use Rattle.bank_callers.specs.Callers.{IsRightView};
ghost use Rattle.bank_shared.specs.Advancing.{IsAdvanced, IsUnadvanced, HasNothing};
ghost use Rattle.bank_shared.specs.Holds.{IsPassOf, caller_of};
ghost use Rattle.bank_shared.specs.Outcomes.{IsLookedFor, IsTried, IsRefused, HasFound, SeesAny};

use crate::advance::Advance;
use crate::bank::Bank;
use crate::name::BankName;
use crate::outcome::{Looked, Tried};
use bank_model::{Event, Printer, SubmitFault};
use bank_turns::{give_all, take_all};
use ofx_ports::{Gate, Keeper};
use ofx_types::{AcctId, Moment, OutOfMemory};
use std::sync::Wait;
use token_board::Pass;

/// The call of a gate for what the bank does by itself.
const ADVANCE: u64 = 1 << 32;

impl<N: BankName, K: Keeper, P: Printer> Bank<N, K, P> {
    /// Makes what is due first at a moment happen. It looks in one hold of the journal, takes the accounts that the event names, passes
    /// the gate with 2^32, and makes the event happen in a second hold. Where another event has come between and changed which
    /// accounts it names, it looks again.
    ///
    /// - `Keeper(n)`: the keeper's count of faults rose to n in this call, and the log has this fault.
    /// - `OutOfMemory`: the pass owns nothing new.
    pub fn advance<R: Wait, G: Gate>(
        &self,
        rt: &R,
        pass: &mut Pass,
        at: Moment,
        gate: &G,
    ) -> Result<Advance, SubmitFault>
        requires pass { IsPassOf N.setup N.opening N.board pass.old }
        requires moment { IsMoment at.0 }
        ensures advanced { IfOk result (IsAdvanced N.setup at (caller_of N.opening pass.old) (caller_of N.opening pass.new)) }
        ensures refused { IfErr result (IsUnadvanced N.setup at (caller_of N.opening pass.old) (caller_of N.opening pass.new)) }
        ensures pass { IsPassOf N.setup N.opening N.board pass.new }
        ensures right { IsRightView N.setup (caller_of N.opening pass.new) }
    {
        let advanced = self.advance_until_sure(rt, pass, at, gate);
        self.known(pass);
        advanced
    }

    /// Looks, and makes happen what was due at the last look.
    fn advance_until_sure<R: Wait, G: Gate>(
        &self,
        rt: &R,
        pass: &mut Pass,
        at: Moment,
        gate: &G,
    ) -> Result<Advance, SubmitFault>
        requires pass { IsPassOf N.setup N.opening N.board pass.old }
        requires moment { IsMoment at.0 }
        ensures advanced { IfOk result (IsAdvanced N.setup at (caller_of N.opening pass.old) (caller_of N.opening pass.new)) }
        ensures refused { IfErr result (IsUnadvanced N.setup at (caller_of N.opening pass.old) (caller_of N.opening pass.new)) }
        ensures pass { IsPassOf N.setup N.opening N.board pass.new }
    {
        for _ in rt.forever() {
            match self.advance_once(rt, pass, at, gate) {
                Err(fault) => return Err(fault),
                Ok(Some(advance)) => return Ok(advance),
                Ok(None) => {}
            }
        }
        unreachable!()
    }

    /// Looks once, and makes happen what was due. None where it names other accounts by then.
    fn advance_once<R: Wait, G: Gate>(
        &self,
        rt: &R,
        pass: &mut Pass,
        at: Moment,
        gate: &G,
    ) -> Result<Option<Advance>, SubmitFault>
        requires pass { IsPassOf N.setup N.opening N.board pass.old }
        requires moment { IsMoment at.0 }
        ensures advanced { IfOk result (λ advanced. MatchOption advanced (SeesAny (caller_of N.opening pass.old) (caller_of N.opening pass.new))
            (IsAdvanced N.setup at (caller_of N.opening pass.old) (caller_of N.opening pass.new))) }
        ensures refused { IfErr result (IsUnadvanced N.setup at (caller_of N.opening pass.old) (caller_of N.opening pass.new)) }
        ensures pass { IsPassOf N.setup N.opening N.board pass.new }
    {
        match self.look(rt, pass, at) {
            Err(fault) => Err(fault),
            Ok(None) => Ok(Some(Advance::Nothing)),
            Ok(Some((event, numbers))) => {
                match self.commit_until_held(rt, pass, &event, numbers, at, gate) {
                    Err(fault) => Err(fault),
                    Ok(Tried::Done) => Ok(Some(Advance::Done(event))),
                    Ok(Tried::Gone) => Ok(Some(Advance::Gone(event))),
                    Ok(Tried::Moved) => Ok(None),
                    Ok(Tried::Lacks(_)) => Ok(None),
                }
            }
        }
    }

    /// What is due first at a moment, and the numbers of the accounts that it names. What is pending is settled first, with the
    /// accounts that it names.
    fn look<R: Wait>(
        &self,
        rt: &R,
        pass: &mut Pass,
        at: Moment,
    ) -> Result<Option<(Event, Vec<AcctId>)>, SubmitFault>
        requires pass { IsPassOf N.setup N.opening N.board pass.old }
        requires moment { IsMoment at.0 }
        ensures found { IfOk result (λ found. MatchOption found (HasNothing N.setup at (caller_of N.opening pass.old) (caller_of N.opening pass.new))
            (λ due. HasFound N.setup at due.0 (caller_of N.opening pass.old) (caller_of N.opening pass.new) × MayBeTaken N.tables due.1.items)) }
        ensures refused { IfErr result (IsUnadvanced N.setup at (caller_of N.opening pass.old) (caller_of N.opening pass.new)) }
        ensures pass { IsPassOf N.setup N.opening N.board pass.new }
    {
        let mut numbers = Vec::new(self.alloc);
        for _ in rt.forever() {
            match self.look_held(rt, pass, &numbers, at) {
                Err(fault) => return Err(fault),
                Ok(Looked::Nothing) => return Ok(None),
                Ok(Looked::Due(event, named)) => return Ok(Some((event, named))),
                Ok(Looked::Lacks(wanted)) => numbers = wanted,
            }
        }
        unreachable!()
    }

    /// Takes the accounts of these numbers, looks for due work where nothing is pending that names other accounts, and gives all
    /// accounts back.
    fn look_held<R: Wait>(
        &self,
        rt: &R,
        pass: &mut Pass,
        numbers: &[AcctId],
        at: Moment,
    ) -> Result<Looked, SubmitFault>
        requires pass { IsPassOf N.setup N.opening N.board pass.old }
        requires moment { IsMoment at.0 }
        requires may { MayBeTaken N.tables numbers.now }
        ensures looked { IfOk result (IsLookedFor N.setup N.tables at (caller_of N.opening pass.old) (caller_of N.opening pass.new)) }
        ensures refused { IfErr result (IsUnadvanced N.setup at (caller_of N.opening pass.old) (caller_of N.opening pass.new)) }
        ensures pass { IsPassOf N.setup N.opening N.board pass.new }
    {
        match take_all(&self.row, rt, self.alloc, numbers) {
            Err(OutOfMemory) => Err(SubmitFault::OutOfMemory),
            Ok((mut held, turns)) => {
                let looked = self.journal.lock(rt).look(&self.board, &mut held, pass, at);
                give_all(&self.row, held, turns);
                looked
            }
        }
    }

    /// Makes an event happen that was due, with the accounts of these numbers and, where others are wanted for what is pending, with
    /// those too.
    fn commit_until_held<R: Wait, G: Gate>(
        &self,
        rt: &R,
        pass: &mut Pass,
        event: &Event,
        numbers: Vec<AcctId>,
        at: Moment,
        gate: &G,
    ) -> Result<Tried, SubmitFault>
        requires pass { IsPassOf N.setup N.opening N.board pass.old }
        requires moment { IsMoment at.0 }
        requires may { MayBeTaken N.tables numbers.items }
        ensures tried { IfOk result (IsTried N.setup N.tables event.now at (caller_of N.opening pass.old) (caller_of N.opening pass.new)) }
        ensures refused { IfErr result (IsRefused event.now at (caller_of N.opening pass.old) (caller_of N.opening pass.new)) }
        ensures pass { IsPassOf N.setup N.opening N.board pass.new }
    {
        let mut numbers = numbers;
        for _ in rt.forever() {
            match self.commit_held(rt, pass, event, &numbers, at, gate) {
                Err(fault) => return Err(fault),
                Ok(Tried::Lacks(more)) => match self.numbers_of_both(&numbers, &more) {
                    Err(OutOfMemory) => return Err(SubmitFault::OutOfMemory),
                    Ok(all) => numbers = all,
                },
                Ok(tried) => return Ok(tried),
            }
        }
        unreachable!()
    }

    /// Takes the accounts of these numbers, passes the gate, makes an event happen that was due where nothing is pending that names
    /// other accounts, and gives all accounts back.
    fn commit_held<R: Wait, G: Gate>(
        &self,
        rt: &R,
        pass: &mut Pass,
        event: &Event,
        numbers: &[AcctId],
        at: Moment,
        gate: &G,
    ) -> Result<Tried, SubmitFault>
        requires pass { IsPassOf N.setup N.opening N.board pass.old }
        requires moment { IsMoment at.0 }
        requires may { MayBeTaken N.tables numbers.now }
        ensures tried { IfOk result (IsTried N.setup N.tables event.now at (caller_of N.opening pass.old) (caller_of N.opening pass.new)) }
        ensures refused { IfErr result (IsRefused event.now at (caller_of N.opening pass.old) (caller_of N.opening pass.new)) }
        ensures pass { IsPassOf N.setup N.opening N.board pass.new }
    {
        match take_all(&self.row, rt, self.alloc, numbers) {
            Err(OutOfMemory) => Err(SubmitFault::OutOfMemory),
            Ok((mut held, turns)) => {
                gate.pass(ADVANCE);
                let tried = self
                    .journal
                    .lock(rt)
                    .commit_due(&self.board, &mut held, pass, event, at);
                give_all(&self.row, held, turns);
                tried
            }
        }
    }
}
