//! The command `mail`: a letter to a user of a bank that opens from its records.

ghost use Rattle.std.specs.Prelude.{◌≡◌, ◌≢◌, ◌≤◌, ℕ, true, false, List, Option, Some, Err};
ghost use Rattle.bank_model.specs.SetupLookups.{user_of};
ghost use Rattle.bank_model.specs.Sound.{IsTextWithin};
ghost use Rattle.bank_session.specs.PortsView.{ports_view};
ghost use Rattle.bank_session.specs.Letters.{CanWrite};
ghost use Rattle.bank_session.specs.MailEnd.{LetterEnds, MailEnds};
ghost use Rattle.bank_session.specs.Run.{EndsSo};

use crate::addressee::addressee;
use crate::body::read_body;
use crate::letters::letter;
use crate::opening::open_desk;
use crate::ports::Ports;
use crate::undone::stop_of;
use bank_desk::Desk;
use bank_opening::{Stop, read_setup};
use ofx_ports::{Clock, Failed, Keeper, Sink, Source, write_whole};
use ofx_types::{Text, UserId};
use std::alloc::Global;
use std::hash::RandomState;

/// Reads the setup, opens the bank from its records, reads the body, writes the letter to the user of that name with that
/// subject, and reports the number of its entry.
pub fn send_letter<A: Source, B: Source, W: Sink, K: Keeper, C: Clock>(
    alloc: Global,
    keys: RandomState,
    name: &Text,
    subject: &Text,
    setup: &mut A,
    input: &mut B,
    out: &mut W,
    keeper: &mut K,
    clock: &mut C,
) -> Result<(), Stop>
    requires subject { IsTextWithin 64 subject.now }
    requires settled { K.unsettled keeper.old ≡ false }
    ensures ends { EndsSo (MailEnds name.now subject.now)
        (⟦<(A, B, W, K, C) as Ports>⟧.seen (setup.old, input.old, out.old, keeper.old, clock.old))
        (⟦<(A, B, W, K, C) as Ports>⟧.seen (setup.new, input.new, out.new, keeper.new, clock.new)) result }
    ensures settled { result ≢ Err Stop.KeeperFailed → K.unsettled keeper.new ≡ false }
    ensures later { K.faults keeper.old ≤ K.faults keeper.new }
{
    let setup = read_setup(alloc, setup)?;
    let mut desk = open_desk(alloc, keys, setup, keeper)?;
    send_at(alloc, &mut desk, name, subject, input, out, keeper, clock)
}

/// The same at a desk: reads the body, and writes the letter.
fn send_at<B: Source, W: Sink, K: Keeper, C: Clock>(
    alloc: Global,
    desk: &mut Desk,
    name: &Text,
    subject: &Text,
    input: &mut B,
    out: &mut W,
    keeper: &mut K,
    clock: &mut C,
) -> Result<(), Stop>
    requires subject { IsTextWithin 64 subject.now }
    requires settled { K.unsettled keeper.old ≡ false }
    // Whatever is left of the source of the setup:
    ensures ends { (setup_left setup_left' : Option (List ℕ)) (setup_faults setup_faults' : ℕ) → MailEnds name.now subject.now desk.old.setup desk.old.state
        (ports_view setup_left setup_faults (B.left input.old) (B.faults input.old) (W.held out.old) (W.faults out.old) (K.records keeper.old) (K.faults keeper.old) (C.shown clock.old) (K.unsettled keeper.old))
        (ports_view setup_left' setup_faults' (B.left input.new) (B.faults input.new) (W.held out.new) (W.faults out.new) (K.records keeper.new) (K.faults keeper.new) (C.shown clock.new) (K.unsettled keeper.new)) result }
    ensures settled { result ≢ Err Stop.KeeperFailed → K.unsettled keeper.new ≡ false }
    ensures unsettled { result ≡ Err Stop.KeeperFailed → K.unsettled keeper.new ≡ true }
    ensures later { K.faults keeper.old ≤ K.faults keeper.new }
{
    let body = read_body(alloc, input)?;
    write_letter(alloc, desk, name, subject, body, out, keeper, clock)
}

/// Writes the letter with that body, if there is a user of that name and a number left.
fn write_letter<W: Sink, K: Keeper, C: Clock>(
    alloc: Global,
    desk: &mut Desk,
    name: &Text,
    subject: &Text,
    body: Text,
    out: &mut W,
    keeper: &mut K,
    clock: &mut C,
) -> Result<(), Stop>
    requires subject { IsTextWithin 64 subject.now }
    requires body { IsTextWithin 10000 body }
    requires settled { K.unsettled keeper.old ≡ false }
    // Whatever is left of the input and of the source of the setup:
    ensures ends { (setup_left setup_left' left left' : Option (List ℕ)) (setup_faults setup_faults' faults faults' : ℕ) → LetterEnds desk.old name.now subject.now body
        (ports_view setup_left setup_faults left faults (W.held out.old) (W.faults out.old) (K.records keeper.old) (K.faults keeper.old) (C.shown clock.old) (K.unsettled keeper.old))
        (ports_view setup_left' setup_faults' left' faults' (W.held out.new) (W.faults out.new) (K.records keeper.new) (K.faults keeper.new) (C.shown clock.new) (K.unsettled keeper.new)) result }
    ensures settled { result ≢ Err Stop.KeeperFailed → K.unsettled keeper.new ≡ false }
    ensures unsettled { result ≡ Err Stop.KeeperFailed → K.unsettled keeper.new ≡ true }
    ensures later { K.faults keeper.old ≤ K.faults keeper.new }
{
    match addressee(desk, name) {
        Ok(to) => write_to(alloc, desk, to, subject, body, out, keeper, clock),
        Err(fault) => Err(Stop::Letter(fault)),
    }
}

/// Writes the letter to a user, as the entry of that number, at the moment that the clock shows, and then its line.
fn write_to<W: Sink, K: Keeper, C: Clock>(
    alloc: Global,
    desk: &mut Desk,
    to: (UserId, u64),
    subject: &Text,
    body: Text,
    out: &mut W,
    keeper: &mut K,
    clock: &mut C,
) -> Result<(), Stop>
    requires to { CanWrite desk.old to subject.now body }
    requires settled { K.unsettled keeper.old ≡ false }
    ensures ends { (setup_left setup_left' left left' : Option (List ℕ)) (setup_faults setup_faults' faults faults' : ℕ) (name : List ℕ) → user_of desk.old.setup name ≡ Some to.0 → LetterEnds desk.old name subject.now body
        (ports_view setup_left setup_faults left faults (W.held out.old) (W.faults out.old) (K.records keeper.old) (K.faults keeper.old) (C.shown clock.old) (K.unsettled keeper.old))
        (ports_view setup_left' setup_faults' left' faults' (W.held out.new) (W.faults out.new) (K.records keeper.new) (K.faults keeper.new) (C.shown clock.new) (K.unsettled keeper.new)) result }
    ensures settled { result ≢ Err Stop.KeeperFailed → K.unsettled keeper.new ≡ false }
    ensures unsettled { result ≡ Err Stop.KeeperFailed → K.unsettled keeper.new ≡ true }
    ensures later { K.faults keeper.old ≤ K.faults keeper.new }
{
    let moment = clock.now();
    let line = match letter(alloc, desk, keeper, moment, to, subject, body) {
        Ok(line) => line,
        Err(undone) => return Err(stop_of(undone)),
    };
    match write_whole(out, &line) {
        Ok(()) => Ok(()),
        Err(Failed) => Err(Stop::WriteFailed),
    }
}
