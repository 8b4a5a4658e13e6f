//! The top call of the program.

ghost use Rattle.std.specs.Prelude.{◌≡◌, ◌≢◌, ◌↔◌, ◌≤◌, ℕ, false, List, Option, Some, IfOk};
ghost use Rattle.ofx_types.specs.declared.number.Moment.{Moment as TheMoment};
ghost use Rattle.bank_session.specs.Statuses.{IsRun, IsDueCommand, IsMailCommand};
ghost use Rattle.bank_arguments.specs.Arguments.{AreArguments, AreDueArguments, AreMailArguments, AreSeedArguments};
ghost use Rattle.bank_arguments.specs.declared.command.AnswerArguments.{AnswerArguments as WhatIsAnswered};
ghost use Rattle.bank_arguments.specs.declared.command.LetterArguments.{LetterArguments as TheLetter};
ghost use Rattle.bank_commands.specs.Rehearsing.{EndsSo, HaveNoForm, RunsElsewhere, rehearsal_text};
ghost use Rattle.ofx_world.specs.Rehearsal.{IsRehearsed};
ghost use Rattle.ofx_world.specs.declared.rehearsal.summary.Summary.{Summary};

use crate::lines::lines_of;
use bank_arguments::{Command, command_of};
use bank_session::{Ports, session_told};
use ofx_ports::{Clock, Failed, Keeper, Sink, Source, write_whole};
use ofx_types::{Note, OutOfMemory, Status, Text, Told};
use ofx_world::rehearse;
use std::alloc::Global;
use std::hash::RandomState;

/// Does what the arguments ask for, and answers how that ended.
///
/// The arguments `rehearse` and a number ask for the rehearsal of that seed: a world of a bank and three clients takes 2,000
/// turns, and six lines report what came of them. Nothing but the output is used. The status is 0, 6 where a write failed, or 7
/// where memory was refused. All other arguments are those of `answer_told`.
///
/// ```rust
/// use bank_commands::bank_told;
/// use ofx_ports::{MemClock, MemKeeper, MemSink, MemSource};
/// use ofx_types::{Moment, Status, Text};
/// use std::hash::RandomState;
///
/// let alloc = rt.alloc();
/// let text = |word: &str| Text::new(alloc, word.as_bytes(), 64).expect(&rt, "a text");
/// let arguments = vec![in alloc; text("rehearse"), text("seven")].expect(&rt, "room");
/// let mut setup = MemSource::new(alloc, b"").expect(&rt, "a source");
/// let mut input = MemSource::new(alloc, b"").expect(&rt, "a source");
/// let mut out = MemSink::new(alloc, 1024).expect(&rt, "a sink");
/// let mut keeper = MemKeeper::new(alloc);
/// let mut clock = MemClock::new(alloc, &[Moment(1_706_702_400)]).expect(&rt, "a clock");
/// let keys = RandomState::new(&rt).expect(&rt, "keys");
/// let told = bank_told(alloc, keys, &arguments, &mut setup, &mut input, &mut out, &mut keeper, &mut clock);
/// // The seed is no number, so that the arguments have no form.
/// assert!(rt; told.status == Status(2) && out.held().is_empty());
/// ```
pub fn bank_told<A: Source, B: Source, W: Sink, K: Keeper, C: Clock>(
    alloc: Global,
    keys: RandomState,
    arguments: &[Text],
    setup: &mut A,
    input: &mut B,
    out: &mut W,
    keeper: &mut K,
    clock: &mut C,
) -> Told
    requires settled { K.unsettled keeper.old ≡ false }
    ensures usage { (result.status.0 ≡ 2) ↔ HaveNoForm arguments.now }
    ensures plain { result.status.0 ≡ 2 → result.note ≡ Note.Plain }
    ensures unread { HaveNoForm arguments.now → (setup.new ≡ setup.old) × (input.new ≡ input.old) × (out.new ≡ out.old) × (keeper.new ≡ keeper.old) × (clock.new ≡ clock.old) }

    // A rehearsal uses nothing but the output.
    ensures rehearse { (seed : ℕ) → AreSeedArguments arguments.now seed
        → (setup.new ≡ setup.old) × (input.new ≡ input.old) × (keeper.new ≡ keeper.old) × (clock.new ≡ clock.old)
        × EndsSo seed (W.held out.old) (W.held out.new) (W.faults out.old) (W.faults out.new) result }

    // What is said of `answer`, `due` and `mail`.
    ensures run { (at : Option TheMoment) → AreArguments arguments.now at → IsRun at
        (⟦<(A, B, W, K, C) as Ports>⟧.seen (setup.old, input.old, out.old, keeper.old, clock.old))
        (⟦<(A, B, W, K, C) as Ports>⟧.seen (setup.new, input.new, out.new, keeper.new, clock.new)) result }
    ensures due { AreDueArguments arguments.now → (input.new ≡ input.old) × IsDueCommand
        (⟦<(A, B, W, K, C) as Ports>⟧.seen (setup.old, input.old, out.old, keeper.old, clock.old))
        (⟦<(A, B, W, K, C) as Ports>⟧.seen (setup.new, input.new, out.new, keeper.new, clock.new)) result }
    ensures mail { (name subject : List ℕ) → AreMailArguments arguments.now name subject → IsMailCommand name subject
        (⟦<(A, B, W, K, C) as Ports>⟧.seen (setup.old, input.old, out.old, keeper.old, clock.old))
        (⟦<(A, B, W, K, C) as Ports>⟧.seen (setup.new, input.new, out.new, keeper.new, clock.new)) result }
    ensures settled { result.status.0 ≢ 8 → K.unsettled keeper.new ≡ false }
    ensures clock { (at : TheMoment) → AreArguments arguments.now (Some at) → clock.new ≡ clock.old }
{
    match command_of(arguments) {
        Ok(command) => command_told(alloc, keys, command, setup, input, out, keeper, clock),
        Err(_) => plain(2),
    }
}

/// Does what `bank_told` does, by the command that its arguments ask for. With `check` and `serve` the status is 2.
pub fn command_told<A: Source, B: Source, W: Sink, K: Keeper, C: Clock>(
    alloc: Global,
    keys: RandomState,
    command: Command<'_>,
    setup: &mut A,
    input: &mut B,
    out: &mut W,
    keeper: &mut K,
    clock: &mut C,
) -> Told
    requires settled { K.unsettled keeper.old ≡ false }
    ensures usage { (result.status.0 ≡ 2) ↔ RunsElsewhere command.entry }
    ensures plain { result.status.0 ≡ 2 → result.note ≡ Note.Plain }
    ensures unread { RunsElsewhere command.entry → (setup.new ≡ setup.old) × (input.new ≡ input.old) × (out.new ≡ out.old) × (keeper.new ≡ keeper.old) × (clock.new ≡ clock.old) }
    ensures rehearse { (seed : ℕ) → command.entry ≡ Command.Rehearse seed
        → (setup.new ≡ setup.old) × (input.new ≡ input.old) × (keeper.new ≡ keeper.old) × (clock.new ≡ clock.old)
        × EndsSo seed (W.held out.old) (W.held out.new) (W.faults out.old) (W.faults out.new) result }
    ensures run { (found : WhatIsAnswered) → command.entry ≡ Command.Answer found → IsRun found.at
        (⟦<(A, B, W, K, C) as Ports>⟧.seen (setup.old, input.old, out.old, keeper.old, clock.old))
        (⟦<(A, B, W, K, C) as Ports>⟧.seen (setup.new, input.new, out.new, keeper.new, clock.new)) result }
    ensures due { command.entry ≡ Command.Due → (input.new ≡ input.old) × IsDueCommand
        (⟦<(A, B, W, K, C) as Ports>⟧.seen (setup.old, input.old, out.old, keeper.old, clock.old))
        (⟦<(A, B, W, K, C) as Ports>⟧.seen (setup.new, input.new, out.new, keeper.new, clock.new)) result }
    ensures mail { (letter : TheLetter) → command.entry ≡ Command.Mail letter → IsMailCommand letter.name.now letter.subject.now
        (⟦<(A, B, W, K, C) as Ports>⟧.seen (setup.old, input.old, out.old, keeper.old, clock.old))
        (⟦<(A, B, W, K, C) as Ports>⟧.seen (setup.new, input.new, out.new, keeper.new, clock.new)) result }
    ensures settled { result.status.0 ≢ 8 → K.unsettled keeper.new ≡ false }
    ensures clock { (found : WhatIsAnswered) (at : TheMoment) → command.entry ≡ Command.Answer found → found.at ≡ Some at → clock.new ≡ clock.old }
{
    match command {
        Command::Rehearse(seed) => rehearsed(alloc, keys, seed, out),
        _ => session_told(alloc, keys, command, setup, input, out, keeper, clock),
    }
}

/// A status alone.
fn plain(status: u8) -> Told
    ensures { result ≡ record { status = record { 0 = status }; note = Note.Plain } }
{
    Told {
        status: Status(status),
        note: Note::Plain,
    }
}

/// The end of the rehearsal of a seed, whose lines are written.
fn rehearsed<W: Sink>(alloc: Global, keys: RandomState, seed: u64, out: &mut W) -> Told
    ensures end { EndsSo seed (W.held out.old) (W.held out.new) (W.faults out.old) (W.faults out.new) result }
    ensures counts { W.faults out.old ≤ W.faults out.new }
    ensures formed { result.status.0 ≢ 2 }
{
    match text_of(alloc, keys, seed) {
        Ok(text) => match write_whole(out, &text) {
            Ok(()) => plain(0),
            Err(Failed) => plain(6),
        },
        Err(OutOfMemory) => plain(7),
    }
}

/// The lines of the rehearsal of a seed.
fn text_of(alloc: Global, keys: RandomState, seed: u64) -> Result<Vec<u8>, OutOfMemory>
    ensures { IfOk result (λ text. (came : Summary) × IsRehearsed seed came × (text.items ≡ rehearsal_text seed came)) }
{
    let came = rehearse(alloc, keys, seed)?;
    lines_of(alloc, seed, came)
}
