//! The commands: `answer`, a stream of frames that are answered in order, `due`, which does once what is due, and `mail`,
//! which writes a letter.

ghost use Rattle.std.specs.Prelude.{◌≡◌, ◌≢◌, ◌↔◌, ℕ, false, List, Option, Some, Err, IsSome};
ghost use Rattle.ofx_types.specs.declared.number.Moment.{Moment as TheMoment};
ghost use Rattle.ofx_types.specs.declared.told.Told.{Told as WhatIsReported};
ghost use Rattle.bank_arguments.specs.Arguments.{AreArguments, AreDueArguments, AreMailArguments};
ghost use Rattle.bank_arguments.specs.Bounds.{IsLawful};
ghost use Rattle.bank_arguments.specs.declared.command.AnswerArguments.{AnswerArguments as WhatIsAnswered};
ghost use Rattle.bank_arguments.specs.declared.command.LetterArguments.{LetterArguments as TheLetter};
ghost use Rattle.bank_opening.specs.Reports.{reported};
ghost use Rattle.bank_session.specs.Arguments.{IsOther, IsUsage};
ghost use Rattle.bank_session.specs.RunEnd.{RunEnds};
ghost use Rattle.bank_session.specs.Run.{EndsSo};
ghost use Rattle.bank_session.specs.Statuses.{IsRun, IsDueCommand, IsMailCommand};

use crate::due::do_due_once;
use crate::mail::send_letter;
use crate::opening::open_desk;
use crate::ports::Ports;
use crate::run::answer_frames as answer_input;
use bank_arguments::{Command, command_of};
use bank_model::laws::one_setup;
use bank_opening::laws::one_bank;
use bank_opening::{Stop, read_setup, report_of_end};
use ofx_ports::{Clock, Keeper, Sink, Source};
use ofx_types::{Moment, Note, Status, Text, Told};
use std::alloc::Global;
use std::hash::RandomState;

/// Reads the setup, opens the bank from its records and answers the frames of the input, each at that moment, or else at the
/// one that the clock shows.
fn run<A: Source, B: Source, W: Sink, K: Keeper, C: Clock>(
    alloc: Global,
    keys: RandomState,
    at: Option<Moment>,
    setup: &mut A,
    input: &mut B,
    out: &mut W,
    keeper: &mut K,
    clock: &mut C,
) -> Result<(), Stop>
    requires moment { IsLawful at }
    requires settled { K.unsettled keeper.old ≡ false }
    ensures ends { EndsSo (RunEnds at)
        (⟦<(A, B, W, K, C) as Ports>⟧.seen (setup.old, input.old, out.old, keeper.old, clock.old))
        (⟦<(A, B, W, K, C) as Ports>⟧.seen (setup.new, input.new, out.new, keeper.new, clock.new)) result }
    ensures settled { result ≢ Err Stop.KeeperFailed → K.unsettled keeper.new ≡ false }
    ensures still { IsSome at → clock.new ≡ clock.old }
{
    let setup = read_setup(alloc, setup)?;
    let mut desk = open_desk(alloc, keys, setup, keeper)?;
    answer_input(alloc, &mut desk, at, clock, input, out, keeper)
}

/// Answers a stream of frames, does once what is due, or writes a letter, and says how the run ended.
///
/// The arguments of the first are `answer`, the path of the setup, where the records are kept, and perhaps `--at` with a date
/// (OFX 1.6, "Dates, Times, and Time Zones"). The setup is read whole, and the bank opens from the records that the keeper
/// has: its state is the one after the events that they code, each legal after those before it. Then each frame of the input is
/// answered in turn. Of each event a record is appended before anything of it shows: before the bank takes the step, and before
/// its line is written. With `--at` each frame has that moment. Without it the clock is read once for each frame, when the whole
/// frame is there and before it is judged.
///
/// A request file of a user of the setup (OFX 1.6, "Signon") is answered by the reply in its frame. The reply to a file
/// with a NEWFILEUID is kept, and the same bytes are written again for each file of that user with this NEWFILEUID, until
/// one of the user's files that is answered anew names it as OLDFILEUID ("File-Based Error Recovery"). Where no user has
/// the file's name and password the reply is the failed signon alone, with code 15500, and changes nothing. Bytes that
/// spell no request file get the line `BAD` with the offset of their fault, in bytes from the file's first, and change
/// nothing.
///
/// For the frame `DUE` the bank does what is due at its moment: recurring transfers make their next transfers
/// ("Recurring Transactions"), and transfers that wait are posted, or closed where there is no cover, on their day
/// ("Intrabank Funds Transfer"). The line is `DUE` with the number of these events, which are at most 100,000.
///
/// A poll of a user, which asks for nothing but newest tokens ("Data Synchronization"), is answered in its frame too, and
/// changes nothing, not even the business day.
///
/// The arguments `due`, the path of the setup and where the records are kept ask for the same once, at the moment that the
/// clock shows then. The input isn't read.
///
/// The arguments `mail`, the path of the setup, where the records are kept, the name of a user and a subject of 1 to 64 bytes ask
/// for a letter of the bank to this user ("Customer Service and E-Mail"). The input is its body, of 1 to 10,000 bytes
/// without the white space at its ends. The clock is read once, after all that may refuse, and the line is `MAIL` with
/// the number of the letter's entry.
///
/// Clients choose their TRNUIDs and NEWFILEUIDs, so these are found by hashes with the keys of `keys`, which no client
/// knows.
///
/// | Status | Note | Where |
/// |---|---|---|
/// | 0 | | the input was read to its end and every frame answered, or what was due is done, or the letter is written |
/// | 2 | | the arguments have another form; nothing was read |
/// | 3 | the line of the fault, from 1 | the setup has no form or is past a limit; nothing was written |
/// | 4 | the number of bytes of the frames answered | the input goes on with bytes that begin no frame, or after 1,000,000 frames |
/// | 4 | 0 | of `mail`: the input is no body, or has more than 262,144 bytes; nothing was written |
/// | 5 | | a read of the setup or of the input failed; the frames before are answered |
/// | 6 | | a write failed; a prefix of the text is written |
/// | 7 | | memory was refused; the frames before are answered |
/// | 8 | | a call of the keeper failed; the frames before are answered, and the record whose append failed may have landed |
/// | 9 | a record's number, from 1, and its first fault's offset | it is the first that codes no event; nothing was written |
/// | 9 | a record's number, from 1 | it is the first whose event isn't legal after those before it; nothing was written |
/// | 10 | no user | of `mail`: no user of the setup has the name; nothing was written |
/// | 10 | full | of `mail`: no number is left for an entry; nothing was written |
///
/// ```rust
/// use bank_session::answer_told;
/// use ofx_ports::{MemClock, MemKeeper, MemSink, MemSource};
/// use ofx_types::{Moment, Status, Text};
/// use std::hash::RandomState;
///
/// let alloc = rt.alloc();
/// let text = |word: &str| Text::new(alloc, word.as_bytes(), 64).expect(&rt, "a text");
/// let arguments = vec![in alloc; text("answer"), text("setup"), text("-")].expect(&rt, "room");
/// let bytes = b"OFXBANK 1\nBANK 1\nLEAD 5\nWINDOW 3\nENTRIES 99\n\
///     USER alice secret\nACCT 1001 CHECKING 0 alice\n";
/// let mut setup = MemSource::new(alloc, bytes).expect(&rt, "a source");
/// let mut input = MemSource::new(alloc, b"DUE\n").expect(&rt, "a source");
/// let mut out = MemSink::new(alloc, 1024).expect(&rt, "a sink");
/// let mut keeper = MemKeeper::new(alloc);
/// let mut clock = MemClock::new(alloc, &[Moment(1_706_702_400)]).expect(&rt, "a clock");
/// let keys = RandomState::new(&rt).expect(&rt, "keys");
/// let told = answer_told(alloc, keys, &arguments, &mut setup, &mut input, &mut out, &mut keeper, &mut clock);
/// assert!(rt; told.status == Status(0) && out.held() == b"DUE 0\n".as_slice());
/// ```
pub fn answer_told<A: Source, B: Source, W: Sink, K: Keeper, C: Clock>(
    alloc: Global,
    keys: RandomState,
    arguments: &[Text],
    setup: &mut A,
    input: &mut B,
    out: &mut W,
    keeper: &mut K,
    clock: &mut C,
) -> Told
    requires settled { K.unsettled keeper.old ≡ false }
    ensures usage { (result.status.0 ≡ 2) ↔ IsUsage arguments.now }
    ensures plain { result.status.0 ≡ 2 → result.note ≡ Note.Plain }
    ensures unread { IsUsage arguments.now → (setup.new ≡ setup.old) × (input.new ≡ input.old) × (out.new ≡ out.old) × (keeper.new ≡ keeper.old) × (clock.new ≡ clock.old) }

    // What is written and kept, for which frames and at which moments, and why the run ended. The setup, the records and the
    // input decide what is reported, unless something of the outside fails or memory is refused.
    ensures run { (at : Option TheMoment) → AreArguments arguments.now at → IsRun at
        (⟦<(A, B, W, K, C) as Ports>⟧.seen (setup.old, input.old, out.old, keeper.old, clock.old))
        (⟦<(A, B, W, K, C) as Ports>⟧.seen (setup.new, input.new, out.new, keeper.new, clock.new)) result }

    // The same of `due`, which leaves the input as it is.
    ensures due { AreDueArguments arguments.now → (input.new ≡ input.old) × IsDueCommand
        (⟦<(A, B, W, K, C) as Ports>⟧.seen (setup.old, input.old, out.old, keeper.old, clock.old))
        (⟦<(A, B, W, K, C) as Ports>⟧.seen (setup.new, input.new, out.new, keeper.new, clock.new)) result }

    // The same of `mail`.
    ensures mail { (name subject : List ℕ) → AreMailArguments arguments.now name subject → IsMailCommand name subject
        (⟦<(A, B, W, K, C) as Ports>⟧.seen (setup.old, input.old, out.old, keeper.old, clock.old))
        (⟦<(A, B, W, K, C) as Ports>⟧.seen (setup.new, input.new, out.new, keeper.new, clock.new)) result }

    // Only an append that failed leaves something to be settled.
    ensures settled { result.status.0 ≢ 8 → K.unsettled keeper.new ≡ false }
    ensures clock { (at : TheMoment) → AreArguments arguments.now (Some at) → clock.new ≡ clock.old }
{
    match command_of(arguments) {
        Ok(command) => session_told(alloc, keys, command, setup, input, out, keeper, clock),
        Err(_) => no_run(),
    }
}

/// Does what `answer_told` does, by the command that its arguments ask for. With a command that is none of the three the status
/// is 2.
pub fn session_told<A: Source, B: Source, W: Sink, K: Keeper, C: Clock>(
    alloc: Global,
    keys: RandomState,
    command: Command<'_>,
    setup: &mut A,
    input: &mut B,
    out: &mut W,
    keeper: &mut K,
    clock: &mut C,
) -> Told
    requires settled { K.unsettled keeper.old ≡ false }
    ensures usage { (result.status.0 ≡ 2) ↔ IsOther command.entry }
    ensures plain { result.status.0 ≡ 2 → result.note ≡ Note.Plain }
    ensures unread { IsOther command.entry → (setup.new ≡ setup.old) × (input.new ≡ input.old) × (out.new ≡ out.old) × (keeper.new ≡ keeper.old) × (clock.new ≡ clock.old) }
    ensures run { (found : WhatIsAnswered) → command.entry ≡ Command.Answer found → IsRun found.at
        (⟦<(A, B, W, K, C) as Ports>⟧.seen (setup.old, input.old, out.old, keeper.old, clock.old))
        (⟦<(A, B, W, K, C) as Ports>⟧.seen (setup.new, input.new, out.new, keeper.new, clock.new)) result }
    ensures due { command.entry ≡ Command.Due → (input.new ≡ input.old) × IsDueCommand
        (⟦<(A, B, W, K, C) as Ports>⟧.seen (setup.old, input.old, out.old, keeper.old, clock.old))
        (⟦<(A, B, W, K, C) as Ports>⟧.seen (setup.new, input.new, out.new, keeper.new, clock.new)) result }
    ensures mail { (letter : TheLetter) → command.entry ≡ Command.Mail letter → IsMailCommand letter.name.now letter.subject.now
        (⟦<(A, B, W, K, C) as Ports>⟧.seen (setup.old, input.old, out.old, keeper.old, clock.old))
        (⟦<(A, B, W, K, C) as Ports>⟧.seen (setup.new, input.new, out.new, keeper.new, clock.new)) result }
    ensures settled { result.status.0 ≢ 8 → K.unsettled keeper.new ≡ false }
    ensures clock { (found : WhatIsAnswered) (at : TheMoment) → command.entry ≡ Command.Answer found → found.at ≡ Some at → clock.new ≡ clock.old }
{
    one_setup();
    one_bank();
    match command {
        Command::Answer(found) => report_of_end(run(
            alloc, keys, found.at, setup, input, out, keeper, clock,
        )),
        Command::Due => report_of_end(do_due_once(alloc, keys, setup, out, keeper, clock)),
        Command::Mail(letter) => report_of_end(send_letter(
            alloc,
            keys,
            letter.name,
            letter.subject,
            setup,
            input,
            out,
            keeper,
            clock,
        )),
        Command::Check => no_run(),
        Command::Rehearse(_) => no_run(),
        Command::Serve(_) => no_run(),
    }
}

/// What is reported where no run is asked for.
fn no_run() -> Told
    ensures { result ≡ reported 2 Note.Plain }
{
    Told {
        status: Status(2),
        note: Note::Plain,
    }
}

/// Does what `answer_told` does, and answers the status alone.
pub fn answer_files<A: Source, B: Source, W: Sink, K: Keeper, C: Clock>(
    alloc: Global,
    keys: RandomState,
    arguments: &[Text],
    setup: &mut A,
    input: &mut B,
    out: &mut W,
    keeper: &mut K,
    clock: &mut C,
) -> Status
    requires settled { K.unsettled keeper.old ≡ false }
    ensures usage { (result.0 ≡ 2) ↔ IsUsage arguments.now }
    ensures unread { IsUsage arguments.now → (setup.new ≡ setup.old) × (input.new ≡ input.old) × (out.new ≡ out.old) × (keeper.new ≡ keeper.old) × (clock.new ≡ clock.old) }

    // The run is that of which the status is reported.
    ensures run { (at : Option TheMoment) → AreArguments arguments.now at → (what : WhatIsReported) × (what.status ≡ result) × IsRun at
        (⟦<(A, B, W, K, C) as Ports>⟧.seen (setup.old, input.old, out.old, keeper.old, clock.old))
        (⟦<(A, B, W, K, C) as Ports>⟧.seen (setup.new, input.new, out.new, keeper.new, clock.new)) what }
    ensures due { AreDueArguments arguments.now → (input.new ≡ input.old) × ((what : WhatIsReported) × (what.status ≡ result) × IsDueCommand
        (⟦<(A, B, W, K, C) as Ports>⟧.seen (setup.old, input.old, out.old, keeper.old, clock.old))
        (⟦<(A, B, W, K, C) as Ports>⟧.seen (setup.new, input.new, out.new, keeper.new, clock.new)) what) }
    ensures mail { (name subject : List ℕ) → AreMailArguments arguments.now name subject → (what : WhatIsReported) × (what.status ≡ result) × IsMailCommand name subject
        (⟦<(A, B, W, K, C) as Ports>⟧.seen (setup.old, input.old, out.old, keeper.old, clock.old))
        (⟦<(A, B, W, K, C) as Ports>⟧.seen (setup.new, input.new, out.new, keeper.new, clock.new)) what }

    ensures settled { result.0 ≢ 8 → K.unsettled keeper.new ≡ false }
    ensures clock { (at : TheMoment) → AreArguments arguments.now (Some at) → clock.new ≡ clock.old }
{
    answer_told(alloc, keys, arguments, setup, input, out, keeper, clock).status
}
