//! The commands, and what the arguments of each say.

ghost use Rattle.std.specs.Prelude.{IfSome};
ghost use Rattle.std.proofs.Props.{props};
ghost use Rattle.bank_model.specs.Sound.{IsTextWithin};
ghost use Rattle.ofx_types.specs.Calendar.{IsMoment};

use ofx_types::{Moment, Text};

/// What the arguments of `answer` say.
#[derive(Clone, Copy)]
pub struct AnswerArguments {
    /// The moment of every frame. None where each frame has the moment that the clock shows.
    pub at: Option<Moment>,
    ghost lawful: { IfSome at (λ moment. IsMoment moment.0) } by { Prim.hlevel props },
}

/// What the arguments of `mail` say.
#[derive(Clone, Copy)]
pub struct LetterArguments<'a> {
    /// Whom the letter is for: any word.
    pub name: &'a Text,
    /// Its subject, 1 to 64 bytes.
    pub subject: &'a Text,
    ghost fits: { IsTextWithin 64 subject.now },
}

/// What the arguments of `serve` say.
#[derive(Clone, Copy, Debug, PartialEq, Eq)]
pub struct Plan {
    /// Where the server listens: 1 to 65535.
    pub port: u16,
    /// How many workers it has: 1 to 64.
    pub workers: u32,
    /// How many connections each of them serves. 0 is 4,294,967,295.
    pub most: u32,
}

/// What a command line asks for.
#[derive(Clone, Copy)]
pub enum Command<'a> {
    /// `answer`: the frames of the input, answered in order.
    Answer(AnswerArguments),
    /// `check`: a setup and records are read, and what was found is reported.
    Check,
    /// `due`: what is due, done once.
    Due,
    /// `mail`: a letter to a user.
    Mail(LetterArguments<'a>),
    /// `rehearse`: the rehearsal of a seed.
    Rehearse(u64),
    /// `serve`: the bank over HTTP.
    Serve(Plan),
}
