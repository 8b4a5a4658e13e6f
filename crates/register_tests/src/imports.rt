//! What comes of a file that a register is handed: each answer, and how many lines are there then.

ghost use Rattle.std.specs.Prelude.{◌≡◌, ◌<◌, ◌^◌, ◌∷◌, [], length};
ghost use Rattle.std.specs.List.{AllByRecursion};
ghost use Rattle.ofx_types.specs.Bounds.{IsTextWithin};
ghost use Rattle.file_register.specs.Lines.{IsSoundLine, lines_of};

use crate::registers::{SAVED, loaded};
use file_register::{ImportFault, Imported, Register};
use ofx_types::{
    AcctKind, AcctName, AskReply, Cents, Lines, Moment, ReplyFile, Sequence, StatementBody,
    StatementLine, StatementList, Text, TrnUid,
};
use std::alloc::Global;
use std::process::Abort;

/// The moment of each line: 12:01 on 31 January 2024.
const POSTED: Moment = Moment(1_706_702_460);

/// Files that a register of the FITIDs 1 and 2 is handed one after another: the signon's code, and the FITID and the amount of
/// the line. What is answered, in a word and two numbers, and how many lines are there then.
const FILES: [(u16, u64, i32, (&str, i64, i64), usize); 4] = [
    (0, 3, -300, ("new and known", 1, 0), 3),
    (0, 3, -300, ("new and known", 0, 1), 3),
    (0, 2, -250, ("clash", -200, -250), 3),
    (15500, 2, -250, ("signon", 15500, 0), 3),
];

/// The same of a register of the FITIDs 1 to 500,000, each of -1.00.
const FILES_OF_A_FULL_ONE: [(u16, u64, i32, (&str, i64, i64), usize); 3] = [
    (0, 500_000, -100, ("new and known", 0, 1), 500_000),
    (0, 500_001, -100, ("full", 0, 0), 500_000),
    (0, 500_000, -101, ("clash", -100, -101), 500_000),
];

/// A text of 1 to 32 bytes.
fn word(rt: &impl Abort, alloc: Global, bytes: &[u8]) -> Text
    ensures { IsTextWithin 32 result }
{
    let word = Text::new(alloc, bytes, 32).expect(rt, "a text");
    let size = word.as_bytes().len();
    assert!(rt; 0 < size && size <= 32);
    word
}

/// A list of one line.
fn one_line(rt: &impl Abort, alloc: Global, line: StatementLine) -> Lines
    ensures { result ≡ line ∷ [] }
{
    let mut lines = Sequence::new(alloc);
    lines.push(line).expect(rt, "room");
    lines
}

/// The answers of a file with one.
fn one_answer(rt: &impl Abort, alloc: Global, answer: AskReply) -> Sequence<AskReply>
    ensures { result ≡ answer ∷ [] }
{
    let mut answers = Sequence::new(alloc);
    answers.push(answer).expect(rt, "room");
    answers
}

/// A reply file with a signon of this code, whose statement of 1001 CHECKING has one line.
fn file(rt: &impl Abort, alloc: Global, signon: u16, fitid: u64, cents: i32) -> ReplyFile
    ensures sound { AllByRecursion IsSoundLine (lines_of result) }
    ensures few { length (lines_of result) < 2 ^ 32 }
{
    let line = StatementLine {
        number: fitid,
        posted: POSTED,
        amount: Cents(i64::from(cents)),
    };
    let list = StatementList {
        start: POSTED,
        end: POSTED,
        lines: one_line(rt, alloc, line),
    };
    let body = StatementBody {
        account: AcctName {
            bank: word(rt, alloc, b"121099999"),
            number: word(rt, alloc, b"1001"),
            kind: AcctKind::Checking,
        },
        list: Some(list),
        ledger: Cents(0),
        available: Cents(0),
        moment: POSTED,
    };
    let uid = TrnUid::new(b"s").expect(rt, "a TRNUID");
    ReplyFile {
        version: 160,
        newer: None,
        signon,
        moment: POSTED,
        replies: one_answer(rt, alloc, AskReply::Statement(uid, 0, Some(body))),
    }
}

/// What was answered, in a word and two numbers.
fn answered(answer: &Result<Imported, ImportFault>) -> (&'static str, i64, i64) {
    match answer {
        Ok(counts) => (
            "new and known",
            i64::from(counts.new),
            i64::from(counts.known),
        ),
        Err(ImportFault::Signon(code)) => ("signon", i64::from(*code), 0),
        Err(ImportFault::Clash(kept, other)) => ("clash", kept.amount.0, other.amount.0),
        Err(ImportFault::Full) => ("full", 0, 0),
        Err(ImportFault::OutOfMemory) => ("no memory", 0, 0),
    }
}

/// Hands a register files, and compares what is answered with what is wanted.
fn same(
    rt: &impl Abort,
    alloc: Global,
    register: &mut Register,
    files: &[(u16, u64, i32, (&str, i64, i64), usize)],
) {
    for (signon, fitid, cents, wanted, count) in files {
        let answer = register.import(&file(rt, alloc, *signon, *fitid, *cents));
        assert_eq!(rt; answered(&answer), *wanted);
        assert_eq!(rt; register.lines().len(), *count);
    }
}

/// The saved text of 500,000 lines of 1001 CHECKING.
fn full_text(rt: &impl Abort, alloc: Global) -> Vec<u8> {
    let mut text = Vec::from_slice(alloc, &[1, 0, 7, 161, 32]).expect(rt, "room");
    for fitid in 1..500_001u64 {
        text.extend_from_slice(&SAVED[5..23]).expect(rt, "room");
        text.extend_from_slice(&fitid.to_be_bytes())
            .expect(rt, "room");
        text.extend_from_slice(&SAVED[31..47]).expect(rt, "room");
    }
    text
}

#[test]
fn each_answer(rt: HostRuntime) {
    let alloc = rt.alloc();
    let mut register = loaded(&rt, alloc, &SAVED);
    same(&rt, alloc, &mut register, &FILES);
}

#[test]
fn a_full_register(rt: HostRuntime) {
    let alloc = rt.alloc();
    let text = full_text(&rt, alloc);
    let mut register = loaded(&rt, alloc, &text);
    same(&rt, alloc, &mut register, &FILES_OF_A_FULL_ONE);
    let saved = register.save_text().expect(&rt, "a text");
    assert!(rt; saved.as_slice() == text.as_slice());
}
