//! One thread publishes, and another one loads tokens.

ghost use Rattle.std.specs.Prelude.{◌≡◌, ◌<◌, ◌≤◌, [], All, length};
ghost use Rattle.token_board.specs.Tokens.{numbers_in};

use crate::boards::board_of;
use crate::scribe::{FIRST, Scribe};
use std::process::Abort;
use std::thread;
use token_board::{Board, Note, Pass, Writer};

/// How often each of both does its work.
const TIMES: u32 = 10_000;

/// Publishes the numbers 1, 2 and so on at a new board, and gives a note of all.
fn publish_all(rt: &impl Abort, board: &Board, writer: Writer, pass: Pass) -> Note
    requires own { (writer.table ≡ board.now.table) × (pass.table ≡ board.now.table) }
    requires unclaimed { writer.claimed ≡ [] }
    requires first { 0 < length board.now.start }
    requires below { All (λ number. number ≤ 0) (numbers_in board.now.start writer.log) }
    ensures { (result.table ≡ board.now.table) × (result.claimed ≡ []) }
{
    let mut scribe = Scribe::new(rt, board, writer, pass, 0);
    for number in 0..TIMES {
        scribe.publish(u64::from(number) + 1);
    }
    scribe.note()
}

/// Loads the token again and again. The last one, and whether none was below the one before.
fn look_often(board: &Board, first: Pass) -> (Pass, u64, bool)
    requires { first.table ≡ board.now.table }
    ensures { result.0.table ≡ board.now.table }
{
    let mut pass = first;
    let mut last = 0;
    let mut rises = true;
    for _ in 0..TIMES {
        let token = board.newest(&mut pass, FIRST);
        rises = rises && last <= token;
        last = token;
    }
    (pass, last, rises)
}

#[test]
fn tokens_that_another_thread_publishes_were_the_newest_once(rt: HostRuntime) {
    let (board, writer, mut pass) = board_of(&rt, rt.alloc(), &[0]);
    let other = pass.split(&board);
    let board = &board;
    let runtime = &rt;
    let (note, (mut other, last, rises)) = thread::join(
        &rt,
        move || -> Note
            requires { (writer.table ≡ board.now.table) × (pass.table ≡ board.now.table) × (writer.claimed ≡ [])
                × (0 < length board.now.start) × All (λ number. number ≤ 0) (numbers_in board.now.start writer.log) }
            ensures { (result.table ≡ board.entry.now.table) × (result.claimed ≡ []) }
        { publish_all(runtime, board, writer, pass) },
        move || -> (Pass, u64, bool)
            requires { other.table ≡ board.now.table }
            ensures { result.0.table ≡ board.entry.now.table }
        { look_often(board, other) },
    );
    assert!(rt; rises && last <= u64::from(TIMES));
    other.meet(board, note);
    assert!(rt; board.newest(&mut other, FIRST) == u64::from(TIMES));
}
