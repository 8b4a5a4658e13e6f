//! What one caller of a board is told.

use crate::boards::board_of;
use crate::scribe::{FIRST, Scribe};
use ofx_types::ObjectId;

const SECOND: ObjectId = ObjectId(1);
/// No object of the board.
const THIRD: ObjectId = ObjectId(2);

#[test]
fn a_token_is_the_number_of_the_last_entry(rt: HostRuntime) {
    let (board, writer, mut pass) = board_of(&rt, rt.alloc(), &[0, 7]);
    let before = (
        board.newest(&mut pass, FIRST),
        board.newest(&mut pass, SECOND),
        board.newest(&mut pass, THIRD),
    );
    assert!(rt; before == (0, 7, 0));
    let mut scribe = Scribe::new(&rt, &board, writer, pass, 7);
    scribe.publish(8);
    scribe.publish(10);
    assert!(rt; scribe.token(FIRST) == 10 && scribe.token(SECOND) == 7);
}

#[test]
fn a_pass_that_meets_a_note_is_told_no_older_token(rt: HostRuntime) {
    let (board, writer, mut pass) = board_of(&rt, rt.alloc(), &[0]);
    let mut other = pass.split(&board);
    let mut scribe = Scribe::new(&rt, &board, writer, pass, 0);
    scribe.publish(1);
    scribe.tell(&mut other);
    let mut child = other.split(&board);
    assert!(rt; board.newest(&mut other, FIRST) == 1 && board.newest(&mut child, FIRST) == 1);
}
