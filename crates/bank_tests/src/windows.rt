//! The window of an object's last entries: what is lent above a token, how far back it goes, and what leaves.

ghost use Rattle.std.specs.Prelude.{◌≡◌, ◌<◌};

use crate::same::same;
use bank_model::Entry;
use ofx_types::{Change, ObjectId, TrnUid};
use std::alloc::Global;
use std::process::Abort;
use token_window::Window;

/// The numbers of the entries that came, the token, how far back the window goes then, the newest number, and the numbers of
/// the entries above the token.
type Case = (&'static [u64], u64, u64, u64, &'static [u64]);

const OF_THREE: &[Case] = &[
    (&[], 0, 0, 0, &[]),
    (&[1, 2, 3], 0, 0, 3, &[1, 2, 3]),
    (&[1, 2, 3], 2, 0, 3, &[3]),
    (&[1, 2, 3], 3, 0, 3, &[]),
    (&[1, 2, 3, 4], 1, 1, 4, &[2, 3, 4]),
    (&[1, 2, 3, 4], 4, 1, 4, &[]),
    (&[2, 5, 9, 11, 30], 5, 5, 30, &[9, 11, 30]),
    (&[2, 5, 9, 11, 30], 10, 5, 30, &[11, 30]),
    (&[2, 5, 9, 11, 30], 11, 5, 30, &[30]),
];

const OF_ONE: &[Case] = &[
    (&[], 0, 0, 0, &[]),
    (&[7], 0, 0, 7, &[7]),
    (&[7, 8, 10], 8, 8, 10, &[10]),
    (&[7, 8, 10], 10, 8, 10, &[]),
];

/// Gives a window an entry of a number above its newest, and answers the number of the entry that left, 0 where none did.
fn take_in(rt: &impl Abort, window: &mut Window, number: u64) -> u64
    ensures width { window.new.width ≡ window.old.width }
{
    window.reserve(1).expect(rt, "room");
    let trnuid = TrnUid::new(b"0").expect(rt, "a uid");
    if number <= window.newest() {
        return number;
    }
    let left = window.add(Entry {
        number,
        object: ObjectId(0),
        trnuid,
        change: Change::DropTransfer(number),
    });
    match left {
        Some(entry) => entry.number,
        None => 0,
    }
}

/// The numbers of the entries above a token that isn't below the floor.
fn reported(rt: &impl Abort, alloc: Global, window: &Window, token: u64) -> Vec<u64> {
    let mut numbers = Vec::new(alloc);
    if window.floor() <= token {
        for entry in window.since(token) {
            numbers.push(entry.number).expect(rt, "room");
        }
    }
    numbers
}

/// How many entries are above a token that isn't below the floor.
fn count(window: &Window, token: u64) -> usize {
    if window.floor() <= token {
        window.since(token).len()
    } else {
        0
    }
}

/// Whether a window is as a case says.
fn is_so(rt: &impl Abort, alloc: Global, width: u32, case: &Case) -> bool
    requires { (0 < width) × (width < 10001) }
{
    let (numbers, token, floor, newest, above) = *case;
    let mut window = Window::new(alloc, width).expect(rt, "a window");
    for number in numbers {
        take_in(rt, &mut window, *number);
    }
    let lent = reported(rt, alloc, &window, token);
    window.floor() == floor && window.newest() == newest && lent.as_slice() == above
}

#[test]
fn what_is_above_a_token_is_lent(rt: HostRuntime) {
    let alloc = rt.alloc();
    for case in OF_THREE {
        assert!(rt; is_so(&rt, alloc, 3, case));
    }
    for case in OF_ONE {
        assert!(rt; is_so(&rt, alloc, 1, case));
    }
}

#[test]
fn the_oldest_entry_leaves_a_full_window(rt: HostRuntime) {
    let mut window = Window::new(rt.alloc(), 2).expect(&rt, "a window");
    for (number, left) in [(3, 0), (4, 0), (6, 3), (9, 4), (10, 6)] {
        same(&rt, take_in(&rt, &mut window, number), left);
    }
    same(&rt, count(&window, 6), 2);
}

/// A window of three entries that has let go of two.
fn full(rt: &impl Abort, alloc: Global) -> Window
    ensures width { result.width ≡ 3 }
{
    let mut window = Window::new(alloc, 3).expect(rt, "a window");
    take_in(rt, &mut window, 2);
    take_in(rt, &mut window, 5);
    take_in(rt, &mut window, 9);
    take_in(rt, &mut window, 11);
    take_in(rt, &mut window, 30);
    window
}

#[test]
fn the_number_before_the_last_entries_is_known(rt: HostRuntime) {
    let window = full(&rt, rt.alloc());
    for (last, number) in [(0, 30), (1, 11), (2, 9), (3, 5)] {
        same(&rt, window.number_before(last), number);
    }
}
