//! The history of a bank: the entries of two objects, with tokens before, at and after the floor, and what was made.

ghost use Rattle.std.specs.Prelude.{◌≡◌, ◌+◌, ◌<◌};

use crate::same::same;
use crate::sample::{TODAY, mail_row, model_row};
use bank_history::{History, Made};
use bank_model::Entry;
use ofx_types::{Change, Freq, ObjectId, TrnUid};
use std::alloc::Global;
use std::process::Abort;

/// Objects with entries, and one with none.
const OFTEN: ObjectId = ObjectId(1);

const ONCE: ObjectId = ObjectId(2);

const NEVER: ObjectId = ObjectId(3);

/// Puts an entry after all others.
fn add(rt: &impl Abort, history: &mut History, object: ObjectId, change: Change)
    requires room { 0 < history.old.room }
    ensures width { history.new.width ≡ history.old.width }
    ensures room { history.new.room + 1 ≡ history.old.room }
{
    let number = history.count().checked_add(1).expect(rt, "a number");
    let trnuid = TrnUid::new(b"0").expect(rt, "a uid");
    history.add(Entry {
        number,
        object,
        trnuid,
        change,
    });
}

/// A history that is reported two entries back. The last two of five entries came since room was made.
fn five(rt: &impl Abort, alloc: Global) -> History
    ensures width { result.width ≡ 2 }
{
    let mut history = History::new(alloc, 2);
    history.reserve(3).expect(rt, "room");
    let weekly = model_row(rt, alloc, 7, Freq::Weekly, None, TODAY);
    add(rt, &mut history, OFTEN, Change::NewModel(weekly));
    let mail = mail_row(rt, alloc, b"Hello");
    add(rt, &mut history, ONCE, Change::NewMail(mail));
    add(rt, &mut history, OFTEN, Change::DropTransfer(9));
    history.reserve(2).expect(rt, "room");
    add(rt, &mut history, OFTEN, Change::DropTransfer(8));
    add(rt, &mut history, OFTEN, Change::DropModel(7, true));
    history
}

/// The numbers of the entries of an object above a token, unless the token is past.
#[tactic(auto, unfolding(bank_model::specs::Objects::floor))]
fn above(
    rt: &impl Abort,
    alloc: Global,
    history: &History,
    object: ObjectId,
    token: u64,
) -> Option<Vec<u64>>
    requires width { history.now.width ≡ 2 }
{
    if history.is_past(object, token, 2) {
        return None;
    }
    let mut numbers = Vec::new(alloc);
    let entries = history.since(alloc, object, token).expect(rt, "entries");
    for entry in &entries {
        numbers.push(entry.number).expect(rt, "room");
    }
    Some(numbers)
}

/// Objects, tokens that are past, and tokens that aren't, with the numbers of the entries above them.
const ABOVE: &[(ObjectId, u64, Option<&[u64]>)] = &[
    (OFTEN, 0, None),
    (OFTEN, 2, None),
    (OFTEN, 3, Some(&[4, 5])),
    (OFTEN, 4, Some(&[5])),
    (OFTEN, 5, Some(&[])),
    (ONCE, 0, Some(&[2])),
    (ONCE, 2, Some(&[])),
    (NEVER, 0, Some(&[])),
];

#[test]
fn the_last_entries_of_an_object_are_told(rt: HostRuntime) {
    let alloc = rt.alloc();
    let history = five(&rt, alloc);
    for (object, token, numbers) in ABOVE {
        let found = above(&rt, alloc, &history, *object, *token);
        assert!(rt; found.as_deref() == *numbers);
    }
    same(&rt, history.newest(OFTEN), 5);
    same(&rt, history.newest(NEVER), 0);
}

#[test]
fn what_an_object_made_is_told(rt: HostRuntime) {
    let alloc = rt.alloc();
    let history = five(&rt, alloc);
    let models = history.made(alloc, OFTEN).expect(&rt, "what was made");
    let [Made::Model(id)] = models.as_slice() else {
        panic!(rt; "a recurring transfer");
    };
    same(&rt, *id, 7);
    let mails = history.made(alloc, ONCE).expect(&rt, "what was made");
    let [Made::Mail(row)] = mails.as_slice() else {
        panic!(rt; "a mail");
    };
    assert!(rt; row.mail.subject.as_bytes() == b"Hello".as_slice());
}
