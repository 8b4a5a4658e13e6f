//! The history of a bank: what is held of each object, and the entries that came most recently.

ghost use Rattle.std.specs.Prelude.{◌≡◌, ℕ, ◌+◌, ◌-◌, ◌<◌, ◌≤◌, ◌∷◌, ◌++◌, ◌==◌, [], nat_lt, Some, if◌then◌else◌, length, map, filter, take, IfOk, OnOk};
ghost use Rattle.std.specs.HashMap.{spare};
ghost use Rattle.std.specs.Map.{lookup};
ghost use Rattle.bank_model.specs.Objects as objects;
ghost use Rattle.bank_model.specs.Objects.{history_of, last_number};
ghost use Rattle.bank_model.specs.Sync.{is_above};
ghost use Rattle.bank_history.specs.HistoryHeld.{number_or_none};
ghost use Rattle.bank_history.specs.Made.{made_of};

use crate::among::{count_of, number_at, put_above};
use crate::entry_trace::{EntryTrace, after};
use crate::laid::Laid;
use crate::laying::lay;
use crate::made::{Made, put_made};
use bank_model::Entry;
use ofx_types::{ObjectId, OutOfMemory};
use std::alloc::Global;
use std::collections::HashMap;
use std::marker::Model;

/// The entries of a bank, numbered from 1. Of each object the last ones are held, and what its history made.
///
/// An entry comes without taking memory. It is among the recent ones, which have room, until room is made for more: then it
/// goes to its object.
///
/// ```rust
/// use bank_history::History;
/// use bank_model::Entry;
/// use ofx_types::{Change, ObjectId, TrnUid};
///
/// // Of each object two entries are held.
/// let mut history = History::new(rt.alloc(), 2);
/// history.reserve(3).expect(&rt, "room");
/// for (number, object) in [(1, 0), (2, 3), (3, 0)] {
///     history.add(Entry {
///         number,
///         object: ObjectId(object),
///         trnuid: TrnUid::new(b"t1").expect(&rt, "a uid"),
///         change: Change::DropTransfer(number),
///     });
/// }
/// assert!(rt; history.count() == 3 && history.newest(ObjectId(3)) == 2);
/// let since = history.since(rt.alloc(), ObjectId(0), 1);
/// let since = since.expect(&rt, "room");
/// assert!(rt; since.len() == 1 && since[0].number == 3);
/// ```
pub struct History {
    // all entries, for contracts alone
    past: EntryTrace,
    // how many there are
    count: u64,
    // the number of each object's last entry
    lasts: HashMap<u32, u64>,
    // what is held of the objects of all entries but the recent ones
    laid: Laid,
    // the entries that came most recently, in order
    recent: Vec<Entry>,
    // for how many more there is room
    left: usize,
}

impl Model for History {
    ghost use Rattle.std.specs.Prelude.{◌≡◌, ◌+◌, ◌≤◌, length, vec_len, vec_capacity};
    ghost use Rattle.std.specs.HashMap.{spare};
    ghost use Rattle.bank_history.specs.HistoryView.{HistoryView};
    ghost use Rattle.bank_history.specs.EntryTrace.{entries_of};
    ghost use Rattle.bank_history.specs.HistoryHeld.{AreNumbered, HasLasts, IsLaidBefore};

    ghost Value = { HistoryView };

    ghost view = { λ h. record {
      width = h.laid.objects.width;
      entries = entries_of h.past;
      recent = length h.recent.items;
      room = h.left;
    } };

    ghost invariant = { λ h. AreNumbered (entries_of h.past) × HasLasts h.lasts.entries (entries_of h.past)
        × (h.count ≡ length (entries_of h.past)) × IsLaidBefore h.laid h.recent.items (entries_of h.past)
        × (vec_len h.recent + h.left ≤ vec_capacity h.recent) × (h.left ≤ spare h.lasts) };
}

impl Drop for History {
    fn drop(self) {
        let History {
            past: _,
            count: _,
            lasts: _,
            laid: _,
            recent: _,
            left: _,
        } = self;
    }
}

impl History {
    /// There is no entry. The history of each object goes back so many entries, from 1 to 10,000. Takes no memory.
    pub fn new(alloc: Global, width: u32) -> History
        requires width { (0 < width) × (width < 10001) }
        ensures width { result.width ≡ width }
        ensures entries { result.entries ≡ [] }
        ensures recent { result.recent ≡ 0 }
    {
        History {
            past: EntryTrace::Start,
            count: 0,
            lasts: HashMap::new(alloc),
            laid: Laid::new(alloc, width),
            recent: Vec::new(alloc),
            left: 0,
        }
    }

    /// How many entries there are.
    pub fn count(&self) -> u64
        ensures { result ≡ length self.now.entries }
    {
        self.count
    }

    /// Makes room for so many more entries, and lays those that came to their objects. No room that was made before is lost.
    pub fn reserve(&mut self, entries: u32) -> Result<(), OutOfMemory>
        ensures width { self.new.width ≡ self.old.width }
        ensures entries { self.new.entries ≡ self.old.entries }
        ensures laid { OnOk result (self.new.recent ≡ 0) }
        ensures room { OnOk result (entries ≤ self.new.room) }
        ensures room_stays { self.old.room ≤ self.new.room }
    {
        lay(&self.past, &mut self.laid, &mut self.recent)?;
        self.recent.reserve(entries as usize)?;
        self.lasts.reserve(entries as usize)?;
        if self.left < entries as usize {
            self.left = entries as usize;
        }
        Ok(())
    }

    /// Puts an entry after all others. It has the next number. Takes no memory.
    pub fn add(&mut self, entry: Entry)
        requires room { 0 < self.old.room }
        requires number { entry.number ≡ length self.old.entries + 1 }
        ensures width { self.new.width ≡ self.old.width }
        ensures entries { self.new.entries ≡ self.old.entries ++ entry ∷ [] }
        ensures recent { self.new.recent ≡ self.old.recent + 1 }
        ensures room { self.new.room + 1 ≡ self.old.room }
    {
        let object = entry.object.0;
        let number = self.count + 1;
        self.past = after(&self.past, &entry);
        self.count = number;
        set_last(&mut self.lasts, object, number);
        self.recent.push_reserved(entry);
        self.left -= 1;
    }

    /// The number of the last entry of an object, 0 where there is none.
    pub fn newest(&self, object: ObjectId) -> u64
        ensures { result ≡ objects.newest object self.now.entries }
    {
        last_at(&self.lasts, object.0)
    }

    /// Whether a token is below the number of the entry before the last so many of an object, which is 0 where there are
    /// no more than these. They are no more than its history goes back.
    pub fn is_past(&self, object: ObjectId, token: u64, kept: usize) -> bool
        requires kept { kept ≤ self.now.width }
        ensures { result ≡ nat_lt token (last_number (take (length (history_of object self.now.entries) - kept)
            (history_of object self.now.entries))) }
    {
        token < self.number_before(object, kept)
    }

    /// The number of the entry before the last so many of an object, 0 where there are no more than these.
    fn number_before(&self, object: ObjectId, kept: usize) -> u64
        requires kept { kept ≤ self.now.width }
        ensures { result ≡ last_number (take (length (history_of object self.now.entries) - kept)
            (history_of object self.now.entries)) }
    {
        let recent = self.recent.as_slice();
        let later = count_of(recent, object);
        if later <= kept {
            return self.laid.number_before(object, kept - later);
        }
        let before = self.laid.newest(object);
        number_at(recent, object, later - kept, before)
    }

    /// The entries of an object with numbers above a token, lent. The token isn't below the floor of its history.
    pub fn since(
        &self,
        alloc: Global,
        object: ObjectId,
        token: u64,
    ) -> Result<Vec<&Entry>, OutOfMemory>
        requires floor { objects.floor self.now.width object self.now.entries ≤ token }
        ensures { IfOk result (λ since. map (λ entry. entry.now) since.items
            ≡ filter (is_above token) (history_of object self.now.entries)) }
    {
        let mut since = Vec::new(alloc);
        self.laid.put_since(&mut since, object, token)?;
        put_above(&mut since, self.recent.as_slice(), object, token)?;
        Ok(since)
    }

    /// What an object's history made, in order. Mails are copied.
    pub fn made(&self, alloc: Global, object: ObjectId) -> Result<Vec<Made>, OutOfMemory>
        ensures { IfOk result (λ made. made.items ≡ made_of object self.now.entries) }
    {
        let mut made = Vec::new(alloc);
        self.laid.put_made(&mut made, object)?;
        put_made(&mut made, self.recent.as_slice(), object)?;
        Ok(made)
    }
}

/// The number of the last entry of an object, or 0.
fn last_at(lasts: &HashMap<u32, u64>, object: u32) -> u64
    ensures { result ≡ number_or_none (lookup (λ k. object == k) lasts.now.entries) }
{
    match lasts.get(&object) {
        Some(number) => *number,
        None => 0,
    }
}

/// Sets the number of the last entry of an object. There is room for it, and it takes no memory.
fn set_last(lasts: &mut HashMap<u32, u64>, object: u32, number: u64)
    requires { 0 < spare lasts.old }
    ensures numbers { (other : ℕ) → lookup (λ k. other == k) lasts.new.entries
        ≡ (if object == other then Some number else lookup (λ k. other == k) lasts.old.entries) }
    ensures room { spare lasts.old ≤ spare lasts.new + 1 }
{
    let set: Result<_, _> = lasts.insert(object, number);
    let _before = set.unwrap();
}
