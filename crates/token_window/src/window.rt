//! A ring of the last entries of an object, and the number of the last one that left.

ghost use Rattle.std.specs.Prelude.{◌≡◌, ◌+◌, ◌-◌, ◌^◌, ◌<◌, ◌≤◌, nat_lt, if◌then◌else◌, ℕ, List, [], ◌∷◌, ◌++◌, None, length, drop, take, slice_get, filter, IfOk, OnOk, OnErr};
ghost use Rattle.std.specs.Map.Iter.{ShowsInOrder, deref};
ghost use Rattle.ofx_types.specs.declared.number.ObjectId.{ObjectId};
ghost use Rattle.bank_model.specs.declared.entry.Entry.{Entry};
ghost use Rattle.bank_model.specs.Objects as objects;
ghost use Rattle.bank_model.specs.Objects.{history_of, last_number, last_number_from};
ghost use Rattle.bank_model.specs.Sync.{is_above};
ghost use Rattle.circular_buffer.specs.Buffer.{keep_last};
ghost use Rattle.token_window.specs.WindowView.{newest_held, entry_before, number_of, Represents};

use crate::since::Since;
use bank_model::Entry;
use circular_buffer::HeapCircularBuffer;
use ofx_types::OutOfMemory;
use std::alloc::Global;
use std::marker::Model;

/// The last entries of an object. Their numbers rise.
///
/// ```rust
/// use bank_model::Entry;
/// use ofx_types::{Change, ObjectId, TrnUid};
/// use token_window::Window;
///
/// // A window of two entries. The third one makes the first leave.
/// let mut window = Window::new(rt.alloc(), 2).expect(&rt, "a window");
/// for number in [3, 4, 6] {
///     window.reserve(1).expect(&rt, "room");
///     window.add(Entry {
///         number,
///         object: ObjectId(0),
///         trnuid: TrnUid::new(b"t1").expect(&rt, "a uid"),
///         change: Change::DropTransfer(number),
///     });
/// }
/// assert!(rt; window.floor() == 3 && window.newest() == 6);
/// assert_eq!(rt; window.since(4).len(), 1);
/// ```
pub struct Window {
    /// How many entries it holds at most.
    width: u32,
    /// For how many more entries room was made.
    room: u32,
    /// The number of the last entry that left, 0 where none has.
    floor: u64,
    entries: HeapCircularBuffer<Entry>,
}

impl Model for Window {
    ghost use Rattle.token_window.specs.WindowView.{WindowView, IsWindow};

    ghost Value = { WindowView };

    ghost view = { λ w. record { width = w.width; held = w.entries.items; floor = w.floor; room = w.room } };

    ghost invariant = { λ w. IsWindow w.width w.entries.capacity w.floor w.room w.entries.items };
}

impl Drop for Window {
    fn drop(self) {
        let Window {
            width: _,
            room: _,
            floor: _,
            entries: _,
        } = self;
    }
}

impl Window {
    /// A window of an object that has no entry yet, for so many entries at most, from 1 to 10,000. It has no room.
    pub fn new(alloc: Global, width: u32) -> Result<Window, OutOfMemory>
        requires width { (0 < width) × (width < 10001) }
        ensures empty { IfOk result (λ window. window ≡ record { width = width; held = []; floor = 0; room = 0 }) }
        ensures holds { IfOk result (λ window. Represents [] width window) }
    {
        let entries = HeapCircularBuffer::with_capacity(alloc, 0)?;
        Ok(Window {
            width,
            room: 0,
            floor: 0,
            entries,
        })
    }

    /// The number of the last entry that came, 0 where none has. Takes no memory.
    pub fn newest(&self) -> u64
        ensures held { result ≡ newest_held self.now }
        ensures represented { (object : ObjectId) (entries : List Entry) (width : ℕ)
            → Represents (history_of object entries) width self.now → result ≡ objects.newest object entries }
    {
        match self.entries.back() {
            Some(entry) => entry.number,
            None => self.floor,
        }
    }

    /// The number of the last entry that left, 0 where none has. Takes no memory.
    pub fn floor(&self) -> u64
        ensures held { result ≡ self.now.floor }
        ensures represented { (object : ObjectId) (entries : List Entry) (width : ℕ)
            → Represents (history_of object entries) width self.now → result ≡ objects.floor width object entries }
    {
        self.floor
    }

    /// The entries above a token, from the oldest to the newest, lent. The token isn't below the floor. Takes no memory.
    pub fn since(&self, token: u64) -> Since<'_>
        requires floor { self.now.floor ≤ token }
        ensures held { result ≡ filter (is_above token) self.now.held }
        ensures represented { (history : List Entry) (width : ℕ)
            → Represents history width self.now → result ≡ filter (is_above token) history }
        ensures runs { ShowsInOrder (deref {X = Entry}) }
    {
        // What it ensures of runs holds of each iterator that is seen as the list of what is left, so of `Since` as well.
        let _runs = self.entries.iter();
        let _few = self.entries.len();
        let (older, newer) = self.entries.as_slices();
        Since::new(older, newer, token)
    }

    /// The number of the entry before the last so many, 0 where there are no more than these. These are no more than the
    /// window is wide. Takes no memory.
    pub fn number_before(&self, last: usize) -> u64
        requires narrow { last ≤ self.now.width }
        ensures held { result
            ≡ last_number_from self.now.floor (take (length self.now.held - last) self.now.held) }
        ensures represented { (history : List Entry) (width : ℕ)
            → Represents history width self.now → result ≡ last_number (take (length history - last) history) }
    {
        let count = self.entries.len();
        if count <= last {
            return self.floor;
        }
        match self.entries.get(count - last - 1) {
            Some(entry) => entry.number,
            None => unreachable!(),
        }
    }

    /// Makes room for so many more entries. Where memory is refused, the window is as before.
    pub fn reserve(&mut self, entries: u32) -> Result<(), OutOfMemory>
        ensures width { self.new.width ≡ self.old.width }
        ensures held { self.new.held ≡ self.old.held }
        ensures floor { self.new.floor ≡ self.old.floor }
        ensures holds { (history : List Entry) (width : ℕ)
            → Represents history width self.old → Represents history width self.new }
        ensures room { OnOk result (entries ≤ self.new.room) }
        ensures room_stays { self.old.room ≤ self.new.room }
        ensures err { OnErr result (self.new ≡ self.old) }
    {
        let room = self.room.max(entries);
        let wanted = self.entries.len() + room as usize;
        let capacity = capacity_for(self.width as usize, self.entries.capacity(), wanted);
        self.entries.resize(capacity)?;
        self.room = room;
        Ok(())
    }

    /// Takes in an entry, whose number is above the newest one, and hands back the one that leaves for it: the oldest, where
    /// the window is full. There is room for it, and it takes no memory.
    pub fn add(&mut self, entry: Entry) -> Option<Entry>
        requires room { 0 < self.old.room }
        requires rising { newest_held self.old < entry.number }
        ensures left { result
            ≡ (if nat_lt (length self.old.held) self.old.width then None else slice_get self.old.held 0) }
        ensures width { self.new.width ≡ self.old.width }
        ensures held { self.new.held ≡ keep_last self.old.width (self.old.held ++ entry ∷ []) }
        ensures floor { self.new.floor ≡ number_of self.old.floor result }
        ensures room { self.new.room + 1 ≡ self.old.room }
        ensures represented { (history : List Entry) (width : ℕ)
            → Represents history width self.old → result ≡ entry_before width (history ++ entry ∷ []) }
        ensures holds { (history : List Entry) (width : ℕ)
            → Represents history width self.old → Represents (history ++ entry ∷ []) width self.new }
    {
        let left = self.entries.push_back(entry);
        self.floor = floor_after(self.floor, &left);
        self.room -= 1;
        left
    }
}

/// The floor once an entry has left, or none.
fn floor_after(floor: u64, left: &Option<Entry>) -> u64
    ensures { result ≡ number_of floor left.now }
{
    match left {
        Some(gone) => gone.number,
        None => floor,
    }
}

/// How many slots a ring gets that wants so many: at least twice as many as before where it grows, so that entries are seldom
/// moved, but never more than the window is wide.
fn capacity_for(width: usize, before: usize, wanted: usize) -> usize
    requires narrow { (before ≤ width) × (width < 2 ^ 32) }
    ensures narrow { result ≤ width }
    ensures more { before ≤ result }
    ensures roomy { result < width → wanted ≤ result }
{
    if wanted <= before {
        return before;
    }
    wanted.max(2 * before).min(width)
}
