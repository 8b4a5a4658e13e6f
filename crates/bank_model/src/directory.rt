//! Lists whose items are found by their keys.

ghost use Rattle.std.specs.Prelude.{Bool, ◌≡◌, ◌∷◌, ◌++◌, [], not, position, IfOk, IfErr, OnErr, if◌then◌else◌};
ghost use Rattle.std.specs.List.{list_any, slice_get};
ghost use Rattle.std.specs.Cmp.{IsTotalOrder};
ghost use Rattle.std.specs.Ordering.{is_eq};
ghost use Rattle.std.specs.declared.cmp.Ordering.{Ordering};
ghost use Rattle.bank_model.specs.Directory.{compared, IsOrderOf, IsFound, IsGap};

use ofx_types::{Duplicate, OutOfMemory};
use std::alloc::Global;
use std::cmp::Ordering;
use std::marker::Model;

/// What is in a list under a key of its own.
pub trait Keyed {
    /// What an item is found by.
    type Key;

    ghost key_of: { Self → Self.Key };

    ghost order: { Self.Key → Self.Key → Ordering };

    ghost has_key: { Self → Self.Key → Bool };

    /// The key.
    fn key(&self) -> &Self::Key
        ensures { result.now ≡ key_of self.now };

    /// How the item's key compares with another.
    fn compare(&self, key: &Self::Key) -> Ordering
        ensures { result ≡ order (key_of self.now) key.now };

    ghost total: { IsTotalOrder order };

    ghost ties: { (item : Self) (key : Self.Key) → has_key item key ≡ is_eq (order (key_of item) key) };
}

/// Items in the order in which they came, no two under one key, with an order in which each is found by its key.
pub struct Directory<T: Keyed> {
    items: Vec<T>,
    indices: Vec<usize>,
}

impl<T: Keyed> Model for Directory<T> {
    ghost use Rattle.std.specs.Prelude.{List};
    ghost use Rattle.bank_model.specs.Directory.{IsOrderOf};

    ghost Value = { List T };

    ghost view = { λ d. d.items.items };

    ghost invariant = { λ d. IsOrderOf T.key_of T.order d.items.items d.indices.items };
}

impl<T: Keyed + Drop> Drop for Directory<T> {
    fn drop(self) {
        let Directory {
            items: _,
            indices: _,
        } = self;
    }
}

impl<T: Keyed> Directory<T> {
    /// No items.
    pub fn new(alloc: Global) -> Directory<T>
        ensures { result ≡ [] }
    {
        Directory {
            items: Vec::new(alloc),
            indices: Vec::new(alloc),
        }
    }

    /// The items, lent.
    pub fn items(&self) -> &[T]
        ensures { result.now ≡ self.now }
    {
        self.items.as_slice()
    }

    /// The index of the item under that key, in the order in which the items came. Takes no memory.
    pub fn find(&self, key: &T::Key) -> Option<usize>
        ensures { result ≡ position (λ item. T.has_key item key.now) self.now }
    {
        match search(&self.items, &self.indices, key) {
            Ok(at) => Some(self.indices[at]),
            Err(_) => None,
        }
    }

    /// Whether an item is under that key. Takes no memory.
    pub fn contains(&self, key: &T::Key) -> bool
        ensures { result ≡ list_any (λ item. T.has_key item key.now) self.now }
    {
        search(&self.items, &self.indices, key).is_ok()
    }
}

impl<T: Keyed + Drop> Directory<T> {
    /// Puts an item at the end. False where one is under its key already, and then, and where memory is refused, the
    /// items are as before.
    pub fn add(&mut self, item: T) -> Result<bool, OutOfMemory>
        ensures free { IfOk result (λ added. added ≡ not (list_any (λ other. T.has_key other (T.key_of item)) self.old)) }
        ensures added { IfOk result (λ added. self.new ≡ (if added then self.old ++ item ∷ [] else self.old)) }
        ensures err { OnErr result (self.new ≡ self.old) }
    {
        match search(&self.items, &self.indices, item.key()) {
            Ok(_) => Ok(false),
            Err(at) => {
                self.items.reserve(1)?;
                self.indices.insert(at, self.items.len())?;
                self.items.push_reserved(item);
                Ok(true)
            }
        }
    }
}

impl<T: Keyed + Duplicate + Drop> Duplicate for Directory<T> {
    fn copy(&self) -> Result<Directory<T>, OutOfMemory> {
        let mut items = Vec::with_capacity(*self.items.allocator(), self.items.len())?;
        for item in &self.items {
            items.push(item.copy()?)?;
        }
        let indices = self.indices.clone()?;
        Ok(Directory { items, indices })
    }
}

/// How the item at an index compares with a key. Where there is none it is greater than any.
fn compare_at<T: Keyed>(items: &[T], index: usize, key: &T::Key) -> Ordering
    ensures { result ≡ compared T.key_of T.order key.now (slice_get items.now index) }
{
    match items.get(index) {
        Some(item) => item.compare(key),
        None => Ordering::Greater,
    }
}

/// Where in the order the index of the item under that key is, or, as an error, where it would go.
fn search<T: Keyed>(items: &[T], indices: &[usize], key: &T::Key) -> Result<usize, usize>
    requires { IsOrderOf T.key_of T.order items.now indices.now }
    ensures found { IfOk result (IsFound T.key_of T.order items.now indices.now key.now) }
    ensures absent { IfErr result (IsGap T.key_of T.order items.now indices.now key.now) }
{
    indices.binary_search_by(
        |index| -> Ordering
            ensures { result ≡ compared T.key_of T.order key.entry.now (slice_get items.entry.now index.now) }
        { compare_at(items, *index, key) },
    )
}
