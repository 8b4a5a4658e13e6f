//! The entries of a window above a token, lent one after another.

ghost use Rattle.std.specs.Prelude.{◌≡◌, ◌+◌, ◌^◌, ◌<◌, ◌≤◌, ◌++◌, length, filter};
ghost use Rattle.std.specs.Iterator.{at_most};
ghost use Rattle.std.specs.List.Sorted.{IsNonDecreasingBy};
ghost use Rattle.std.specs.Map.Iter.{TakesFirst, deref};
ghost use Rattle.bank_model.specs.declared.entry.Entry.{Entry};
ghost use Rattle.bank_model.specs.Sync.{is_above};

use bank_model::Entry;
use std::iter::FusedIterator;
use std::marker::Model;

/// The entries of a window above a token, from the oldest to the newest. A contract sees those that are left.
#[derive(Drop)]
pub struct Since<'a> {
    older: &'a [Entry],
    newer: &'a [Entry],
}

impl<'a> Model for Since<'a> {
    ghost use Rattle.std.specs.Prelude.{◌+◌, ◌^◌, ◌<◌, List, ◌++◌, length};
    ghost use Rattle.bank_model.specs.declared.entry.Entry.{Entry};

    ghost Value = { List Entry };

    ghost view = { λ s. s.older.now ++ s.newer.now };

    ghost invariant = { λ s. length s.older.now + length s.newer.now < 2 ^ 63 };
}

impl<'a> Since<'a> {
    /// The entries above a token of two runs of entries in order, the second after the first. Takes no memory.
    pub(crate) fn new(older: &'a [Entry], newer: &'a [Entry], token: u64) -> Since<'a>
        requires older { IsNonDecreasingBy (λ (entry : Entry). entry.number) older.now }
        requires newer { IsNonDecreasingBy (λ (entry : Entry). entry.number) newer.now }
        requires few { length older.now + length newer.now < 2 ^ 63 }
        ensures { result ≡ filter (is_above token) (older.now ++ newer.now) }
    {
        Since {
            older: above(older, token),
            newer: above(newer, token),
        }
    }
}

/// Those of entries in order that are above a token, found by binary search.
fn above(entries: &[Entry], token: u64) -> &[Entry]
    requires { IsNonDecreasingBy (λ (entry : Entry). entry.number) entries.now }
    ensures above { result.now ≡ filter (is_above token) entries.now }
    ensures few { length result.now ≤ length entries.now }
{
    let first = entries.partition_point(|entry| entry.number <= token);
    &entries[first..]
}

impl<'a> Iterator for Since<'a> {
    type Item = &'a Entry;

    ghost next_gives = { TakesFirst deref };

    ghost remaining = { λ s. at_most (length s) };

    fn next(&mut self) -> Option<&'a Entry> {
        let older = self.older;
        if 0 < older.len() {
            self.older = &older[1..];
            return Some(&older[0]);
        }
        let newer = self.newer;
        if 0 < newer.len() {
            self.newer = &newer[1..];
            return Some(&newer[0]);
        }
        None
    }

    fn size_hint(&self) -> (usize, Option<usize>) {
        let len = self.len();
        (len, Some(len))
    }
}

impl<'a> ExactSizeIterator for Since<'a> {
    fn len(&self) -> usize {
        self.older.len() + self.newer.len()
    }
}

impl<'a> FusedIterator for Since<'a> {}
