//! What some entries say of an object: the number of its last one, how many it has, and the number of the last of the first
//! so many.

ghost use Rattle.std.specs.Prelude.{◌≡◌, ◌≤◌, ◌∷◌, ◌++◌, [], length, map, filter, take, OnOk};
ghost use Rattle.bank_model.specs.Objects.{history_of, last_number_from};
ghost use Rattle.bank_model.specs.Sync.{is_above};

use bank_model::Entry;
use ofx_types::{ObjectId, OutOfMemory};

/// The number of the last entry of an object, and the number before where there is none.
pub fn last_number(entries: &[Entry], object: ObjectId, before: u64) -> u64
    ensures { result ≡ last_number_from before (history_of object entries.now) }
{
    let mut number = before;
    for entry in entries {
        number = number_after(entry, object, number);
    }
    number
}

/// The number of an entry, where it is one of the object, and the number before otherwise.
#[tactic(auto, unfolding(bank_model::specs::Objects::history_of))]
fn number_after(entry: &Entry, object: ObjectId, before: u64) -> u64
    ensures { result ≡ last_number_from before (history_of object (entry.now ∷ [])) }
{
    if entry.object.0 == object.0 {
        entry.number
    } else {
        before
    }
}

/// How many entries an object has.
pub fn count_of(entries: &[Entry], object: ObjectId) -> usize
    ensures { result ≡ length (history_of object entries.now) }
{
    let mut count = 0;
    for entry in entries {
        count += one_if(entry, object);
    }
    count
}

/// 1 where an entry is one of the object, 0 otherwise.
#[tactic(auto, unfolding(bank_model::specs::Objects::history_of))]
fn one_if(entry: &Entry, object: ObjectId) -> usize
    ensures count { result ≡ length (history_of object (entry.now ∷ [])) }
    ensures most { result ≤ 1 }
{
    if entry.object.0 == object.0 { 1 } else { 0 }
}

/// The number of the last of so many entries of an object, and the number before where there is none.
pub fn number_at(entries: &[Entry], object: ObjectId, most: usize, before: u64) -> u64
    ensures { result ≡ last_number_from before (take most (history_of object entries.now)) }
{
    let mut left = most;
    let mut number = before;
    for entry in entries {
        if left == 0 {
            return number;
        }
        number = number_after(entry, object, number);
        left -= one_if(entry, object);
    }
    number
}

/// Puts the entries of an object above a token, lent, after what is there.
pub(crate) fn put_above<'a>(
    since: &mut Vec<&'a Entry>,
    entries: &'a [Entry],
    object: ObjectId,
    token: u64,
) -> Result<(), OutOfMemory>
    ensures { OnOk result (map (λ entry. entry.now) since.new.items ≡ map (λ entry. entry.now) since.old.items
        ++ filter (is_above token) (history_of object entries.now)) }
{
    for entry in entries {
        put_if_above(since, entry, object, token)?;
    }
    Ok(())
}

/// Puts an entry after what is there, where it is one of the object and above the token.
#[tactic(auto, unfolding(bank_model::specs::Objects::history_of))]
fn put_if_above<'a>(
    since: &mut Vec<&'a Entry>,
    entry: &'a Entry,
    object: ObjectId,
    token: u64,
) -> Result<(), OutOfMemory>
    ensures { OnOk result (map (λ entry. entry.now) since.new.items ≡ map (λ entry. entry.now) since.old.items
        ++ filter (is_above token) (history_of object (entry.now ∷ []))) }
{
    if entry.object.0 == object.0 && token < entry.number {
        since.push(entry)?;
    }
    Ok(())
}
