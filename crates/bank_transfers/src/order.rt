//! Keys in order, each once, found by binary search.

ghost use Rattle.std.specs.Prelude.{◌≡◌, ◌+◌, ◌<◌, ◌≤◌, ◌||◌, ◌&&◌, not, vec_len, vec_capacity};
ghost use Rattle.std.specs.List.Sorted.{IsStrictlySortedBy};
ghost use Rattle.std.specs.Ordering.{eq_by_cmp};
ghost use Rattle.bank_transfers.specs.Order.{has};

/// Inserts a key in order, unless it is there. There is room for it, and it takes no memory.
pub(crate) fn put_key<K: Ord + Drop>(keys: &mut Vec<K>, key: K)
    requires sorted { IsStrictlySortedBy K.cmp keys.old.items }
    requires room { vec_len keys.old < vec_capacity keys.old }
    ensures sorted { IsStrictlySortedBy K.cmp keys.new.items }
    ensures has { (other : K) → has K.cmp keys.new.items other ≡ (eq_by_cmp K.cmp other key || has K.cmp keys.old.items other) }
    ensures len { vec_len keys.new ≤ vec_len keys.old + 1 }
    ensures capacity { vec_capacity keys.old ≤ vec_capacity keys.new }
{
    match keys.binary_search(&key) {
        Ok(_there) => {}
        Err(index) => {
            let put: Result<_, _> = keys.insert(index, key);
            put.unwrap();
        }
    }
}

/// Takes a key out, where it is there.
pub(crate) fn remove_key<K: Ord + Drop>(keys: &mut Vec<K>, key: &K)
    requires sorted { IsStrictlySortedBy K.cmp keys.old.items }
    ensures sorted { IsStrictlySortedBy K.cmp keys.new.items }
    ensures has { (other : K) → has K.cmp keys.new.items other ≡ (has K.cmp keys.old.items other && not (eq_by_cmp K.cmp other key.now)) }
    ensures len { vec_len keys.new ≤ vec_len keys.old }
    ensures capacity { vec_capacity keys.old ≤ vec_capacity keys.new }
{
    match keys.binary_search(key) {
        Ok(index) => {
            let _gone = keys.remove(index);
        }
        Err(_absent) => {}
    }
}
