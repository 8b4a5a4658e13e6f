//! Where records are kept for good.

ghost use Rattle.std.specs.Prelude.{◌≡◌, ℕ, ◌-◌, ◌≤◌, ⊤, Bool, false, List, [], Option, Result, length, slice_get, Some, is_ok, IfOk, IfSome, OnOk, OnErr, IsErr, IsErrOf};
ghost use Rattle.ofx_ports.specs.Faults.{CountsFaults};
ghost use Rattle.ofx_ports.specs.Known.{Stays};
ghost use Rattle.ofx_ports.specs.Kept.{Appended, KnowsLanding, counted, stands_if};
ghost use Rattle.ofx_ports.specs.declared.fault.PutFault.{PutFault};

use crate::fault::{Failed, FetchFault, PutFault};

/// Records in the order in which they were appended, numbered from 1. A record is any bytes.
///
/// After an append that failed the record may be stored or not. This is then to be settled, and until it is, only
/// `settle` and `faults` may be called.
///
/// ```rust
/// use ofx_ports::{Keeper, MemKeeper, PutFault};
///
/// // A keeper in memory, whose second call fails though its record is stored.
/// let mut keeper = MemKeeper::failing(rt.alloc(), &[2], &[2]).expect(&rt, "a keeper");
/// keeper.append(b"one").expect(&rt, "a record that is stored");
/// assert!(rt; keeper.append(b"two") == Err(PutFault::Failed));
/// // That is settled before any other call.
/// assert!(rt; keeper.settle() == Ok(true));
/// let mut record = Vec::new(rt.alloc());
/// keeper.fetch(2, &mut record).expect(&rt, "the record");
/// assert!(rt; keeper.len() == 2 && record.as_slice() == b"two".as_slice());
/// ```
pub trait Keeper: Drop {
    // the records that are stored, oldest first, where they are known
    ghost records: { Self → Option (List (List ℕ)) };

    // the number of records, without one that is to be settled
    ghost size: { Self → ℕ };

    // whether an append failed and is not settled
    ghost unsettled: { Self → Bool };

    // whether the record that is to be settled is at the end, where this is known
    ghost landed: { Self → Option Bool };

    // how many of its calls failed
    ghost faults: { Self → ℕ };

    // what else is known of an append of these bytes that ended so
    ghost appends: { Self → Self → List ℕ → Result (Unit {0}) PutFault → Type 0 } = { λ _ _ _ _. ⊤ };

    // what else is known of a settling: whether the record is stored, or nothing where it failed
    ghost settles: { Self → Self → Option Bool → Type 0 } = { λ _ _ _. ⊤ };

    /// Appends a record.
    ///
    /// - `Failed` only where the count of faults rose in this call. The records are as before or have this one at
    ///   their end, and this is to be settled.
    /// - `OutOfMemory`: the records are as before, and nothing is to be settled.
    fn append(&mut self, rec: &[u8]) -> Result<(), PutFault>
        requires { unsettled self.old ≡ false }
        ensures list { Appended (records self.old) (records self.new) (landed self.new) (unsettled self.new) rec.now result }
        ensures size { size self.new ≡ counted (size self.old) (is_ok result) }
        ensures faults { CountsFaults (faults self.old) (faults self.new) (IsErrOf result PutFault.Failed) }
        ensures appends { appends self.old self.new rec.now result };

    /// Answers whether the record of the append that failed is stored, and from then on nothing is to be settled. Where
    /// nothing was to be settled the answer is `false`.
    ///
    /// `Failed` only where the count of faults rose in this call. It is then still to be settled.
    fn settle(&mut self) -> Result<bool, Failed>
        ensures list { Stays (records self.old) (records self.new) }
        ensures answer { IfOk result (KnowsLanding (unsettled self.old) (landed self.old)) }
        ensures settled { OnOk result (unsettled self.new ≡ false) }
        ensures size { IfOk result (λ holds. size self.new ≡ counted (size self.old) holds) }
        ensures open { OnErr result (unsettled self.new ≡ unsettled self.old) }
        ensures kept { OnErr result ((landed self.new ≡ landed self.old) × (size self.new ≡ size self.old)) }
        ensures faults { CountsFaults (faults self.old) (faults self.new) (IsErr result) }
        ensures settles { settles self.old self.new (stands_if result) };

    /// Puts the record of this number into `into`, in place of what it held.
    ///
    /// - `Failed` only where the count of faults rose in this call.
    /// - `OutOfMemory`.
    ///
    /// After a refusal `into` is empty.
    fn fetch(&mut self, number: u64, into: &mut Vec<u8>) -> Result<(), FetchFault>
        requires settled { unsettled self.old ≡ false }
        requires first { 1 ≤ number }
        requires last { number ≤ size self.old }
        ensures found { OnOk result (IfSome (records self.old) (λ rs. slice_get rs (number - 1) ≡ Some into.new.items)) }
        ensures refused { OnErr result (into.new.items ≡ []) }
        ensures list { Stays (records self.old) (records self.new) }
        ensures size { size self.new ≡ size self.old }
        ensures settled { unsettled self.new ≡ false }
        ensures faults { CountsFaults (faults self.old) (faults self.new) (IsErrOf result FetchFault.Failed) };

    /// The number of records.
    fn len(&self) -> u64
        requires { unsettled self.now ≡ false }
        ensures size { result ≡ size self.now }
        ensures known { IfSome (records self.now) (λ rs. result ≡ length rs) };

    /// How many calls failed so far. The count stays at 2^64 - 1.
    fn faults(&self) -> u64
        ensures { result ≡ faults self.now };
}
