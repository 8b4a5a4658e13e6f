//! What holds of the entries of a bank's history. Nothing here runs: each contract is a law.

ghost use Rattle.std.specs.Prelude.{◌≡◌, ℕ, ◌||◌, ◌∷◌, ◌++◌, [], List, None, false};
ghost use Rattle.std.specs.List.{All};
ghost use Rattle.bank_model.specs.declared.entry.Entry.{Entry};
ghost use Rattle.bank_model.specs.declared.setup.Setup.{Setup};
ghost use Rattle.bank_model.specs.SetupForm.{IsWithinLimits, openings};
ghost use Rattle.bank_model.specs.Ledger.{row_in, drops, is_dropped, row_of, posting_of, moved};
ghost use Rattle.bank_transfers.specs.Growth.{row_after};
ghost use Rattle.bank_transfers.specs.Lawful.{IsLawful, AreLawful, PostsOnce};
ghost use Rattle.bank_transfers.specs.Together.{IsInside, balances};
ghost use Rattle.bank_transfers.specs.TransfersView.{TransfersView, Represents};

/// One entry more moves what it posts, after all that was moved.
pub fn moved_by_one_more()
    ensures { (entries : List Entry) (entry : Entry) →
        moved (entries ++ entry ∷ []) ≡ moved entries ++ posting_of entry.number (row_in entry.change) }
{}

/// A transfer is dropped where it was, or where one entry more drops it.
pub fn dropped_by_one_more()
    ensures { (id : ℕ) (entries : List Entry) (entry : Entry) →
        is_dropped id (entries ++ entry ∷ []) ≡ (is_dropped id entries || drops id entry.change) }
{}

/// The row of a transfer after one entry more follows from its row before and what the entry says.
pub fn row_by_one_more()
    ensures { (id : ℕ) (entries : List Entry) (entry : Entry) → row_of id (entries ++ entry ∷ [])
        ≡ row_after id (is_dropped id entries) (row_of id entries) entry.change }
{}

/// Transfers inside the bank neither make money nor lose any: whatever was posted, all balances together are all
/// openings together.
pub fn money_stays()
    ensures { (setup : Setup) (entries : List Entry) → IsWithinLimits setup → All (IsInside setup) (moved entries)
        → balances setup entries ≡ openings setup.accounts }
{}

/// Transfers that represent entries also represent them with one more that gives no transfer a row and drops none, like an
/// entry of a recurring transfer.
pub fn models_leave_transfers()
    ensures { (transfers : TransfersView) (entries : List Entry) (entry : Entry) → Represents transfers entries
        → row_in entry.change ≡ None → ((id : ℕ) → drops id entry.change ≡ false)
        → Represents transfers (entries ++ entry ∷ []) }
{}

/// Lawful entries stay so with one more that is lawful after them.
pub fn lawful_by_one_more()
    ensures { (entries : List Entry) (entry : Entry) → AreLawful entries → IsLawful entries entry.change
        → AreLawful (entries ++ entry ∷ []) }
{}

/// No transfer posts twice, where each entry sets or cancels only a transfer that waits, and a new transfer is new.
pub fn transfers_post_once()
    ensures { (entries : List Entry) → AreLawful entries → PostsOnce entries }
{}
