//! What one entry more does to recurring transfers. Nothing here runs: each contract is a law.

ghost use Rattle.std.specs.Prelude.{◌≡◌, ℕ, ◌||◌, ◌∷◌, ◌++◌, [], List};
ghost use Rattle.bank_model.specs.declared.entry.Entry.{Entry};
ghost use Rattle.bank_model.specs.Models.{model_in, if_model_named, or_model_before, model_of, drops_model, is_model_dropped, next_occurrence};
ghost use Rattle.bank_recur.specs.Growth.{occurrence_after};
ghost use Rattle.bank_recur.specs.ModelsView.{ModelsView, Represents, LeavesModels};

/// The row of a recurring transfer after one entry more is the one that the entry gives to it, or else its row before.
pub fn model_by_one_more()
    ensures { (id : ℕ) (entries : List Entry) (entry : Entry) → model_of id (entries ++ entry ∷ [])
        ≡ or_model_before (model_of id entries) (if_model_named id (model_in entry.change)) }
{}

/// A recurring transfer is cancelled where it was, or where one entry more cancels it.
pub fn model_dropped_by_one_more()
    ensures { (id : ℕ) (entries : List Entry) (entry : Entry) →
        is_model_dropped id (entries ++ entry ∷ []) ≡ (is_model_dropped id entries || drops_model id entry.change) }
{}

/// The occurrence of a recurring transfer's next transfer after one entry more follows from the one before and what the
/// entry says.
pub fn occurrence_by_one_more()
    ensures { (id : ℕ) (entries : List Entry) (entry : Entry) →
        next_occurrence id (entries ++ entry ∷ []) ≡ occurrence_after id (next_occurrence id entries) entry.change }
{}

/// A change of a transfer that no recurring transfer makes leaves the recurring transfers as they are, and so does a mail.
pub fn others_leave_models()
    ensures { (models : ModelsView) (entries : List Entry) (entry : Entry) → Represents models entries
        → LeavesModels entries entry.change → Represents models (entries ++ entry ∷ []) }
{}
