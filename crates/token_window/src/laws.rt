//! What one entry more does to the histories that windows stand for. Nothing here runs: each contract is a law.

ghost use Rattle.std.specs.Prelude.{◌≡◌, ◌≢◌, ◌∷◌, ◌++◌, [], List};
ghost use Rattle.ofx_types.specs.declared.number.ObjectId.{ObjectId};
ghost use Rattle.bank_model.specs.declared.entry.Entry.{Entry};
ghost use Rattle.bank_model.specs.Objects.{history_of};

/// One entry more is at the end of its object's history, and leaves the history of every other object as it is.
pub fn histories_by_one_more()
    ensures own { (entries : List Entry) (entry : Entry)
        → history_of entry.object (entries ++ entry ∷ []) ≡ history_of entry.object entries ++ entry ∷ [] }
    ensures others { (object : ObjectId) (entries : List Entry) (entry : Entry) → entry.object.0 ≢ object.0
        → history_of object (entries ++ entry ∷ []) ≡ history_of object entries }
{}
