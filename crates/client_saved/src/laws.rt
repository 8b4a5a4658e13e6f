//! Laws of saved texts. Nothing here runs: each contract is a law of the coding and of reading.

ghost use Rattle.std.specs.Prelude.{◌≡◌, ◌↔◌, ℕ, ◌⊎◌, true, List, Ok};
ghost use Rattle.ofx_types.specs.declared.sync.ObjectName.{ObjectName};
ghost use Rattle.record_fields.specs.Fields.{IsBytes};
ghost use Rattle.client_saved.specs.declared.state.ClientState.{ClientState};
ghost use Rattle.client_saved.specs.Bounds.{IsSoundState, same_object};
ghost use Rattle.client_saved.specs.Coding.{state_text};
ghost use Rattle.client_saved.specs.Reading.{state_read};
ghost use Rattle.client_saved.specs.SavedText.{IsCounted, IsSavedText, IsFirstFault};

/// The text of every state whose values are within their bounds reads back as that state.
pub fn texts_read_back()
    ensures { (state : ClientState) → IsSoundState state → IsCounted state.stores → state_read (state_text state) ≡ Ok state }
{}

/// What a text reads as has that text.
pub fn read_texts_are_written()
    ensures { (text : List ℕ) (state : ClientState) → IsBytes text → state_read text ≡ Ok state → IsSavedText text state }
{}

/// A text is the saved text of one state alone.
pub fn one_state()
    ensures { (text : List ℕ) (state other : ClientState) → IsSavedText text state → IsSavedText text other → state ≡ other }
{}

/// Each text is the saved text of a state or has a fault.
pub fn saved_or_faulty()
    ensures { (text : List ℕ) → IsBytes text
        → ((state : ClientState) × IsSavedText text state) ⊎ ((at : ℕ) × IsFirstFault text at) }
{}

/// A text with a fault is the saved text of no state.
pub fn faults_save_nothing()
    ensures { (text : List ℕ) (at : ℕ) (state : ClientState) → IsFirstFault text at → IsSavedText text state → ⊥ }
{}

/// No text has two first faults.
pub fn one_first_fault()
    ensures { (text : List ℕ) (at other : ℕ) → IsFirstFault text at → IsFirstFault text other → at ≡ other }
{}

/// Names that are one object's are equal.
pub fn same_objects_are_equal()
    ensures { (object other : ObjectName) → same_object object other ≡ true ↔ object ≡ other }
{}
