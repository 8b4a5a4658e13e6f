//! Laws of kept records. Nothing here runs: each contract is a law of the coding and of reading.

ghost use Rattle.std.specs.Prelude.{◌≡◌, ◌≢◌, false, ℕ, ◌<◌, ◌≤◌, ◌^◌, ◌⊎◌, ◌↔◌, List, ◌∷◌, ◌++◌, FitsSigned, IfSome, length};
ghost use Rattle.std.specs.Int.{w32, w64};
ghost use Rattle.ofx_types.specs.Calendar.{IsMoment};
ghost use Rattle.ofx_types.specs.declared.number.Moment.{Moment};
ghost use Rattle.bank_model.specs.Rules.{IsLegal};
ghost use Rattle.bank_model.specs.declared.setup.Setup.{Setup};
ghost use Rattle.bank_model.specs.declared.event.State.{State};
ghost use Rattle.bank_model.specs.declared.event.Event.{Event};
ghost use Rattle.record_fields.specs.declared.fault.RecordFault.{RecordFault};
ghost use Rattle.event_codec.specs.Records.{Codes, Reopens};
ghost use Rattle.bank_model.specs.Events.{IsSameEvent, without_signon};
ghost use Rattle.event_codec.specs.Reading.{IsRecordFault};
ghost use Rattle.event_codec.specs.Coding.{coded, object_bytes, asks_bytes};
ghost use Rattle.ofx_types.specs.TextRules.{IsText, IsTrnUid, IsFileUid};
ghost use Rattle.bank_model.specs.Sound.{IsSoundAccount, IsSoundRecur, IsSoundMail, IsSoundObject};
ghost use Rattle.record_fields.specs.PartReading.{acct_at, recur_at, mail_at};
ghost use Rattle.event_codec.specs.AskReading.{object_at, asks_at};
ghost use Rattle.event_codec.specs.AskList.{AreAsks};
ghost use Rattle.record_fields.specs.Fields.{IsBytes, IsField};

/// Objects and lists of asks are read as they are written.
pub fn asks_read_back()
    ensures object { IsField (object_at false) object_bytes IsSoundObject }
    ensures asks { IsField asks_at asks_bytes AreAsks }
{}

/// The events of one record have one moment and are the same: they agree in all but the name and the password of a file's user.
pub fn one_coding()
    ensures { (rec : List ℕ) (at to : Moment) (event other : Event) → Codes rec at event → Codes rec to other
        → (at ≡ to) × IsSameEvent event other }
{}

/// The name and the password of a file's user aren't in its record.
pub fn names_are_not_coded()
    ensures { (at : Moment) (event : Event) → coded at (without_signon event) ≡ coded at event }
{}

/// Each record codes an event or has a fault.
pub fn coded_or_faulty()
    ensures { (rec : List ℕ) → IsBytes rec
        → ((at : Moment) × (event : Event) × Codes rec at event) ⊎ ((fault : RecordFault) × IsRecordFault rec fault) }
{}

/// A record with a fault codes no event.
pub fn faults_code_nothing()
    ensures { (rec : List ℕ) (fault : RecordFault) (at : Moment) (event : Event) → IsRecordFault rec fault → Codes rec at event → ⊥ }
{}

/// No record has two faults.
pub fn one_record_fault()
    ensures { (rec : List ℕ) (fault other : RecordFault) → IsRecordFault rec fault → IsRecordFault rec other → fault ≡ other }
{}

/// The version is the fault exactly where the first byte isn't 1.
pub fn versions_come_first()
    ensures { (rec : List ℕ) (n : ℕ) → IsRecordFault rec (RecordFault.Version n) ↔ ((rest : List ℕ) × (rec ≡ n ∷ rest) × (n ≢ 1)) }
{}

/// A bank comes by its records to one state.
pub fn one_reopening()
    ensures { (setup : Setup) (before : State) (records : List (List ℕ)) (after other : State)
        → Reopens setup before records after → Reopens setup before records other → after ≡ other }
{}

/// A bank that comes by its records to a state goes on from there, and every record is one by which it goes on.
pub fn reopening_goes_on()
    ensures { (setup : Setup) (before : State) (first second : List (List ℕ)) (after : State)
        → Reopens setup before (first ++ second) after
        ↔ ((between : State) × Reopens setup before first between × Reopens setup between second after) }
{}
