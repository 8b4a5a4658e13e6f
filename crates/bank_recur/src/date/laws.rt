//! What holds of the dates of a series and of the days of civil dates. Nothing here runs: each contract is a law.

ghost use Rattle.std.specs.Prelude.{◌≡◌, ◌<◌, ◌≤◌, ◌<ℤ◌, ℕ, ℤ, true, None, Some};
ghost use Rattle.ofx_types.specs.Calendar.{CivilDate, IsDay, civil_of};
ghost use Rattle.ofx_types.specs.DateReading.{is_civil};
ghost use Rattle.ofx_types.specs.declared.number.Day.{Day};
ghost use Rattle.ofx_types.specs.declared.recurring.Freq.{Freq};
ghost use Rattle.bank_model.specs.Recurrence.{day_on, kth_date};

/// The civil date of the day of a date is that date.
pub fn civil_of_its_day()
    ensures { (date : CivilDate) → is_civil date.year date.month date.day ≡ true → civil_of (day_on date) ≡ date }
{}

/// The day of a day's civil date is that day.
pub fn day_of_its_civil_date()
    ensures { (day : ℤ) → IsDay day → day_on (civil_of day) ≡ day }
{}

/// A series begins with its first date.
pub fn series_begins()
    ensures { (first : Day) (freq : Freq) → IsDay first.0 → kth_date first freq 0 ≡ Some first }
{}

/// Each date of a series lies after those of the occurrences before it.
pub fn series_rises()
    ensures { (first a b : Day) (freq : Freq) (j k : ℕ) → IsDay first.0 → kth_date first freq j ≡ Some a
        → kth_date first freq k ≡ Some b → j < k → a.0 <ℤ b.0 }
{}

/// After an occurrence without a date none has one.
pub fn series_ends()
    ensures { (first : Day) (freq : Freq) (j k : ℕ) → IsDay first.0 → kth_date first freq j ≡ None → j ≤ k
        → kth_date first freq k ≡ None }
{}

/// No more occurrences of a series have dates than the calendar has days, and each of its dates is one of those.
pub fn series_has_few_occurrences()
    ensures { (first date : Day) (freq : Freq) (k : ℕ) → IsDay first.0 → kth_date first freq k ≡ Some date
        → (k ≤ 2958463) × IsDay date.0 }
{}
