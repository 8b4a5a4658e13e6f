//! A recurring transfer as it is held: its row, and the date of its next transfer.

ghost use Rattle.std.specs.Prelude.{◌≡◌, ◌+◌, ◌<◌, true, false};
ghost use Rattle.ofx_types.specs.Calendar.{IsDay};
ghost use Rattle.bank_model.specs.Due.{date_in_series, is_below_count};
ghost use Rattle.bank_recur.specs.ModelsView.{Series};
ghost use Rattle.bank_recur.specs.Spawning.{date_ahead, date_by};

use crate::date::date_of;
use ofx_types::{Day, ModelRow};
use std::marker::Model;

/// A recurring transfer. The date of its next transfer is kept, so that looking for the next one computes no dates.
#[derive(Drop)]
pub(crate) struct HeldSeries {
    row: ModelRow,
    cancelled: bool,
    occurrence: u32,
    next: Option<Day>,
}

impl Model for HeldSeries {
    ghost use Rattle.bank_recur.specs.ModelsView.{Series};
    ghost use Rattle.bank_recur.specs.Spawning.{IsNext};

    ghost Value = { Series };

    ghost view = { λ held. record { row = held.row; cancelled = held.cancelled; occurrence = held.occurrence } };

    ghost invariant = { λ held. IsNext held.row held.occurrence held.next };
}

impl HeldSeries {
    /// A new recurring transfer.
    pub(crate) fn new(row: ModelRow) -> HeldSeries
        requires { IsDay row.first.0 }
        ensures { result ≡ record { row = row; cancelled = false; occurrence = 0 } }
    {
        let next = date_at(&row, 0);
        HeldSeries {
            row,
            cancelled: false,
            occurrence: 0,
            next,
        }
    }

    /// Its row.
    pub(crate) fn row(&self) -> &ModelRow
        ensures { result.now ≡ self.now.row }
    {
        &self.row
    }

    /// Whether it is cancelled.
    pub(crate) fn is_cancelled(&self) -> bool
        ensures { result ≡ self.now.cancelled }
    {
        self.cancelled
    }

    /// The occurrence of its next transfer in the series, from 0.
    pub(crate) fn occurrence(&self) -> u32
        ensures { result ≡ self.now.occurrence }
    {
        self.occurrence
    }

    /// The date of its next transfer, where it makes one.
    pub(crate) fn date_ahead(&self) -> Option<Day>
        ensures { result ≡ date_ahead self.now }
    {
        if self.cancelled { None } else { self.next }
    }

    /// The date of the next transfer that it makes by a last day.
    pub(crate) fn date_by(&self, last: Day) -> Option<Day>
        ensures { result ≡ date_by last self.now }
    {
        if self.cancelled {
            return None;
        }
        match self.next {
            Some(day) if day.0 <= last.0 => Some(day),
            _ => None,
        }
    }

    /// Has this row from now on, and begins anew.
    pub(crate) fn begin_anew(&mut self, row: ModelRow)
        requires { IsDay row.first.0 }
        ensures { self.new ≡ record { row = row; cancelled = self.old.cancelled; occurrence = 0 } }
    {
        self.next = date_at(&row, 0);
        self.occurrence = 0;
        self.row = row;
    }

    /// Is cancelled.
    pub(crate) fn cancel(&mut self)
        ensures { self.new ≡ record { row = self.old.row; cancelled = true; occurrence = self.old.occurrence } }
    {
        self.cancelled = true;
    }

    /// Has made its next transfer.
    pub(crate) fn step(&mut self)
        requires { self.old.occurrence < 4294967295 }
        ensures { self.new
            ≡ record { row = self.old.row; cancelled = self.old.cancelled; occurrence = self.old.occurrence + 1 } }
    {
        self.occurrence += 1;
        self.next = date_at(&self.row, self.occurrence);
    }
}

/// The date of the transfer at that occurrence of a series, where it has one there.
fn date_at(row: &ModelRow, occurrence: u32) -> Option<Day>
    requires { IsDay row.now.first.0 }
    ensures { result ≡ date_in_series row.now occurrence }
{
    if is_below(occurrence, row.recur.count) {
        date_of(row.first, row.recur.freq, occurrence)
    } else {
        None
    }
}

/// Whether the occurrence, from 0, is below the count, where there is one.
fn is_below(occurrence: u32, count: Option<u32>) -> bool
    ensures { result ≡ is_below_count occurrence count }
{
    match count {
        Some(count) => occurrence < count,
        None => true,
    }
}
