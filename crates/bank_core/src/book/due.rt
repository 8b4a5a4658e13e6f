//! Which event the bank makes next by itself.

ghost use Rattle.std.specs.Prelude.{◌≡◌, IfSome};
ghost use Rattle.ofx_types.specs.Calendar.{IsMoment, IsDay};
ghost use Rattle.bank_model.specs.SetupForm.{IsWithinLimits};
ghost use Rattle.bank_model.specs.Due as rules;
ghost use Rattle.bank_model.specs.Rules.{due, IsLegal};

use crate::book::Book;
use crate::book::answer::later;
use bank_model::{Event, Printer, Setup};
use ofx_types::{Day, Moment};

impl<P: Printer> Book<P> {
    /// What is due first at a moment: the recurring transfer with the earliest date makes its next transfer, or where none
    /// has one to make the transfer with the earliest due day is posted. Takes no memory.
    pub fn due(&self, at: Moment) -> Option<Event>
        requires { IsMoment at.0 }
        ensures first { result ≡ due self.now.setup self.now.state at }
        ensures legal { IfSome result (λ event. IsLegal self.now.setup self.now.state at event) }
    {
        self.first_due(at)
    }

    /// The transfer that is to be made first, or where there is none the one that is to be posted first.
    fn first_due(&self, at: Moment) -> Option<Event>
        requires { IsMoment at.0 }
        ensures { result ≡ due self.now.setup self.now.state at }
    {
        if self.next_number().is_none() {
            return None;
        }
        let day = later(self.ledger.day(), at);
        match self.ledger.next_spawn(last_day(&self.setup, day)) {
            Some(next) => Some(Event::Spawn(next.0, next.1)),
            None => match self.ledger.next_post(day) {
                Some(id) => Some(Event::Post(id)),
                None => None,
            },
        }
    }
}

/// The last day for which transfers are made ready on a business day.
pub(super) fn last_day(setup: &Setup, day: Day) -> Day
    requires within { IsWithinLimits setup.now }
    requires day { IsDay day.0 }
    ensures { result ≡ rules.last_day setup.now day }
{
    Day(day.0 + setup.lead as i32)
}
