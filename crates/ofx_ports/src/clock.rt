//! What the time is.

ghost use Rattle.std.specs.Prelude.{List, [], ◌∷◌, Option};
ghost use Rattle.ofx_types.specs.declared.number.Moment.{Moment as TheMoment};
ghost use Rattle.ofx_types.specs.Calendar.{IsMoment};
ghost use Rattle.ofx_ports.specs.Known.{Grows};

use ofx_types::Moment;

/// A clock. It may stand still and may go back.
pub trait Clock {
    // the answers given so far, in order, where they are known
    ghost shown: { Self → Option (List TheMoment) };

    /// The moment that the clock shows. Its year lies from 1900 to 9999.
    fn now(&mut self) -> Moment
        ensures lawful { IsMoment result.0 }
        ensures shown { Grows (shown self.old) (shown self.new) (result ∷ []) };
}
