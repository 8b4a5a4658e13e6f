//! The moments of frames.

ghost use Rattle.std.specs.Prelude.{◌≡◌, [], ◌∷◌, IsSome};
ghost use Rattle.ofx_types.specs.Calendar.{IsMoment};
ghost use Rattle.bank_arguments.specs.Bounds.{IsLawful};
ghost use Rattle.bank_session.specs.Answers.{AreMoments};

use ofx_ports::Clock;
use ofx_types::Moment;

/// The moment of the next frame: that of the arguments, and where they name none that of the clock, which is read once.
pub fn next_moment<C: Clock>(at: Option<Moment>, clock: &mut C) -> Moment
    requires { IsLawful at }
    ensures lawful { IsMoment result.0 }
    ensures moments { AreMoments at (C.shown clock.old) (C.shown clock.new) (result ∷ []) }
    ensures still { IsSome at → clock.new ≡ clock.old }
{
    match at {
        Some(moment) => moment,
        None => clock.now(),
    }
}
