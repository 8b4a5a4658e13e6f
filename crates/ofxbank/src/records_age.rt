//! How far the records lie behind the machine's clock.

ghost use Rattle.std.specs.Prelude.{◌≡◌, false};

use crate::totals::last_moment;
use ofx_ports::{Clock, Keeper, SystemClock};
use record_files::Cause;

/// The seconds of a day.
const DAY: i64 = 86_400;

/// Why a run may not begin: the newest of these records lies more days behind the machine's clock than it may. None where that
/// isn't asked, where there are no records, and where they can't be read, which the run meets.
pub fn behind<K: Keeper>(rt: &HostRuntime, keeper: &mut K, max_days: Option<u64>) -> Option<Cause>
    requires { K.unsettled keeper.old ≡ false }
    ensures settled { K.unsettled keeper.new ≡ false }
{
    let most = max_days?;
    if keeper.len() == 0 {
        return None;
    }
    match last_moment(rt.alloc(), keeper) {
        Ok(last) => behind_clock(rt, last, most),
        Err(_) => None,
    }
}

/// Whether this moment lies more days behind the clock than these.
fn behind_clock(rt: &HostRuntime, moment: i64, most: u64) -> Option<Cause> {
    let now = SystemClock::new(*rt).now().0;
    match u64::try_from(now.saturating_sub(moment) / DAY) {
        Ok(days) if days > most => Some(Cause::Behind(days)),
        _ => None,
    }
}
