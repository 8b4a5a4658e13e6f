//! How a posting leads back to earlier ones of an account's key: to the one before it, and over many at once.

ghost use Rattle.std.specs.Prelude.{◌≡◌, if◌then◌else◌, int_lt};
ghost use Rattle.bank_transfers.specs.SkipLink as link;

use crate::posted::is_before;
use ofx_types::Moment;

/// The way back from a posting. Positions count from 1, and 0 is none.
#[derive(Clone, Copy)]
pub(crate) struct SkipLink {
    // the position of the last posting of the key before it
    pub(crate) before: usize,
    // the position of one of the key no later than that, or 0
    pub(crate) skip: usize,
    // Skips over equally many postings of the key have the same rank.
    pub(crate) rank: u8,
    // No stamp of the postings of the key that come after `skip`, up to its own, is earlier or later.
    least: Moment,
    greatest: Moment,
}

impl SkipLink {
    /// Back to the one before it, over its own posting alone.
    pub(crate) fn to(before: usize, stamp: Moment) -> SkipLink
        ensures { result ≡ record { before = before; skip = before; rank = 0; least = stamp; greatest = stamp } }
    {
        SkipLink {
            before,
            skip: before,
            rank: 0,
            least: stamp,
            greatest: stamp,
        }
    }

    /// Back over its own posting and over all that two links skip: that of the one before it, and of the one where that lands.
    pub(crate) fn over(before: usize, stamp: Moment, last: SkipLink, earlier: SkipLink) -> SkipLink
        ensures before { result.before ≡ before }
        ensures skip { result.skip ≡ earlier.skip }
        ensures least { result.least ≡ link.earliest stamp (link.earliest last.least earlier.least) }
        ensures greatest { result.greatest ≡ link.latest stamp (link.latest last.greatest earlier.greatest) }
    {
        SkipLink {
            before,
            skip: earlier.skip,
            rank: last.rank.wrapping_add(1),
            least: earliest(stamp, earliest(last.least, earlier.least)),
            greatest: latest(stamp, latest(last.greatest, earlier.greatest)),
        }
    }

    /// The next position to look at for postings of a period: `skip` where none of those skipped is in it, and else `before`.
    pub(crate) fn next(&self, period: (Moment, Option<Moment>)) -> usize
        ensures { result ≡ link.next self.now period.0 period.1 }
    {
        if self.is_outside(period) {
            self.skip
        } else {
            self.before
        }
    }

    /// Whether all moments from its least stamp to its greatest are before the period, or all after it.
    fn is_outside(&self, period: (Moment, Option<Moment>)) -> bool
        ensures { result ≡ link.is_outside self.now period.0 period.1 }
    {
        self.greatest.0 < period.0.0 || !is_before(self.least, period.1)
    }
}

/// The earlier of two moments.
fn earliest(moment: Moment, other: Moment) -> Moment
    ensures { result ≡ link.earliest moment other }
{
    if other.0 < moment.0 { other } else { moment }
}

/// The later of two moments.
fn latest(moment: Moment, other: Moment) -> Moment
    ensures { result ≡ link.latest moment other }
{
    if moment.0 < other.0 { other } else { moment }
}
