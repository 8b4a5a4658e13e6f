//! All stores of a client at once.

ghost use Rattle.world_laws.specs.ClientActs.{ActsKeepStores};

use client_laws::all_stores_hold;
use ofx_file::laws::one_reply;

/// After any acts of a client each of its stores holds its object's entries up to its token, or is marked lost, whatever the bank
/// does meanwhile, where the replies that it takes in are of this bank.
pub fn acts_keep_stores()
    ensures { ActsKeepStores }
{
    all_stores_hold();
    one_reply();
}
