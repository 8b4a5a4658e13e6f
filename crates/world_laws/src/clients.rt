//! Clients beside a served bank.

ghost use Rattle.world_laws.specs.BesideLaws.{NewClientsAreRight, ClientsGoAlong, LogsKeepClients, JournalsKeepClients, NextRunsKeepClients, ActsAreDone};

use crate::bank::{journals_are_runs, logs_are_runs};
use crate::program::acts_are_steps;
use ofx_world::sound_worlds_go_on;

/// Whatever comes to its end in the log of a served bank, and whatever its clients do meanwhile, the world of both stays right:
/// each store of each client holds its object's entries folded up to its token, or is marked lost.
///
/// The log's files are requests of these clients, or strangers': any user's, which leave the names of the files of that user's
/// clients alone.
pub fn clients_stay_right()
    ensures new { NewClientsAreRight }
    ensures along { ClientsGoAlong }
    ensures logs { LogsKeepClients }
    ensures journals { JournalsKeepClients }
    ensures next { NextRunsKeepClients }
    ensures acts { ActsAreDone }
{
    clients_go_along();
    logs_are_runs();
    journals_are_runs();
    acts_are_steps();
    sound_worlds_go_on();
}

/// So it is over any run of the world's bank along a log.
fn clients_go_along()
    ensures { ClientsGoAlong }
{
    sound_worlds_go_on();
}
