//! A bank that is served, as the world's bank.

ghost use Rattle.world_laws.specs.BankLaws.{WorldsHaveSoundServers, FreshServersAreSound, SoundServersGoOn, LogsAreRuns, TrialsGoOn, JournalsAreRuns};

use bank_engine::laws::logs_reopen;
use ofx_world::laws_of_records;

/// What the world's invariant says of its bank alone holds of a fresh bank, and each step of a served bank keeps it.
pub fn sound_servers_go_on()
    ensures worlds { WorldsHaveSoundServers }
    ensures fresh { FreshServersAreSound }
    ensures steps { SoundServersGoOn }
{
    laws_of_records();
}

/// Each whole log of a served bank is a run of the world's bank.
pub fn logs_are_runs()
    ensures { LogsAreRuns }
{
    sound_servers_go_on();
    logs_reopen();
}

/// What is pending in a journal may be committed, after each call of its engine.
pub fn trials_go_on()
    ensures { TrialsGoOn }
{}

/// At any time a journal is what a run of the world's bank along its log ends in.
pub fn journals_are_runs()
    ensures { JournalsAreRuns }
{
    sound_servers_go_on();
    logs_reopen();
}
