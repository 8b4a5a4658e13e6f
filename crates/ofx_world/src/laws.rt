//! The laws of sound worlds, and those of the crates below from which they are proved. Nothing here runs.

ghost use Rattle.ofx_world.specs.GoingOn.{BanksKeepWorlds, SoundWorlds, StepsKeepWorlds};
ghost use Rattle.ofx_world.specs.Laws.{HistoryLaws, Laws, RecordLaws, ReplyLaws, StoreLaws};

use bank_invariants::laws::due::due_work_is_legal;
use bank_invariants::laws::files::{kept_files_change_nothing, names_stay_kept};
use bank_invariants::laws::states::every_state_is_sound;
use bank_replay::laws::{reopened_books_are_right, reopenings_are_runs};
use client_laws::{all_stores_hold, bank_replies_answer};
use client_saved::laws::one_state;
use event_codec::laws::{one_reopening, reopening_goes_on};
use ofx_file::laws::{one_file, one_reply};
use reply_laws::{new_replies_read_back, reported_states_last, requests_read_back};
use sync_laws::{histories_are_in_order, histories_grow};

/// A world that begins is sound, whatever its clients and its bank do leaves it sound, and what is said of every world is true of
/// a sound one. The bank may commit any legal event, for a client, for a stranger or by itself.
pub fn sound_worlds_go_on()
    ensures worlds { SoundWorlds }
    ensures steps { StepsKeepWorlds }
    ensures banks { BanksKeepWorlds }
{
    laws_below();
}

/// What holds of banks, clients, files and records.
pub(crate) fn laws_below()
    ensures { Laws }
{
    laws_of_histories();
    laws_of_stores();
    laws_of_replies();
    laws_of_records();
}

fn laws_of_histories()
    ensures { HistoryLaws }
{
    histories_are_in_order();
    histories_grow();
}

fn laws_of_stores()
    ensures { StoreLaws }
{
    all_stores_hold();
    bank_replies_answer();
}

fn laws_of_replies()
    ensures { ReplyLaws }
{
    kept_files_change_nothing();
    names_stay_kept();
    new_replies_read_back();
    requests_read_back();
    one_reply();
    one_file();
}

/// A bank comes by its records to one state, which is sound and may be reported.
pub fn laws_of_records()
    ensures { RecordLaws }
{
    reopening_goes_on();
    one_reopening();
    reopenings_are_runs();
    reopened_books_are_right();
    every_state_is_sound();
    reported_states_last();
    due_work_is_legal();
    one_state();
}
