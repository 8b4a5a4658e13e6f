//! A whole saved text.

ghost use Rattle.std.specs.Prelude.{◌≡◌, ℕ, ◌≤◌, ◌++◌, ◌⊎◌, length, Ok, Err, IfOk, OnOk, IsErrAnd};
ghost use Rattle.record_fields.specs.Answers.{ReadsField};
ghost use Rattle.client_saved.specs.declared.state.ClientState.{ClientState};
ghost use Rattle.client_saved.specs.declared.state.StoreFault.{StoreFault};
ghost use Rattle.client_saved.specs.Bounds.{IsSoundState};
ghost use Rattle.client_saved.specs.Coding.{state_text};
ghost use Rattle.client_saved.specs.Reading.{coding_at, state_at, state_read};
ghost use Rattle.client_saved.specs.SavedText.{IsCounted, IsSavedText, IsFirstFault, GivesState};

use crate::name::get_name;
use crate::outstanding::{get_optional_outstanding, put_optional_outstanding};
use crate::state::{ClientState, StoreFault};
use crate::store::{get_stores, put_stores};
use ofx_types::OutOfMemory;
use record_fields::{
    RecordFault, get_file_uid, get_filled_text, get_id, get_u8, put_file_uid, put_text, put_u8,
    put_u64,
};
use std::alloc::Global;

/// The version of the coding.
const CODING: u8 = 1;

/// The saved text of what a client knows, whose values are within their bounds.
///
/// ```rust
/// use client_saved::{ClientState, StoreFault, read_state, write_state};
/// use ofx_types::{Sequence, Text};
///
/// let alloc = rt.alloc();
/// let state = ClientState {
///     name: Text::new(alloc, b"c1", 12).expect(&rt, "a name"),
///     user: Text::new(alloc, b"alice", 32).expect(&rt, "a user"),
///     next: 1,
///     done: None,
///     outstanding: None,
///     stores: Sequence::new(alloc),
/// };
/// let text = write_state(alloc, &state).expect(&rt, "room");
/// let read = read_state(alloc, &text).expect(&rt, "the same state");
/// assert!(rt; read.name == state.name && read.user == state.user && read.next == 1);
/// assert!(rt; read_state(alloc, b"").err() == Some(StoreFault::Bad(0)));
/// ```
pub fn write_state(alloc: Global, state: &ClientState) -> Result<Vec<u8>, OutOfMemory>
    requires { IsSoundState state.now }
    ensures { IfOk result (λ text. IsSavedText text.items state.now) }
{
    let mut out = Vec::new(alloc);
    put_state(state, &mut out)?;
    Ok(out)
}

#[tactic(auto, unfolding(crate::specs::Coding::state_text))]
fn put_state(state: &ClientState, out: &mut Vec<u8>) -> Result<(), OutOfMemory>
    requires { IsSoundState state.now }
    ensures bytes { OnOk result (out.new.items ≡ out.old.items ++ state_text state.now) }
    ensures counted { OnOk result (IsCounted state.now.stores) }
{
    put_u8(&CODING, out)?;
    put_text(&state.name, out)?;
    put_text(&state.user, out)?;
    put_u64(&state.next, out)?;
    put_file_uid(&state.done, out)?;
    put_optional_outstanding(&state.outstanding, out)?;
    put_stores(state.stores.items(), out)
}

/// What a client knows, as a saved text says it.
///
/// `Bad(at)` exactly where the text isn't one of a client. The fields are looked at from the left: the first without a form
/// begins at `at`, or all have one and more bytes follow from `at` on. An object that has a store already, and a row that isn't
/// of its store's family or whose id isn't above the one before it, have no form at their first byte. The file that waits for its
/// reply has the client's user and an empty password.
pub fn read_state(alloc: Global, text: &[u8]) -> Result<ClientState, StoreFault>
    // The text is the saved text of what is found.
    ensures found { IfOk result (λ state. IsSavedText text.now state) }
    // What the text is the saved text of is found, unless memory is refused.
    ensures only { (state : ClientState) → IsSavedText text.now state → GivesState result (Ok state) }
    // A refusal is at the first fault, or memory was refused.
    ensures fault { (at : ℕ) → result ≡ Err (StoreFault.Bad at) → IsFirstFault text.now at }
    // A text with a fault is refused.
    ensures faulty { (at : ℕ) → IsFirstFault text.now at
        → IsErrAnd result (λ reported. (reported ≡ StoreFault.Bad at) ⊎ (reported ≡ StoreFault.OutOfMemory)) }
{
    read_text(alloc, text)
}

fn read_text(alloc: Global, text: &[u8]) -> Result<ClientState, StoreFault>
    ensures { GivesState result (state_read text.now) }
{
    match read_whole(alloc, text) {
        Ok(state) => Ok(state),
        Err(RecordFault::Bad(at)) => Err(StoreFault::Bad(at)),
        Err(RecordFault::OutOfMemory) => Err(StoreFault::OutOfMemory),
        // Nothing but a whole record is of a version.
        Err(RecordFault::Version(_)) => unreachable!(),
    }
}

#[tactic(auto, unfolding(crate::specs::Reading::state_read))]
fn read_whole(alloc: Global, text: &[u8]) -> Result<ClientState, RecordFault>
    ensures { ReadsField result (state_read text.now) }
{
    let (state, next) = get_state(alloc, text, 0)?;
    if next != text.len() {
        return Err(RecordFault::Bad(next as u64));
    }
    Ok(state)
}

#[tactic(auto, unfolding(crate::specs::Reading::coding_at))]
fn get_coding(text: &[u8], at: usize) -> Result<(u8, usize), RecordFault>
    requires { at ≤ length text.now }
    ensures gives { ReadsField result (coding_at text.now at) }
    ensures within { IfOk result (λ found. found.1 ≤ length text.now) }
{
    let (version, next) = get_u8(text, at)?;
    if version != CODING {
        return Err(RecordFault::Bad(at as u64));
    }
    Ok((version, next))
}

#[tactic(auto, unfolding(crate::specs::Reading::state_at))]
fn get_state(alloc: Global, text: &[u8], at: usize) -> Result<(ClientState, usize), RecordFault>
    requires { at ≤ length text.now }
    ensures gives { ReadsField result (state_at text.now at) }
    ensures within { IfOk result (λ found. found.1 ≤ length text.now) }
{
    let (_, next) = get_coding(text, at)?;
    let (name, next) = get_name(alloc, text, next)?;
    let (user, next) = get_filled_text(alloc, text, next, 32)?;
    let (number, next) = get_id(text, next)?;
    let (done, next) = get_file_uid(text, next)?;
    let (outstanding, next) = get_optional_outstanding(alloc, &user, text, next)?;
    let (stores, next) = get_stores(alloc, text, next)?;
    let state = ClientState {
        name,
        user,
        next: number,
        done,
        outstanding,
        stores,
    };
    Ok((state, next))
}
