//! A setup read from its bytes, line by line.

ghost use Rattle.std.specs.Prelude.{◌≡◌, ◌≤◌, ◌<◌, ◌+◌, ℕ, length, take, IfOk, IfErr};
ghost use Rattle.bank_model.specs.SetupForm.{SpellsSetup};
ghost use Rattle.bank_model.specs.SetupFault.{IsSetupFault, lines_in};
ghost use Rattle.bank_model.specs.SetupOutcome.{IsRefusalOf, NamesFaultOf, Answers};
ghost use Rattle.bank_model.specs.SetupReading.{ReadsSetup, unread, with_lines, left_in, IsBounded, objects_fit, setup_at};
ghost use Rattle.bank_model.specs.declared.setup.Setup.{Setup};

use crate::setup::draft::SetupDraft;
use crate::setup::lines::first_line;
use crate::setup::{Setup, SetupFault};
use std::alloc::Global;

/// The most bytes of a setup.
const MAX_BYTES: usize = 262_144;

/// The most entries that may be kept for synchronisation: the window times the objects.
const MAX_WINDOW_ENTRIES: u64 = 1_000_000;

/// The first bytes of a setup, as many as it may have.
fn prefix(bytes: &[u8]) -> &[u8]
    ensures bytes { result.now ≡ take 262144 bytes.now }
    ensures few { length result.now ≤ 262144 }
{
    if bytes.len() > MAX_BYTES {
        &bytes[..MAX_BYTES]
    } else {
        bytes
    }
}

/// The whole lines taken into a draft, the number of the line after them, and what is left of it.
fn read_lines(alloc: Global, bytes: &[u8]) -> Result<(SetupDraft, u64, &[u8]), SetupFault>
    requires { length bytes.now ≤ 262144 }
    ensures read { ReadsSetup (λ x. x.0) result (with_lines 1 unread (lines_in bytes.now)) }
    ensures suffix { IfOk result (λ x. x.1 ≡ length (lines_in bytes.now) + 1) }
    ensures left { IfOk result (λ x. x.2.now ≡ left_in bytes.now) }
    ensures bounded { IfOk result (λ x. IsBounded x.0.setup) }
{
    let mut draft = SetupDraft::new(alloc)?;
    let mut number = 1u64;
    let mut rest = bytes;
    while let Some((line, suffix)) = first_line(rest) {
        if !draft.take(alloc, number, line)? {
            return Err(SetupFault::SetupLine(number));
        }
        number += 1;
        rest = suffix;
    }
    Ok((draft, number, rest))
}

/// Whether the entries that are kept for all objects are few enough. Each account has three objects and each
/// user one.
fn keeps_few(setup: &Setup) -> bool
    requires { IsBounded setup.now }
    ensures { result ≡ objects_fit setup.now }
{
    let accounts = setup.accounts.items().len() as u64;
    let users = setup.users.items().len() as u64;
    u64::from(setup.window) * (3 * accounts + users) <= MAX_WINDOW_ENTRIES
}

/// The setup of all the bytes.
#[tactic(auto, unfolding(crate::specs::SetupReading::setup_at))]
fn whole(alloc: Global, bytes: &[u8]) -> Result<Setup, SetupFault>
    ensures { ReadsSetup (λ x. x) result (setup_at bytes.now) }
{
    let (draft, number, rest) = read_lines(alloc, prefix(bytes))?;
    if bytes.len() > MAX_BYTES || !rest.is_empty() || draft.setup.accounts.items().is_empty() {
        return Err(SetupFault::SetupLine(number));
    }
    if !keeps_few(&draft.setup) {
        return Err(SetupFault::SetupLine(number - 1));
    }
    Ok(draft.setup)
}

impl Setup {
    /// The setup that the bytes spell.
    ///
    /// `SetupLine(k)` where they spell none: k is the first line, from 1, without a form or past a limit, and
    /// where lines are missing the number of lines plus 1. The window times the objects is judged at the last
    /// line. Where the bytes are more than 262,144, the line that holds byte 262,145 has no form.
    pub fn read(alloc: Global, bytes: &[u8]) -> Result<Setup, SetupFault>
        ensures found { IfOk result (λ setup. SpellsSetup bytes.now setup) }
        ensures refused { IfErr result (λ fault. IsRefusalOf bytes.now fault) }
        ensures line { IfErr result (λ fault. NamesFaultOf bytes.now fault) }
        ensures spelled { (setup : Setup) → SpellsSetup bytes.now setup → Answers result (Ok setup) }
        ensures at_fault { (k : ℕ) → IsSetupFault bytes.now k → Answers result (Err (SetupFault.SetupLine k)) }
    {
        whole(alloc, bytes)
    }
}
