//! A setup of which the first lines are read, and how one more line is taken.

ghost use Rattle.std.specs.Prelude.{◌≡◌, ◌+ℤ◌, ◌≤ℤ◌, ◌≤◌, pos, int_le, length, Some, None, IfOk, if◌then◌else◌};
ghost use Rattle.bank_model.specs.SetupReading.{unread, with_line, with_format, with_bank, with_lead, with_window, with_entries, with_body_line, with_user, with_account, openings_with};

use crate::directory::Directory;
use crate::setup::Setup;
use crate::setup::lines::{account_of, bank_of, limit_of, user_of};
use crate::setup::words::{no_word, suffix};
use ofx_types::{Cents, OutOfMemory};
use std::alloc::Global;

/// The first line, which names the format and its version.
const FORMAT: &[u8; 9] = b"OFXBANK 1";

/// The most users, and the most accounts.
const MAX_BYTES: usize = 1000;

/// The most that all accounts open with together, in cents.
const MAX_OPENINGS: i64 = 9_999_999_999_999;

/// A setup of which the first lines are read.
#[derive(Drop)]
pub(super) struct SetupDraft {
    /// The setup with the users and accounts that are read.
    pub setup: Setup,
    /// What these accounts open with together.
    pub openings: Cents,
}

/// The openings with one more, where they are no more than the greatest.
fn sum_of(openings: Cents, opening: Cents) -> Option<Cents>
    requires { pos 0 ≤ℤ opening.0 }
    ensures { result ≡ openings_with openings opening }
{
    let sum = openings.0.checked_add(opening.0)?;
    if sum <= MAX_OPENINGS {
        Some(Cents(sum))
    } else {
        None
    }
}

impl SetupDraft {
    /// A setup of which no line is read.
    pub(super) fn new(alloc: Global) -> Result<SetupDraft, OutOfMemory>
        ensures { IfOk result (λ draft. draft ≡ unread) }
    {
        let setup = Setup {
            bank: no_word(alloc)?,
            users: Directory::new(alloc),
            accounts: Directory::new(alloc),
            lead: 0,
            window: 0,
            entries: 0,
        };
        Ok(SetupDraft {
            setup,
            openings: Cents(0),
        })
    }

    /// Takes the line of that number, from 1. False where it has no form there, and then the draft is of no
    /// more use.
    #[tactic(auto, unfolding(crate::specs::SetupReading::with_line))]
    pub(super) fn take(
        &mut self,
        alloc: Global,
        number: u64,
        line: &[u8],
    ) -> Result<bool, OutOfMemory>
        ensures { IfOk result (λ taken. with_line number self.old line.now ≡ (if taken then Some self.new else None)) }
    {
        match number {
            1 => Ok(line == FORMAT.as_slice()),
            2 => self.add_bank(alloc, line),
            3 => Ok(self.add_lead(line)),
            4 => Ok(self.add_window(line)),
            5 => Ok(self.add_entries(line)),
            _ => self.add_user_or_account(alloc, line),
        }
    }

    #[tactic(auto, unfolding(crate::specs::SetupReading::with_bank))]
    fn add_bank(&mut self, alloc: Global, line: &[u8]) -> Result<bool, OutOfMemory>
        ensures { IfOk result (λ taken. with_bank self.old line.now ≡ (if taken then Some self.new else None)) }
    {
        let Some(bank) = bank_of(alloc, line)? else {
            return Ok(false);
        };
        self.setup.bank = bank;
        Ok(true)
    }

    #[tactic(auto, unfolding(crate::specs::SetupReading::with_lead))]
    fn add_lead(&mut self, line: &[u8]) -> bool
        ensures { with_lead self.old line.now ≡ (if result then Some self.new else None) }
    {
        let Some(lead) = limit_of(line, b"LEAD", 0, 30) else {
            return false;
        };
        self.setup.lead = lead as u32;
        true
    }

    #[tactic(auto, unfolding(crate::specs::SetupReading::with_window))]
    fn add_window(&mut self, line: &[u8]) -> bool
        ensures { with_window self.old line.now ≡ (if result then Some self.new else None) }
    {
        let Some(window) = limit_of(line, b"WINDOW", 1, 10_000) else {
            return false;
        };
        self.setup.window = window as u32;
        true
    }

    #[tactic(auto, unfolding(crate::specs::SetupReading::with_entries))]
    fn add_entries(&mut self, line: &[u8]) -> bool
        ensures { with_entries self.old line.now ≡ (if result then Some self.new else None) }
    {
        let Some(entries) = limit_of(line, b"ENTRIES", 1, 9_999_999_999) else {
            return false;
        };
        self.setup.entries = entries;
        true
    }

    #[tactic(auto, unfolding(crate::specs::SetupReading::with_body_line))]
    fn add_user_or_account(&mut self, alloc: Global, line: &[u8]) -> Result<bool, OutOfMemory>
        ensures { IfOk result (λ taken. with_body_line self.old line.now ≡ (if taken then Some self.new else None)) }
    {
        if let Some(fields) = suffix(line, b"USER") {
            return self.add_user(alloc, fields);
        }
        match suffix(line, b"ACCT") {
            Some(fields) => self.add_account(alloc, fields),
            None => Ok(false),
        }
    }

    #[tactic(auto, unfolding(crate::specs::SetupReading::with_user))]
    fn add_user(&mut self, alloc: Global, fields: &[u8]) -> Result<bool, OutOfMemory>
        ensures { IfOk result (λ taken. with_user self.old fields.now ≡ (if taken then Some self.new else None)) }
    {
        if !self.setup.accounts.items().is_empty() {
            return Ok(false);
        }
        if self.setup.users.items().len() >= MAX_BYTES {
            return Ok(false);
        }
        let Some(user) = user_of(alloc, fields)? else {
            return Ok(false);
        };
        self.setup.users.add(user)
    }

    #[tactic(auto, unfolding(crate::specs::SetupReading::with_account))]
    fn add_account(&mut self, alloc: Global, fields: &[u8]) -> Result<bool, OutOfMemory>
        ensures { IfOk result (λ taken. with_account self.old fields.now ≡ (if taken then Some self.new else None)) }
    {
        let users = self.setup.users.items().len();
        if users == 0 || users > MAX_BYTES {
            return Ok(false);
        }
        if self.setup.accounts.items().len() >= MAX_BYTES {
            return Ok(false);
        }
        let Some(account) = account_of(alloc, &self.setup.bank, &self.setup.users, fields)? else {
            return Ok(false);
        };
        let Some(openings) = sum_of(self.openings, account.opening) else {
            return Ok(false);
        };
        if !self.setup.accounts.add(account)? {
            return Ok(false);
        }
        self.openings = openings;
        Ok(true)
    }
}
