//! The register itself.

ghost use Rattle.std.specs.Prelude.{◌≡◌, ◌≢◌, ◌<◌, ◌^◌, [], length, IfOk, Ok, Err, ◌⊎◌, ℕ, IsErrAnd, List};
ghost use Rattle.std.specs.List.{AllByRecursion};
ghost use Rattle.file_register.specs.Registers.{sum_of, IsRegister};
ghost use Rattle.file_register.specs.Lines.{IsSoundLine, lines_of};
ghost use Rattle.file_register.specs.Importing.{Imports};
ghost use Rattle.file_register.specs.SavedText.{IsSavedText, IsTextOf, IsFirstFault, GivesLines};
ghost use Rattle.file_register.specs.Reading.{register_read};
ghost use Rattle.file_register.specs.declared.line.Line.{Line as LineValue};
ghost use Rattle.file_register.specs.declared.saving.RegisterFault.{RegisterFault};

use crate::gathering::gather;
use crate::import::{ImportFault, Imported, lines_of};
use crate::line::Line;
use crate::placing::add_all;
use crate::saving::{RegisterFault, read_register, write_register};
use crate::summing::sum_of;
use ofx_types::{AcctName, Cents, OutOfMemory, ReplyFile};
use std::alloc::Global;
use std::marker::Model;

/// The most lines of a register.
pub const MAX_LINES: usize = 500_000;

/// The lines of statements by account and FITID, each once.
///
/// Contracts see the lines, which are in the order of their banks, account numbers, kinds and FITIDs.
///
/// ```rust
/// use file_register::{ImportFault, Register};
/// use ofx_types::{Moment, ReplyFile, Sequence};
///
/// // A reply file without statements. Those of a bank are read by `ofx_file::read_reply`.
/// let mut file = ReplyFile {
///     version: 160,
///     newer: None,
///     signon: 0,
///     moment: Moment(1_706_702_400),
///     replies: Sequence::new(rt.alloc()),
/// };
/// let mut register = Register::new(rt.alloc());
/// let imported = register.import(&file).expect(&rt, "its lines");
/// assert!(rt; imported.new == 0 && imported.known == 0);
/// // A file whose signon failed is refused, and leaves the register as it was.
/// file.signon = 15500;
/// assert!(rt; register.import(&file).err() == Some(ImportFault::Signon(15500)));
/// let saved = register.save_text().expect(&rt, "room");
/// let loaded = Register::load_text(rt.alloc(), &saved).expect(&rt, "the register");
/// assert!(rt; loaded.lines().is_empty());
/// ```
#[derive(Drop)]
pub struct Register {
    lines: Vec<Line>,
}

impl Model for Register {
    ghost use Rattle.std.specs.Prelude.{List};
    ghost use Rattle.file_register.specs.declared.line.Line.{Line};
    ghost use Rattle.file_register.specs.Registers.{IsRegister};

    ghost Value = { List Line };

    ghost view = { λ register. register.lines.items };

    ghost invariant = { λ register. IsRegister register.lines.items };
}

impl Register {
    /// A register without lines. Takes no memory.
    pub fn new(alloc: Global) -> Register
        ensures { result ≡ [] }
    {
        Register {
            lines: Vec::new(alloc),
        }
    }

    /// The lines. Takes no memory.
    pub fn lines(&self) -> &[Line]
        ensures lines { result.now ≡ self.now }
        ensures known { IsRegister self.now }
    {
        &self.lines
    }

    /// The sum of an account's amounts, in cents. Takes no memory.
    pub fn sum(&self, account: &AcctName) -> Cents
        ensures { result.0 ≡ sum_of account.now self.now }
    {
        Cents(sum_of(account, &self.lines))
    }

    /// Takes in the lines of a reply file whose values are within their bounds.
    ///
    /// `Signon(code)` exactly where it isn't 0; then `Clash(kept, other)` with the first line of the file that differs from an
    /// earlier one of its account and FITID, of the register or of the file, and that earlier one; then `Full` exactly where more
    /// than 500,000 lines would be there; `OutOfMemory`. After a refusal the register is as before.
    pub fn import(&mut self, reply: &ReplyFile) -> Result<Imported, ImportFault>
        requires sound { AllByRecursion IsSoundLine (lines_of reply.now) }
        requires few { length (lines_of reply.now) < 2 ^ 32 }
        ensures { Imports self.old reply.now result self.new }
    {
        if reply.signon != 0 {
            return Err(ImportFault::Signon(reply.signon));
        }
        let alloc = *self.lines.allocator();
        let lines = lines_of(alloc, reply)?;
        let fresh = gather(alloc, &self.lines, &lines)?;
        let added = fresh.len();
        if self.lines.len() + added > MAX_LINES {
            return Err(ImportFault::Full);
        }
        add_all(&mut self.lines, fresh)?;
        Ok(Imported {
            new: added as u32,
            known: (lines.len() - added) as u32,
        })
    }

    /// The text that is saved of the register.
    pub fn save_text(&self) -> Result<Vec<u8>, OutOfMemory>
        ensures { IfOk result (λ text. IsSavedText text.items self.now) }
    {
        write_register(*self.lines.allocator(), &self.lines)
    }

    /// The register that a text was saved of. An empty text is an empty register.
    ///
    /// `Bad(at)` exactly where the text has another form: the fields are looked at from the left, and the first without a form
    /// begins at `at`, or all have one and more bytes follow from `at` on. A count above 500,000 has no form, nor an amount or a
    /// moment past its bounds, nor a line at its first byte that isn't above the one before it.
    pub fn load_text(alloc: Global, bytes: &[u8]) -> Result<Register, RegisterFault>
        // The text is that of the register that is found.
        ensures found { IfOk result (λ lines. IsTextOf bytes.now lines) }
        // What the text is that of is found, unless memory is refused.
        ensures only { (lines : List LineValue) → IsTextOf bytes.now lines → (result ≡ Ok lines) ⊎ (result ≡ Err RegisterFault.OutOfMemory) }
        // A refusal is at the first fault, or memory was refused.
        ensures fault { (at : ℕ) → result ≡ Err (RegisterFault.Bad at) → IsFirstFault bytes.now at }
        // A text with a fault is refused.
        ensures faulty { (at : ℕ) → IsFirstFault bytes.now at → IsErrAnd result (λ reported. (reported ≡ RegisterFault.Bad at) ⊎ (reported ≡ RegisterFault.OutOfMemory)) }
    {
        load(alloc, bytes)
    }
}

/// The register of a text, whose lines are those that reading gives.
fn load(alloc: Global, bytes: &[u8]) -> Result<Register, RegisterFault>
    ensures empty { bytes.now ≡ [] → result ≡ Ok [] }
    ensures some { bytes.now ≢ [] → GivesLines result (register_read bytes.now) }
{
    if bytes.is_empty() {
        return Ok(Register::new(alloc));
    }
    let lines = read_register(alloc, bytes)?;
    Ok(Register {
        lines: lines.into_vec(),
    })
}
