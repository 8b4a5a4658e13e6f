//! Laws of registers and of their saved texts. Nothing here runs: each contract is a law.

ghost use Rattle.std.specs.Prelude.{◌≡◌, ℕ, ◌⊎◌, List, Ok};
ghost use Rattle.record_fields.specs.Fields.{IsBytes};
ghost use Rattle.file_register.specs.Registers.{register, IsRising, IsRegister, HasNoClash, HaveSameMembers};
ghost use Rattle.file_register.specs.Exact.{SignonsAreTold, ClashesAreTold, FullIsTold, OthersAreTaken, ImportsAddUp, NoneIsRefused};
ghost use Rattle.file_register.specs.Coding.{register_text};
ghost use Rattle.file_register.specs.Reading.{register_read};
ghost use Rattle.file_register.specs.SavedText.{IsTextOf, IsFirstFault};
ghost use Rattle.file_register.specs.declared.line.Line.{Line};

/// The register of a list without a clash has the members of the list, and its lines rise, so that none occurs twice.
pub fn registers_rise()
    ensures rising { (lines : List Line) → IsRising (register lines) }
    ensures same { (lines : List Line) → HasNoClash lines → HaveSameMembers (register lines) lines }
{}

/// Two lists with the same members have one register: neither the order of lines nor repeats make a difference.
pub fn same_members_one_register()
    ensures { (lines others : List Line) → HasNoClash lines → HaveSameMembers lines others → register lines ≡ register others }
{}

/// The text of every register reads back as that register.
pub fn texts_read_back()
    ensures { (lines : List Line) → IsRegister lines → register_read (register_text lines) ≡ Ok lines }
{}

/// A text is that of one register alone.
pub fn one_register()
    ensures { (text : List ℕ) (lines others : List Line) → IsTextOf text lines → IsTextOf text others → lines ≡ others }
{}

/// Each text is that of a register or has a fault.
pub fn saved_or_faulty()
    ensures { (text : List ℕ) → IsBytes text → ((lines : List Line) × IsTextOf text lines) ⊎ ((at : ℕ) × IsFirstFault text at) }
{}

/// A text with a fault is that of no register, and no text has two first faults.
pub fn one_first_fault()
    ensures one { (text : List ℕ) (at other : ℕ) → IsFirstFault text at → IsFirstFault text other → at ≡ other }
    ensures none { (text : List ℕ) (at : ℕ) (lines : List Line) → IsFirstFault text at → IsTextOf text lines → ⊥ }
{}

/// A file is refused exactly where it is to be, as far as memory is there: for its signon, then for its first clash, then for the
/// number of lines; and every other one is taken.
pub fn exact_refusals()
    ensures signons { SignonsAreTold }
    ensures clashes { ClashesAreTold }
    ensures full { FullIsTold }
    ensures others { OthersAreTaken }
{}

/// The register after many files is that of all their lines. Of files without clashing lines that have at most 500,000 together
/// none is refused but for its signon or for memory.
pub fn imports_add_up()
    ensures register { ImportsAddUp }
    ensures none { NoneIsRefused }
{}
