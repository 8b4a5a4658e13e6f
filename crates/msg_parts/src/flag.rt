//! Flags (`Y` and `N`), written.

ghost use Rattle.std.specs.Prelude.{◌≡◌, ◌++◌, OnOk};
ghost use Rattle.std.specs.Io.{StartsWith};
ghost use Rattle.ofx_types.specs.FormWords.{flag_word};
ghost use Rattle.ofx_types.specs.Sheet.{element};

use ofx_tree::Sheet;
use ofx_types::OutOfMemory;

/// Writes a flag by its letter, `Y` or `N`.
pub fn print_flag(name: &[u8], flag: bool, sheet: &mut Sheet) -> Result<(), OutOfMemory>
    ensures ok { OnOk result (sheet.new ≡ sheet.old ++ element name.now (flag_word flag)) }
    ensures kept { StartsWith sheet.new sheet.old }
{
    if flag {
        return sheet.element(name, b"Y");
    }
    sheet.element(name, b"N")
}
