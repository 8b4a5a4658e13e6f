//! The status that an answer begins with (STATUS), read and written (OFX 1.6, "Status Aggregate").

ghost use Rattle.std.specs.Prelude.{◌≡◌, ◌==◌, ◌++◌, OnOk, codes, if◌then◌else◌};
ghost use Rattle.std.specs.Io.{StartsWith};
ghost use Rattle.ofx_types.specs.CommonText as form;
ghost use Rattle.ofx_types.specs.ReplyReading as reading;

use ofx_tree::{Cursor, Sheet};
use ofx_types::{OutOfMemory, TreeFault};

/// The most digits of a code.
const MAX_BYTES: usize = 5;

/// The code of the STATUS that occurs once among these children: 1 to 5 digits, at most 65,535. It takes no memory.
///
/// `Missing` at the aggregate's offset where STATUS or its CODE isn't there, `Repeated` at the second one's where either
/// occurs more than once, `Value` at the offset of a CODE that is no such number.
#[tactic(auto, unfolding(ofx_types::specs::ReplyReading::status_of))]
pub fn read_status(c: &Cursor<'_>) -> Result<u16, TreeFault>
    ensures { result ≡ reading.status_of c.now }
{
    let status = c.one(b"STATUS")?;
    code_of(&status)
}

#[tactic(auto, unfolding(ofx_types::specs::ReplyReading::code_of))]
fn code_of(status: &Cursor<'_>) -> Result<u16, TreeFault>
    ensures { result ≡ reading.code_of status.now }
{
    let code = status.number(b"CODE", MAX_BYTES)?;
    let child = status.one(b"CODE")?;
    bounded_code(code, child.offset() as u64)
}

fn bounded_code(code: u64, offset: u64) -> Result<u16, TreeFault>
    ensures { result ≡ reading.bounded_code offset code }
{
    if code > 65_535 {
        return Err(TreeFault::Value(offset));
    }
    Ok(code as u16)
}

/// Writes a status: code 0 is information, every other code an error.
#[tactic(auto, unfolding(ofx_types::specs::CommonText::status, ofx_types::specs::Sheet::aggregate))]
pub fn print_status(code: u16, out: &mut Sheet) -> Result<(), OutOfMemory>
    ensures ok { OnOk result (out.new ≡ out.old ++ form.status code) }
    ensures kept { StartsWith out.new out.old }
{
    out.start(b"STATUS")?;
    out.number(b"CODE", code as u64)?;
    out.element(b"SEVERITY", severity(code))?;
    out.end(b"STATUS")
}

fn severity(code: u16) -> &'static [u8]
    ensures { result.now ≡ (if code == 0 then codes "INFO" else codes "ERROR") }
{
    if code == 0 { b"INFO" } else { b"ERROR" }
}
