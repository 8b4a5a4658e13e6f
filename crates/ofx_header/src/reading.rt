//! A header is read line by line, up to its first fault.

ghost use Rattle.std.specs.Prelude.{◌≡◌, ◌≤◌, ℕ, List, Option, IfOk, IfErr, IsOkAnd, length, codes};
ghost use Rattle.ofx_types.specs.declared.fault.HeaderFault.{HeaderFault};
ghost use Rattle.ofx_types.specs.HeaderForm.{SpellsHeader, header_fault};
ghost use Rattle.ofx_header.specs.HeaderReading as header;
ghost use Rattle.ofx_header.specs.HeaderReading.{ReadsHeader, writing_at, line_at, fixed_in, charset_in};

use crate::line::raw_at;
use crate::values::{Header, is_charset, uid_in, version_in};
use ofx_types::{FileUid, HeaderFault, trim};

/// The header that the bytes begin with, and its number of bytes up to the end of the ninth line. After them come the empty line
/// that is usual there (OFX 1.6, "Open Financial Exchange Headers") and the body.
///
/// The first bad line is `Line` where it doesn't begin with its tag and a colon, and `Value` where its value isn't
/// allowed. A line whose LF isn't there is `Cut`.
///
/// ```rust
/// use ofx_header::{HeaderFault, read_header};
///
/// let bytes =
///     b"OFXHEADER:100\r\nDATA:OFXSGML\r\nVERSION:160\r\nSECURITY:NONE\r\nENCODING:USASCII\r\n\
///     CHARSET:1252\r\nCOMPRESSION:NONE\r\nOLDFILEUID:NONE\r\nNEWFILEUID:f1\r\n\r\n<OFX>";
/// let (header, size) = read_header(bytes).expect(&rt, "a header");
/// assert!(rt; header.version == 160 && header.older.is_none() && header.newer.is_some());
/// // The empty line and the body come after the header.
/// assert_eq!(rt; bytes.len() - size, 7);
/// assert!(rt; read_header(b"OFXHEADER:200\r\n").err() == Some(HeaderFault::Value(1, 0)));
/// ```
pub fn read_header(bytes: &[u8]) -> Result<(Header, usize), HeaderFault>
    // What is read is spelled so.
    ensures spelled { IfOk result (λ x. SpellsHeader bytes.now x.0.version x.0.older x.0.newer x.1) }
    // What is spelled so is read.
    ensures read { (version : ℕ) (older newer : Option (List ℕ)) (size : ℕ) → SpellsHeader bytes.now version older newer size
        → IsOkAnd result (λ x. (x.0.version ≡ version) × (x.0.older ≡ older) × (x.0.newer ≡ newer) × (x.1 ≡ size)) }
    // A fault is the first one.
    ensures fault { IfErr result (λ fault. header_fault bytes.now ≡ Some fault) }
    // The first fault is answered.
    ensures refused { (fault : HeaderFault) → header_fault bytes.now ≡ Some fault → result ≡ Err fault }
    ensures within { IfOk result (λ x. x.1 ≤ length bytes.now) }
{
    lines(bytes)
}

/// What the nine lines say, and the offset after the ninth.
#[tactic(auto, unfolding(crate::specs::HeaderReading::header_at))]
fn lines(bytes: &[u8]) -> Result<(Header, usize), HeaderFault>
    ensures found { ReadsHeader (λ x. header.parts_of x.0 x.1) result (header.header_at bytes.now) }
    ensures within { IfOk result (λ x. x.1 ≤ length bytes.now) }
{
    let at = fixed_line(bytes, 0, 1, b"OFXHEADER:", b"100")?;
    let at = fixed_line(bytes, at, 2, b"DATA:", b"OFXSGML")?;
    let (version, at) = version_line(bytes, at)?;
    let at = writing_lines(bytes, at)?;
    let (older, at) = uid_line(bytes, at, 8, b"OLDFILEUID:")?;
    let (newer, at) = uid_line(bytes, at, 9, b"NEWFILEUID:")?;
    let header = Header {
        version,
        older,
        newer,
    };
    Ok((header, at))
}

/// The offset after the four lines that say how the bytes are written.
#[tactic(auto, unfolding(crate::specs::HeaderReading::writing_at))]
fn writing_lines(bytes: &[u8], at: usize) -> Result<usize, HeaderFault>
    requires { at ≤ length bytes.now }
    ensures found { ReadsHeader (λ next. next) result (writing_at bytes.now at) }
    ensures within { IfOk result (λ next. next ≤ length bytes.now) }
{
    let at = fixed_line(bytes, at, 4, b"SECURITY:", b"NONE")?;
    let at = fixed_line(bytes, at, 5, b"ENCODING:", b"USASCII")?;
    let at = charset_line(bytes, at)?;
    fixed_line(bytes, at, 7, b"COMPRESSION:", b"NONE")
}

/// The offset after a line that has one value.
#[tactic(auto, unfolding(crate::specs::HeaderReading::line_at))]
fn fixed_line(
    bytes: &[u8],
    at: usize,
    number: u8,
    mark: &[u8],
    value: &[u8],
) -> Result<usize, HeaderFault>
    requires { at ≤ length bytes.now }
    ensures found { ReadsHeader (λ next. (tt, next)) result (line_at (fixed_in value.now) number mark.now bytes.now at) }
    ensures within { IfOk result (λ next. next ≤ length bytes.now) }
{
    let (raw, next) = raw_at(bytes, at, number, mark)?;
    if trim(raw) != value {
        return Err(HeaderFault::Value(number, at as u64));
    }
    Ok(next)
}

/// The version, and the offset after its line.
#[tactic(auto, unfolding(crate::specs::HeaderReading::line_at))]
fn version_line(bytes: &[u8], at: usize) -> Result<(u16, usize), HeaderFault>
    requires { at ≤ length bytes.now }
    ensures found { ReadsHeader (λ x. (x.0, x.1)) result (line_at header.version_in 3 (codes "VERSION:") bytes.now at) }
    ensures within { IfOk result (λ x. x.1 ≤ length bytes.now) }
{
    let (raw, next) = raw_at(bytes, at, 3, b"VERSION:")?;
    match version_in(trim(raw)) {
        Some(version) => Ok((version, next)),
        None => Err(HeaderFault::Value(3, at as u64)),
    }
}

/// The offset after the line of the character set.
#[tactic(auto, unfolding(crate::specs::HeaderReading::line_at))]
fn charset_line(bytes: &[u8], at: usize) -> Result<usize, HeaderFault>
    requires { at ≤ length bytes.now }
    ensures found { ReadsHeader (λ next. (tt, next)) result (line_at charset_in 6 (codes "CHARSET:") bytes.now at) }
    ensures within { IfOk result (λ next. next ≤ length bytes.now) }
{
    let (raw, next) = raw_at(bytes, at, 6, b"CHARSET:")?;
    if !is_charset(trim(raw)) {
        return Err(HeaderFault::Value(6, at as u64));
    }
    Ok(next)
}

/// The uid on a line, if it has one, and the offset after the line.
#[tactic(auto, unfolding(crate::specs::HeaderReading::line_at))]
fn uid_line(
    bytes: &[u8],
    at: usize,
    number: u8,
    mark: &[u8],
) -> Result<(Option<FileUid>, usize), HeaderFault>
    requires { at ≤ length bytes.now }
    ensures found { ReadsHeader (λ x. (x.0, x.1)) result (line_at header.uid_in number mark.now bytes.now at) }
    ensures within { IfOk result (λ x. x.1 ≤ length bytes.now) }
{
    let (raw, next) = raw_at(bytes, at, number, mark)?;
    match uid_in(raw) {
        Some(uid) => Ok((uid, next)),
        None => Err(HeaderFault::Value(number, at as u64)),
    }
}
