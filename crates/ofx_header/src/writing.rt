//! A header in its written form.

ghost use Rattle.std.specs.Prelude.{◌≡◌, ◌++◌, OnOk, OnErr};
ghost use Rattle.std.specs.Fmt.{decimal};
ghost use Rattle.std.specs.Io.{StartsWith};
ghost use Rattle.ofx_types.specs.Sheet.{header_text, uid_text};

use crate::values::Header;
use itoa::Buffer;
use ofx_types::{FileUid, OutOfMemory};

/// Appends the nine lines of a header and the empty line after them, each with CRLF at its end.
///
/// After `OutOfMemory` some of them may be appended, and what was there before is kept.
pub fn write_header(header: &Header, out: &mut Vec<u8>) -> Result<(), OutOfMemory>
    ensures written { OnOk result (out.new.items ≡ out.old.items ++ header_text header.now.version header.now.older header.now.newer) }
    ensures kept { StartsWith out.new.items out.old.items }
{
    out.extend_from_slice(b"OFXHEADER:100\r\nDATA:OFXSGML\r\nVERSION:")?;
    number(header.version, out)?;
    out.extend_from_slice(
        b"\r\nSECURITY:NONE\r\nENCODING:USASCII\r\nCHARSET:1252\r\n\
        COMPRESSION:NONE\r\nOLDFILEUID:",
    )?;
    uid(&header.older, out)?;
    out.extend_from_slice(b"\r\nNEWFILEUID:")?;
    uid(&header.newer, out)?;
    out.extend_from_slice(b"\r\n\r\n")?;
    Ok(())
}

/// Appends the digits of a version. After `OutOfMemory` nothing is appended.
fn number(version: u16, out: &mut Vec<u8>) -> Result<(), OutOfMemory>
    ensures ok { OnOk result (out.new.items ≡ out.old.items ++ decimal version) }
    ensures err { OnErr result (out.new.items ≡ out.old.items) }
{
    let mut buffer = Buffer::new();
    out.extend_from_slice(buffer.format(version).as_bytes())?;
    Ok(())
}

/// Appends a uid, or the word for none. After `OutOfMemory` nothing is appended.
fn uid(uid: &Option<FileUid>, out: &mut Vec<u8>) -> Result<(), OutOfMemory>
    ensures ok { OnOk result (out.new.items ≡ out.old.items ++ uid_text uid.now) }
    ensures err { OnErr result (out.new.items ≡ out.old.items) }
{
    match uid {
        Some(uid) => out.extend_from_slice(uid.as_bytes())?,
        None => out.extend_from_slice(b"NONE")?,
    }
    Ok(())
}
