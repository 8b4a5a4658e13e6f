//! What a header says, and which values say it.

ghost use Rattle.std.specs.Prelude.{◌≡◌};
ghost use Rattle.ofx_types.specs.TextRules.{trimmed};
ghost use Rattle.ofx_types.specs.HeaderForm as form;
ghost use Rattle.ofx_header.specs.HeaderReading as header;

use ofx_types::{FileUid, trim};

/// What a header says (OFX 1.6, "Open Financial Exchange Headers").
#[derive(Debug, Drop)]
pub struct Header {
    /// The version of the format: 102, 103, 151 or 160 in a header that was read.
    pub version: u16,
    /// The uid of the file that this one follows (OLDFILEUID), if any.
    pub older: Option<FileUid>,
    /// The uid of this file (NEWFILEUID), if any.
    pub newer: Option<FileUid>,
}

/// The version that a value stands for.
pub(crate) fn version_in(value: &[u8]) -> Option<u16>
    ensures { result ≡ header.version_in value.now }
{
    match value {
        b"102" => Some(102),
        b"103" => Some(103),
        b"151" => Some(151),
        b"160" => Some(160),
        _ => None,
    }
}

/// Whether a value names a character set that is let pass.
pub(crate) fn is_charset(value: &[u8]) -> bool
    ensures { result ≡ form.is_charset value.now }
{
    value == b"1252".as_slice() || value == b"ISO-8859-1".as_slice() || value == b"NONE".as_slice()
}

/// The uid, or no uid for `NONE`, that the bytes after a mark stand for; none where they are neither.
pub(crate) fn uid_in(raw: &[u8]) -> Option<Option<FileUid>>
    ensures { result ≡ header.uid_in (trimmed raw.now) }
{
    if trim(raw) == b"NONE".as_slice() {
        return Some(None);
    }
    match FileUid::new(raw) {
        Ok(uid) => Some(Some(uid)),
        Err(_) => None,
    }
}
