//! Uids: the names that a client gives to its transactions and its request files (OFX 1.6, "Transaction Wrapper" and
//! "Open Financial Exchange Headers").

ghost use Rattle.std.specs.Prelude.{◌≡◌, ◌≤◌, length, take, position};
ghost use Rattle.ofx_types.specs.TextRules.{IsTrnUid, IsFileUid, is_refused_in_uid};
ghost use Rattle.ofx_types.specs.TextOutcome.{IsUidOf, trnuid_fault, file_uid_fault, text_fault};

use crate::duplicate::Duplicate;
use crate::memory::OutOfMemory;
use crate::text::{TextFault, fault_in, trim};
use std::hash::{Hash, Hasher};
use std::marker::Model;

/// The most bytes of a uid.
const MAX_BYTES: usize = 36;

/// The word of the header that stands for no file uid.
const NO_UID: &[u8; 4] = b"NONE";

/// A uid that a client gives to one transaction (TRNUID), 1 to 36 bytes.
///
/// No white space is at either end, and no control byte but tab, LF and CR.
#[derive(Debug, Drop)]
pub struct TrnUid {
    bytes: [u8; MAX_BYTES],
    size: usize,
}

impl Model for TrnUid {
    ghost use Rattle.std.specs.Prelude.{ℕ, ◌≤◌, List, take};
    ghost use Rattle.ofx_types.specs.TextRules.{IsTrnUid};

    ghost Value = { List ℕ };

    ghost view = { λ u. take u.size u.bytes };

    ghost invariant = { λ u. (u.size ≤ 36) × IsTrnUid (take u.size u.bytes) };
}

impl TrnUid {
    /// The uid that the bytes stand for after trimming.
    ///
    /// `Empty` where nothing is left, `TooLong(n)` where n is above 36, and otherwise `BadByte(at)` at the
    /// first control byte other than tab, LF and CR.
    pub fn new(bytes: &[u8]) -> Result<TrnUid, TextFault>
        ensures { IsUidOf trnuid_fault bytes.now result }
    {
        let text = trim(bytes);
        match trnuid_fault_in(text) {
            Some(fault) => Err(fault),
            None => Ok(TrnUid {
                bytes: inline(text),
                size: text.len(),
            }),
        }
    }

    /// The bytes of the uid.
    pub fn as_bytes(&self) -> &[u8]
        ensures bytes { result.now ≡ self.now }
        ensures known { IsTrnUid self.now }
    {
        &self.bytes[..self.size]
    }
}

impl Duplicate for TrnUid {
    fn copy(&self) -> Result<TrnUid, OutOfMemory> {
        Ok(TrnUid {
            bytes: self.bytes,
            size: self.size,
        })
    }
}

impl PartialEq for TrnUid {
    ghost use Rattle.std.specs.Prelude.{bytes_eq};
    ghost use Rattle.std.specs.Cmp.{partial_equiv_from_equiv};
    ghost use Rattle.std.specs.Cmp.Lexicographic.{nat_list_eq_equiv};

    ghost eq = { bytes_eq };

    ghost laws = { partial_equiv_from_equiv nat_list_eq_equiv };

    fn eq(&self, other: &TrnUid) -> bool {
        self.as_bytes() == other.as_bytes()
    }
}

impl Eq for TrnUid {
    ghost use Rattle.std.specs.Cmp.Lexicographic.{nat_list_eq_equiv};

    ghost laws = { nat_list_eq_equiv };
}

impl Hash for TrnUid {
    ghost use Rattle.std.specs.Hash as fed;
    ghost use Rattle.std.specs.Cmp.Rules.{hashing};
    ghost use Rattle.std.proofs.Common.{rules};

    ghost hash_input = { λ uid. fed.slice fed.u8 uid };

    ghost respects_eq = { Prim.search (hashing, rules) };

    fn hash<H: Hasher>(&self, state: &mut H) {
        self.as_bytes().hash(state);
    }
}

fn trnuid_fault_in(text: &[u8]) -> Option<TextFault>
    ensures { result ≡ trnuid_fault text.now }
{
    if text.is_empty() {
        return Some(TextFault::Empty);
    }
    fault_in(text, MAX_BYTES as u32)
}

/// The bytes at the start of an array of the greatest size.
fn inline(text: &[u8]) -> [u8; MAX_BYTES]
    requires { length text.now ≤ 36 }
    ensures { take (length text.now) result ≡ text.now }
{
    let mut bytes = [0; MAX_BYTES];
    bytes[..text.len()].copy_from_slice(text);
    bytes
}

/// A uid that a client gives to a whole request file (NEWFILEUID, OLDFILEUID), 1 to 36 bytes.
///
/// No white space is at either end and no control byte inside. `NONE` is the word for none and no uid.
#[derive(Debug, Drop)]
pub struct FileUid {
    bytes: [u8; MAX_BYTES],
    size: usize,
}

impl Model for FileUid {
    ghost use Rattle.std.specs.Prelude.{ℕ, ◌≤◌, List, take};
    ghost use Rattle.ofx_types.specs.TextRules.{IsFileUid};

    ghost Value = { List ℕ };

    ghost view = { λ u. take u.size u.bytes };

    ghost invariant = { λ u. (u.size ≤ 36) × IsFileUid (take u.size u.bytes) };
}

impl FileUid {
    /// The uid that the bytes stand for after trimming.
    ///
    /// `Empty` where nothing or `NONE` is left, `TooLong(n)` where n is above 36, and otherwise `BadByte(at)`
    /// at the first control byte.
    pub fn new(bytes: &[u8]) -> Result<FileUid, TextFault>
        ensures { IsUidOf file_uid_fault bytes.now result }
    {
        let text = trim(bytes);
        match file_uid_fault_in(text) {
            Some(fault) => Err(fault),
            None => Ok(FileUid {
                bytes: inline(text),
                size: text.len(),
            }),
        }
    }

    /// The bytes of the uid.
    pub fn as_bytes(&self) -> &[u8]
        ensures bytes { result.now ≡ self.now }
        ensures known { IsFileUid self.now }
    {
        &self.bytes[..self.size]
    }
}

impl Duplicate for FileUid {
    fn copy(&self) -> Result<FileUid, OutOfMemory> {
        Ok(FileUid {
            bytes: self.bytes,
            size: self.size,
        })
    }
}

fn file_uid_fault_in(text: &[u8]) -> Option<TextFault>
    ensures { result ≡ file_uid_fault text.now }
{
    if text.is_empty() {
        return Some(TextFault::Empty);
    }
    if text == NO_UID.as_slice() {
        return Some(TextFault::Empty);
    }
    line_fault_in(text)
}

/// What is wrong with bytes on one line of a header.
fn line_fault_in(text: &[u8]) -> Option<TextFault>
    ensures { result ≡ text_fault is_refused_in_uid 36 text.now }
{
    if text.len() > MAX_BYTES {
        return Some(TextFault::TooLong(text.len() as u64));
    }
    match first_control(text) {
        Some(at) => Some(TextFault::BadByte(at as u64)),
        None => None,
    }
}

fn first_control(text: &[u8]) -> Option<usize>
    ensures { result ≡ position is_refused_in_uid text.now }
{
    text.iter().position(|byte| *byte < 0x20)
}
