//! Texts: what the value of an element stands for.

ghost use Rattle.std.specs.Prelude.{◌≡◌, IfOk, position};
ghost use Rattle.ofx_types.specs.TextRules.{IsText, is_white, is_refused_in_text, trimmed, trim_start, trim_end};
ghost use Rattle.ofx_types.specs.TextOutcome.{IsTextOf, text_fault};

use crate::duplicate::Duplicate;
use crate::memory::OutOfMemory;
use std::alloc::{AllocError, Global};
use std::marker::Model;
use std::sync::ArcSlice;

/// Why bytes are no text of the wanted kind.
#[derive(Clone, Copy, Debug, PartialEq, Eq)]
pub enum TextFault {
    /// Nothing is left after trimming.
    Empty,
    /// The trimmed bytes are more than the limit: this many.
    TooLong(u64),
    /// A byte that is not allowed in the text, by its offset in the trimmed bytes.
    BadByte(u64),
    /// Memory was refused.
    OutOfMemory,
}

impl From<AllocError> for TextFault {
    ghost use Rattle.std.specs.Prelude.{◌≡◌};
    ghost use Rattle.ofx_types.specs.declared.text.TextFault.TheVariants.{OutOfMemory};

    ghost from_gives = { λ _ e. e ≡ OutOfMemory };

    fn from(_refused: AllocError) -> TextFault {
        TextFault::OutOfMemory
    }
}

/// Whether a byte is white space: space, tab, CR or LF.
pub fn is_white_space(byte: u8) -> bool
    ensures { result ≡ is_white byte }
{
    matches!(byte, b' ' | b'\t' | b'\r' | b'\n')
}

/// The bytes without the white space at either end.
pub fn trim(bytes: &[u8]) -> &[u8]
    ensures { result.now ≡ trimmed bytes.now }
{
    trim_back(trim_front(bytes))
}

fn trim_front(bytes: &[u8]) -> &[u8]
    ensures { result.now ≡ trim_start bytes.now }
{
    let mut rest = bytes;
    while let [first, tail @ ..] = rest {
        if !is_white_space(*first) {
            break;
        }
        rest = tail;
    }
    rest
}

fn trim_back(bytes: &[u8]) -> &[u8]
    ensures { result.now ≡ trim_end bytes.now }
{
    let mut rest = bytes;
    while let [prefix @ .., last] = rest {
        if !is_white_space(*last) {
            break;
        }
        rest = prefix;
    }
    rest
}

/// Whether a byte is not allowed in a text: a control byte other than tab, LF and CR.
fn is_refused(byte: u8) -> bool
    ensures { result ≡ is_refused_in_text byte }
{
    byte < 0x20 && !is_white_space(byte)
}

fn first_refused(text: &[u8]) -> Option<usize>
    ensures { result ≡ position is_refused_in_text text.now }
{
    text.iter().position(|byte| is_refused(*byte))
}

/// What is wrong with trimmed bytes, as a text of at most `most` bytes.
pub(crate) fn fault_in(text: &[u8], most: u32) -> Option<TextFault>
    ensures { result ≡ text_fault is_refused_in_text most text.now }
{
    if text.len() > most as usize {
        return Some(TextFault::TooLong(text.len() as u64));
    }
    match first_refused(text) {
        Some(at) => Some(TextFault::BadByte(at as u64)),
        None => None,
    }
}

/// A text: bytes without white space at either end, in which there is no control byte but tab, LF and CR.
///
/// Its copies share the bytes, and take no memory.
///
/// ```rust
/// use ofx_types::{Text, TextFault};
///
/// let alloc = rt.alloc();
/// let name = Text::new(alloc, b" alice\r\n", 32).expect(&rt, "a text");
/// assert!(rt; name.as_bytes() == b"alice".as_slice());
/// assert!(rt; Text::new(alloc, b"al\x01ce", 32).err() == Some(TextFault::BadByte(2)));
/// assert!(rt; Text::new(alloc, b"alice", 4).err() == Some(TextFault::TooLong(5)));
/// ```
#[derive(Debug, Drop)]
pub struct Text {
    bytes: ArcSlice<u8>,
}

impl Model for Text {
    ghost use Rattle.std.specs.Prelude.{ℕ, List};
    ghost use Rattle.std.specs.Arc.{arc_slice_items};
    ghost use Rattle.ofx_types.specs.TextRules.{IsText};

    ghost Value = { List ℕ };

    ghost view = { λ t. arc_slice_items t.bytes };

    ghost invariant = { λ t. IsText (arc_slice_items t.bytes) };
}

impl Text {
    /// The text that the bytes stand for after trimming, where it has at most `most` bytes.
    ///
    /// `TooLong(n)` where the trimmed length n is above `most`, and otherwise `BadByte(at)` at the first
    /// control byte of the trimmed bytes other than tab, LF and CR.
    pub fn new(alloc: Global, bytes: &[u8], most: u32) -> Result<Text, TextFault>
        ensures { IsTextOf most bytes.now result }
    {
        let text = trim(bytes);
        match fault_in(text, most) {
            Some(fault) => Err(fault),
            None => Ok(Text {
                bytes: ArcSlice::from_slice(alloc, text)?,
            }),
        }
    }

    /// The bytes of the text.
    pub fn as_bytes(&self) -> &[u8]
        ensures bytes { result.now ≡ self.now }
        ensures known { IsText self.now }
    {
        self.bytes.as_slice()
    }
}

impl Duplicate for Text {
    fn copy(&self) -> Result<Text, OutOfMemory> {
        Ok(Text {
            bytes: self.bytes.clone()?,
        })
    }
}

impl PartialEq for Text {
    ghost use Rattle.std.specs.Prelude.{bytes_eq};
    ghost use Rattle.std.specs.Cmp.{partial_equiv_from_equiv};
    ghost use Rattle.std.specs.Cmp.Lexicographic.{nat_list_eq_equiv};

    ghost eq = { bytes_eq };

    ghost laws = { partial_equiv_from_equiv nat_list_eq_equiv };

    fn eq(&self, other: &Text) -> bool {
        self.as_bytes() == other.as_bytes()
    }
}

impl Eq for Text {
    ghost use Rattle.std.specs.Cmp.Lexicographic.{nat_list_eq_equiv};

    ghost laws = { nat_list_eq_equiv };
}
