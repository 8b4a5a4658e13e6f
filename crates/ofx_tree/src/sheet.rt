//! The printed form: each start tag, each element and each end tag on a line of its own.

ghost use Rattle.std.specs.Prelude.{◌≡◌, ◌++◌, [], take, OnOk, OnErr};
ghost use Rattle.std.specs.Io.{StartsWith};
ghost use Rattle.std.specs.Fmt.{decimal};
ghost use Rattle.ofx_types.specs.Sheet.{start_line, end_line, element, tag, ended, escaped};
ghost use Rattle.ofx_types.specs.Calendar.{IsMoment};
ghost use Rattle.ofx_types.specs.AmountForm.{amount_text};
ghost use Rattle.ofx_types.specs.DateForm.{moment_text};

use crate::escape::escape;
use ofx_types::{Cents, Moment, OutOfMemory, Text};
use ofx_values::{print_amount, print_moment, print_number};
use std::alloc::Global;
use std::marker::Model;

/// The bytes of a file, line by line, each of which ends in CRLF (OFX 1.6, "SGML Basics").
///
/// After `OutOfMemory` the sheet is as it was before the call.
#[derive(Debug, Drop)]
pub struct Sheet {
    bytes: Vec<u8>,
}

impl Model for Sheet {
    ghost use Rattle.std.specs.Prelude.{ℕ, List};

    ghost Value = { List ℕ };

    ghost view = { λ s. s.bytes.items };
}

impl Sheet {
    /// Nothing written yet.
    pub fn new(alloc: Global) -> Sheet
        ensures { result ≡ [] }
    {
        Sheet {
            bytes: Vec::new(alloc),
        }
    }

    /// A sheet that goes on after these bytes, which takes no memory.
    pub fn from_vec(bytes: Vec<u8>) -> Sheet
        ensures { result ≡ bytes.items }
    {
        Sheet { bytes }
    }

    /// What was written, which takes no memory.
    pub fn into_bytes(self) -> Vec<u8>
        ensures { result.items ≡ self }
    {
        self.bytes
    }

    /// Writes the start tag of an aggregate.
    pub fn start(&mut self, name: &[u8]) -> Result<(), OutOfMemory>
        ensures ok { OnOk result (self.new ≡ self.old ++ start_line name.now) }
        ensures err { OnErr result (self.new ≡ self.old) }
    {
        let size = self.bytes.len();
        let written = start_tag(name, &mut self.bytes);
        self.kept(size, written)
    }

    /// Writes the end tag of an aggregate.
    pub fn end(&mut self, name: &[u8]) -> Result<(), OutOfMemory>
        ensures ok { OnOk result (self.new ≡ self.old ++ end_line name.now) }
        ensures err { OnErr result (self.new ≡ self.old) }
    {
        let size = self.bytes.len();
        let written = end_tag(name, &mut self.bytes);
        self.kept(size, written)
    }

    /// Writes an element without its end tag. An empty value isn't written.
    #[tactic(auto, unfolding(ofx_types::specs::Sheet::element))]
    pub fn element(&mut self, name: &[u8], value: &[u8]) -> Result<(), OutOfMemory>
        ensures ok { OnOk result (self.new ≡ self.old ++ element name.now value.now) }
        ensures err { OnErr result (self.new ≡ self.old) }
    {
        if value.is_empty() {
            return Ok(());
        }
        let size = self.bytes.len();
        let written = value_line(name, value, &mut self.bytes);
        self.kept(size, written)
    }

    /// Writes an element whose value is a text.
    pub fn text(&mut self, name: &[u8], text: &Text) -> Result<(), OutOfMemory>
        ensures ok { OnOk result (self.new ≡ self.old ++ element name.now text.now) }
        ensures err { OnErr result (self.new ≡ self.old) }
    {
        self.element(name, text.as_bytes())
    }

    /// Writes an element whose value is a number.
    pub fn number(&mut self, name: &[u8], n: u64) -> Result<(), OutOfMemory>
        ensures ok { OnOk result (self.new ≡ self.old ++ element name.now (decimal n)) }
        ensures err { OnErr result (self.new ≡ self.old) }
    {
        let size = self.bytes.len();
        let written = number_line(name, n, &mut self.bytes);
        self.kept(size, written)
    }

    /// Writes an element whose value is an amount.
    pub fn amount(&mut self, name: &[u8], amount: Cents) -> Result<(), OutOfMemory>
        ensures ok { OnOk result (self.new ≡ self.old ++ element name.now (amount_text amount.0)) }
        ensures err { OnErr result (self.new ≡ self.old) }
    {
        let size = self.bytes.len();
        let written = amount_line(name, amount, &mut self.bytes);
        self.kept(size, written)
    }

    /// Writes an element whose value is a moment of the years 1900 to 9999.
    pub fn moment(&mut self, name: &[u8], moment: Moment) -> Result<(), OutOfMemory>
        requires { IsMoment moment.0 }
        ensures ok { OnOk result (self.new ≡ self.old ++ element name.now (moment_text moment.0)) }
        ensures err { OnErr result (self.new ≡ self.old) }
    {
        let size = self.bytes.len();
        let written = moment_line(name, moment, &mut self.bytes);
        self.kept(size, written)
    }

    /// What was written after so many bytes stays, unless memory for it was refused.
    fn kept(&mut self, size: usize, written: Result<(), OutOfMemory>) -> Result<(), OutOfMemory>
        ensures same { result ≡ written }
        ensures ok { OnOk written (self.new ≡ self.old) }
        ensures err { OnErr written (self.new ≡ take size self.old) }
    {
        if written.is_err() {
            self.bytes.truncate(size);
        }
        written
    }
}

/// Appends a start tag and CRLF.
fn start_tag(name: &[u8], out: &mut Vec<u8>) -> Result<(), OutOfMemory>
    ensures ok { OnOk result (out.new.items ≡ out.old.items ++ start_line name.now) }
    ensures err { OnErr result (StartsWith out.new.items out.old.items) }
{
    tag_of(name, out)?;
    end_of_line(out)
}

/// Appends an end tag and CRLF.
fn end_tag(name: &[u8], out: &mut Vec<u8>) -> Result<(), OutOfMemory>
    ensures ok { OnOk result (out.new.items ≡ out.old.items ++ end_line name.now) }
    ensures err { OnErr result (StartsWith out.new.items out.old.items) }
{
    out.extend_from_slice(b"</")?;
    out.extend_from_slice(name)?;
    out.extend_from_slice(b">\r\n")?;
    Ok(())
}

/// Appends an element with this value.
fn value_line(name: &[u8], value: &[u8], out: &mut Vec<u8>) -> Result<(), OutOfMemory>
    ensures ok { OnOk result (out.new.items ≡ out.old.items ++ ended (tag name.now ++ escaped value.now)) }
    ensures err { OnErr result (StartsWith out.new.items out.old.items) }
{
    tag_of(name, out)?;
    escape(value, out)?;
    end_of_line(out)
}

/// Appends an element whose value is a number.
#[tactic(auto, using(crate::proofs::Plain::number_element))]
fn number_line(name: &[u8], n: u64, out: &mut Vec<u8>) -> Result<(), OutOfMemory>
    ensures ok { OnOk result (out.new.items ≡ out.old.items ++ element name.now (decimal n)) }
    ensures err { OnErr result (StartsWith out.new.items out.old.items) }
{
    tag_of(name, out)?;
    print_number(n, out)?;
    end_of_line(out)
}

/// Appends an element whose value is an amount.
#[tactic(auto, using(crate::proofs::Plain::amount_element))]
fn amount_line(name: &[u8], amount: Cents, out: &mut Vec<u8>) -> Result<(), OutOfMemory>
    ensures ok { OnOk result (out.new.items ≡ out.old.items ++ element name.now (amount_text amount.0)) }
    ensures err { OnErr result (StartsWith out.new.items out.old.items) }
{
    tag_of(name, out)?;
    print_amount(amount, out)?;
    end_of_line(out)
}

/// Appends an element whose value is a moment of the years 1900 to 9999.
#[tactic(auto, using(crate::proofs::Plain::moment_element))]
fn moment_line(name: &[u8], moment: Moment, out: &mut Vec<u8>) -> Result<(), OutOfMemory>
    requires { IsMoment moment.0 }
    ensures ok { OnOk result (out.new.items ≡ out.old.items ++ element name.now (moment_text moment.0)) }
    ensures err { OnErr result (StartsWith out.new.items out.old.items) }
{
    tag_of(name, out)?;
    print_moment(moment, out)?;
    end_of_line(out)
}

/// Appends `<`, the name and `>`.
fn tag_of(name: &[u8], out: &mut Vec<u8>) -> Result<(), OutOfMemory>
    ensures ok { OnOk result (out.new.items ≡ out.old.items ++ tag name.now) }
    ensures err { OnErr result (StartsWith out.new.items out.old.items) }
{
    out.push(b'<')?;
    out.extend_from_slice(name)?;
    out.push(b'>')?;
    Ok(())
}

/// Appends CRLF.
fn end_of_line(out: &mut Vec<u8>) -> Result<(), OutOfMemory>
    ensures ok { OnOk result (out.new.items ≡ ended out.old.items) }
    ensures err { OnErr result (StartsWith out.new.items out.old.items) }
{
    out.extend_from_slice(b"\r\n")?;
    Ok(())
}
