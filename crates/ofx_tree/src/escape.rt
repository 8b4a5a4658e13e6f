//! Values as they are written: `&`, `<` and `>` escaped.

ghost use Rattle.std.specs.Prelude.{◌≡◌, ◌++◌, OnOk, OnErr};
ghost use Rattle.std.specs.Io.{StartsWith};
ghost use Rattle.std.specs.List.{list_any};
ghost use Rattle.ofx_types.specs.Sheet.{escaped, escaped_byte};
ghost use Rattle.ofx_tree.specs.Marks.{is_mark};

use ofx_types::OutOfMemory;

/// Appends a value, `&`, `<` and `>` escaped.
#[tactic(auto, using(crate::proofs::Plain::escapes))]
pub(crate) fn escape(value: &[u8], out: &mut Vec<u8>) -> Result<(), OutOfMemory>
    ensures ok { OnOk result (out.new.items ≡ out.old.items ++ escaped value.now) }
    ensures err { OnErr result (StartsWith out.new.items out.old.items) }
{
    if has_mark(value) {
        return escape_each(value, out);
    }
    out.extend_from_slice(value)?;
    Ok(())
}

/// Whether a byte of the value is one that is escaped.
fn has_mark(value: &[u8]) -> bool
    ensures { result ≡ list_any is_mark value.now }
{
    value.iter().any(|byte| matches!(*byte, b'&' | b'<' | b'>'))
}

#[tactic(auto, using(ofx_types::proofs::Bytes::prefix_of_prefix))]
fn escape_each(value: &[u8], out: &mut Vec<u8>) -> Result<(), OutOfMemory>
    ensures ok { OnOk result (out.new.items ≡ out.old.items ++ escaped value.now) }
    ensures err { OnErr result (StartsWith out.new.items out.old.items) }
{
    for byte in value {
        escape_byte(*byte, out)?;
    }
    Ok(())
}

fn escape_byte(byte: u8, out: &mut Vec<u8>) -> Result<(), OutOfMemory>
    ensures ok { OnOk result (out.new.items ≡ out.old.items ++ escaped_byte byte) }
    ensures err { OnErr result (StartsWith out.new.items out.old.items) }
{
    match byte {
        b'&' => out.extend_from_slice(b"&amp;")?,
        b'<' => out.extend_from_slice(b"&lt;")?,
        b'>' => out.extend_from_slice(b"&gt;")?,
        _ => out.push(byte)?,
    }
    Ok(())
}
