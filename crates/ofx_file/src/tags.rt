//! The header and the tags of a file, read, and the offsets of faults in the file.

ghost use Rattle.std.specs.Prelude.{◌≡◌, ◌+◌, ◌<◌, ◌^◌};
ghost use Rattle.ofx_types.specs.FileForm.{header_offset};
ghost use Rattle.ofx_file.specs.Outcome.{ReadsTags};
ghost use Rattle.ofx_file.specs.FaultOffsets.{IsTagWithin, IsFormWithin, syntax_fault, form_fault};

use ofx_header::{Header, read_header};
use ofx_tape::Tape;
use ofx_types::{FileFault, HeaderFault, TapeFault, TreeFault};
use std::alloc::Global;

/// What the header says, its number of bytes, and the tags after it.
pub(crate) fn read_tags<'b>(
    alloc: Global,
    bytes: &'b [u8],
) -> Result<(Header, usize, Tape<'b>), FileFault>
    ensures { ReadsTags bytes.now result }
{
    let (header, size) = match read_header(bytes) {
        Ok(found) => found,
        Err(fault) => return Err(in_header(fault)),
    };
    match Tape::read(alloc, &bytes[size..]) {
        Ok(tape) => Ok((header, size, tape)),
        Err(fault) => Err(in_tags(size, bytes.len() - size, fault)),
    }
}

/// A fault of the header.
fn in_header(fault: HeaderFault) -> FileFault
    ensures { result ≡ FileFault.Header (header_offset fault) }
{
    match fault {
        HeaderFault::Line(_, at) | HeaderFault::Value(_, at) | HeaderFault::Cut(at) => {
            FileFault::Header(at)
        }
    }
}

/// A fault of the tags of a body of this length, with so many bytes before it.
fn in_tags(size: usize, length: usize, fault: TapeFault) -> FileFault
    requires within { IsTagWithin length fault }
    requires fits { size + length < 2 ^ 64 }
    ensures { result ≡ syntax_fault size fault }
{
    match fault {
        TapeFault::Tag(at) | TapeFault::Mismatch(at) | TapeFault::Depth(at) | TapeFault::Cut(at) =>
            FileFault::Syntax(size as u64 + at),
        TapeFault::OutOfMemory => FileFault::OutOfMemory,
    }
}

/// A fault of the forms of a body of this length, with so many bytes before it.
pub(crate) fn in_forms(size: usize, length: usize, fault: TreeFault) -> FileFault
    requires within { IsFormWithin length fault }
    requires fits { size + length < 2 ^ 64 }
    ensures { result ≡ form_fault size fault }
{
    match fault {
        TreeFault::Missing(at) | TreeFault::Repeated(at) | TreeFault::Value(at) => {
            FileFault::Form(size as u64 + at)
        }
        TreeFault::OutOfMemory => FileFault::OutOfMemory,
    }
}
