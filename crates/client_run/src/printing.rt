//! Lines that are printed.

ghost use Rattle.std.specs.Prelude.{◌≡◌, ℕ, List, ◌++◌, IfOk, OnOk};
ghost use Rattle.client_run.specs.Lines as rules;
ghost use Rattle.client_run.specs.Lines.{printed, Prints};

use ofx_ports::{Failed, PutFault, Sink, write_whole};
use ofx_types::{OutOfMemory, Text};
use std::alloc::Global;

/// Appends a line with its LF.
pub(crate) fn put_line(line: &Text, bytes: &mut Vec<u8>) -> Result<(), OutOfMemory>
    ensures { OnOk result (bytes.new.items ≡ bytes.old.items ++ rules.line line.now) }
{
    bytes.extend_from_slice(line.as_bytes())?;
    bytes.push(b'\n')?;
    Ok(())
}

fn put_lines(lines: &[Text], bytes: &mut Vec<u8>) -> Result<(), OutOfMemory>
    ensures { OnOk result (bytes.new.items ≡ bytes.old.items ++ printed lines.now) }
{
    let mut left = lines;
    while let [line, rest @ ..] = left {
        put_line(line, bytes)?;
        left = rest;
    }
    Ok(())
}

/// Prints bytes, where there was memory for them.
pub(crate) fn print_bytes<W: Sink>(
    bytes: Result<Vec<u8>, OutOfMemory>,
    out: &mut W,
) -> Result<(), PutFault>
    ensures { (text : List ℕ) → IfOk bytes (λ bytes. bytes.items ≡ text) → Prints text
        (record { held = W.held out.old; faults = W.faults out.old })
        (record { held = W.held out.new; faults = W.faults out.new }) result }
{
    match bytes {
        Ok(bytes) => match write_whole(out, &bytes) {
            Ok(()) => Ok(()),
            Err(Failed) => Err(PutFault::Failed),
        },
        Err(OutOfMemory) => Err(PutFault::OutOfMemory),
    }
}

fn bytes_of(alloc: Global, lines: &[Text]) -> Result<Vec<u8>, OutOfMemory>
    ensures { IfOk result (λ bytes. bytes.items ≡ printed lines.now) }
{
    let mut bytes = Vec::new(alloc);
    put_lines(lines, &mut bytes)?;
    Ok(bytes)
}

/// Prints lines, each with an LF after it.
pub(crate) fn print_lines<W: Sink>(
    alloc: Global,
    lines: &[Text],
    out: &mut W,
) -> Result<(), PutFault>
    ensures { Prints (printed lines.now) (record { held = W.held out.old; faults = W.faults out.old })
        (record { held = W.held out.new; faults = W.faults out.new }) result }
{
    print_bytes(bytes_of(alloc, lines), out)
}
