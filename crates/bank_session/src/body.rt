//! The body of a letter, read from the input.

ghost use Rattle.std.specs.Prelude.{◌≤◌, IfOk, OnOk, IfErr};
ghost use Rattle.std.specs.Io.KnownBytes.{IsAtEnd};
ghost use Rattle.bank_model.specs.Sound.{IsTextWithin};
ghost use Rattle.bank_session.specs.Letters.{IsBodyOf, ReadsBody};
ghost use Rattle.bank_session.specs.MailEnd.{StopsReading};

use bank_frames::{Ahead, MAX_INPUT, read_whole};
use bank_opening::{LetterFault, Stop};
use ofx_ports::{Failed, Source};
use ofx_types::{Text, TextFault};
use std::alloc::Global;

/// The most bytes of a body.
const MAX_BODY: u32 = 10_000;

/// The body that all bytes of the input are.
pub fn read_body<B: Source>(alloc: Global, input: &mut B) -> Result<Text, Stop>
    ensures fits { IfOk result (IsTextWithin 10000) }
    ensures found { IfOk result (IsBodyOf (B.left input.old)) }
    ensures at_end { OnOk result (IsAtEnd (B.left input.new)) }
    ensures later { B.faults input.old ≤ B.faults input.new }
    ensures refused { IfErr result (StopsReading (B.left input.old) (B.faults input.old) (B.faults input.new)) }
{
    let mut ahead = Ahead::new(alloc)?;
    match read_whole(input, &mut ahead) {
        Ok(()) => body_of(alloc, ahead.bytes()),
        Err(Failed) => Err(Stop::ReadFailed),
    }
}

/// The body that these bytes are, which are the whole input, or more than it may have.
fn body_of(alloc: Global, input: &[u8]) -> Result<Text, Stop>
    ensures { ReadsBody input.now result }
{
    if input.len() > MAX_INPUT {
        return Err(Stop::Letter(LetterFault::NoBody));
    }
    match Text::new(alloc, input, MAX_BODY) {
        Ok(body) => {
            if body.as_bytes().is_empty() {
                Err(Stop::Letter(LetterFault::NoBody))
            } else {
                Ok(body)
            }
        }
        Err(TextFault::OutOfMemory) => Err(Stop::NoMemory),
        Err(_) => Err(Stop::Letter(LetterFault::NoBody)),
    }
}
