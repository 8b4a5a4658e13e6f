//! A setup read from its source.

ghost use Rattle.std.specs.Prelude.{◌≤◌, IfOk, IfErr};
ghost use Rattle.bank_model.specs.SetupForm.{IsWithinLimits};
ghost use Rattle.bank_opening.specs.SetupRead.{IsSetupOf, StopsSetup};

use crate::stop::Stop;
use bank_frames::{Ahead, read_whole};
use bank_model::{Setup, SetupFault};
use ofx_ports::{Failed, Source};
use std::alloc::Global;

/// The setup that all bytes of the source spell.
///
/// ```rust
/// use bank_opening::{Stop, read_setup, report_of_end};
/// use ofx_ports::MemSource;
/// use ofx_types::Note;
///
/// let alloc = rt.alloc();
/// let bytes = b"OFXBANK 1\nBANK 1\nLEAD 5\nWINDOW 3\nENTRIES 99\n\
///     USER alice secret\nACCT 1001 CHECKING 0 alice\n";
/// let mut source = MemSource::new(alloc, bytes).expect(&rt, "a source");
/// let setup = read_setup(alloc, &mut source).expect(&rt, "a setup");
/// assert_eq!(rt; setup.entries, 99);
/// // The second line has no form. A command that stops for it tells the line.
/// let mut source = MemSource::new(alloc, b"OFXBANK 1\nBANK\n").expect(&rt, "a source");
/// let stop = read_setup(alloc, &mut source).err();
/// assert!(rt; stop == Some(Stop::Setup(2)));
/// assert!(rt; report_of_end(Err(Stop::Setup(2))).note == Note::Place(2));
/// ```
pub fn read_setup<A: Source>(alloc: Global, source: &mut A) -> Result<Setup, Stop>
    ensures within { IfOk result IsWithinLimits }
    ensures found { IfOk result (IsSetupOf (A.left source.old)) }
    ensures later { A.faults source.old ≤ A.faults source.new }
    ensures refused { IfErr result (StopsSetup (A.left source.old) (A.faults source.old) (A.faults source.new)) }
{
    let mut ahead = Ahead::new(alloc)?;
    match read_whole(source, &mut ahead) {
        Ok(()) => {}
        Err(Failed) => return Err(Stop::ReadFailed),
    }
    match Setup::read(alloc, ahead.bytes()) {
        Ok(setup) => Ok(setup),
        Err(SetupFault::SetupLine(line)) => Err(Stop::Setup(line)),
        Err(SetupFault::OutOfMemory) => Err(Stop::NoMemory),
    }
}
