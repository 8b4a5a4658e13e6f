//! An office over a bank without records, which says nothing of what it knows.

ghost use Rattle.std.specs.Prelude.{◌≡◌, ◌<◌, [], None, IfOk, IfErr, IfSome, OnErr, true, false, length, ⊤};

use crate::sample::{keys, setup};
use bank_connection::Office;
use bank_connection::laws::newest_are_reported;
use bank_model::{Event, Setup, SubmitFault};
use bank_solo::SoloBank;
use ofx_file::OfxPrinter;
use ofx_types::{Duplicate, Moment, OutOfMemory, RequestFile, UserId};
use std::alloc::Global;
use std::process::Abort;

/// A bank of the sample's setup for one caller.
#[derive(Drop)]
pub struct BookOffice {
    alloc: Global,
    bank: SoloBank<OfxPrinter>,
    ghost pool: { bank.held ≡ [] },
}

impl BookOffice {
    /// A bank that opens.
    pub fn open(rt: &impl Abort, alloc: Global) -> BookOffice {
        let bank = SoloBank::begin(alloc, keys(rt), setup(rt, alloc), OfxPrinter);
        BookOffice {
            alloc,
            bank: bank.expect(rt, "a bank"),
        }
    }
}

impl Office for BookOffice {
    ghost setup = { λ o. o.bank.setup };

    ghost knows = { λ _. None };

    ghost through = { λ _. 0 };

    ghost ready = { λ _. ⊤ };

    fn setup(&self) -> &Setup {
        self.bank.book().setup()
    }

    fn ask(
        &mut self,
        user: UserId,
        file: &RequestFile,
        at: Moment,
    ) -> Result<Vec<u8>, SubmitFault> {
        let event = match file.copy() {
            Ok(file) => Event::File(user, file),
            Err(OutOfMemory) => return Err(SubmitFault::OutOfMemory),
        };
        match self.bank.step(self.alloc, &event, at) {
            Ok(reply) => Ok(reply),
            Err(OutOfMemory) => Err(SubmitFault::OutOfMemory),
        }
    }

    fn look(
        &mut self,
        user: UserId,
        file: &RequestFile,
        at: Moment,
    ) -> Result<Vec<u8>, OutOfMemory> {
        newest_are_reported();
        self.bank.book().poll(self.alloc, user, file, at)
    }
}
