//! The file of the setup, read once for the run, for what records are bound to, and for what is reported to people.

ghost use Rattle.std.specs.Prelude.{IfOk};
ghost use Rattle.bank_model.specs.SetupForm.{IsWithinLimits};

use crate::files::setup_file;
use bank_frames::{Ahead, read_whole};
use bank_model::Setup;
use bank_opening::{Stop, read_setup};
use ofx_ports::{MemSource, ReaderSource};
use ofx_types::OutOfMemory;
use record_files::{Cause, bound_text, cause_of};
use std::alloc::Global;
use std::fs;

/// The bytes of a setup, as many as decide of it. Where they couldn't be read, why.
#[derive(Drop)]
pub struct SetupFile {
    ahead: Ahead,
    cause: Option<Cause>,
}

impl SetupFile {
    /// Reads the file at a path.
    pub fn read(rt: &HostRuntime, path: &str) -> Result<SetupFile, OutOfMemory> {
        let mut ahead = Ahead::new(rt.alloc())?;
        let cause = match setup_file(rt, path) {
            Ok(file) => read_into(file, &mut ahead),
            Err(error) => Some(cause_of(error)),
        };
        Ok(SetupFile { ahead, cause })
    }

    /// The bytes.
    pub fn bytes(&self) -> &[u8] {
        self.ahead.bytes()
    }

    /// Why it couldn't be read.
    pub fn cause(&self) -> Option<&Cause> {
        self.cause.as_ref()
    }

    /// The bytes as a source. Where they couldn't be read, its first read fails.
    pub fn source(&self, alloc: Global) -> Result<MemSource, OutOfMemory> {
        match self.cause {
            None => MemSource::new(alloc, self.ahead.bytes()),
            Some(_) => MemSource::failing(alloc, &[], 1, &[1]),
        }
    }

    /// The setup, where it has its form.
    pub fn setup(&self, alloc: Global) -> Result<Setup, Stop>
        ensures { IfOk result IsWithinLimits }
    {
        let mut source = self.source(alloc)?;
        read_setup(alloc, &mut source)
    }

    /// The setup's text without passwords, to which records are bound.
    pub fn lines(&self, alloc: Global) -> Result<String, OutOfMemory> {
        let text = str::from_utf8(self.ahead.bytes()).unwrap_or("");
        Ok(bound_text(alloc, text)?)
    }
}

/// Reads a file. Why it can't be read, where it can't.
fn read_into(file: fs::File, ahead: &mut Ahead) -> Option<Cause> {
    let is_folder = match file.metadata() {
        Ok(found) => found.is_dir(),
        Err(_) => false,
    };
    let mut source = ReaderSource::new(file);
    match read_whole(&mut source, ahead) {
        Ok(()) => None,
        Err(_) if is_folder => Some(Cause::Folder),
        Err(_) => Some(Cause::Failed),
    }
}
