//! Files on their way. None is ever lost from a bag: that it isn't delivered, or delivered again, is up to the steps.

ghost use Rattle.std.specs.Prelude.{◌≡◌, ◌<◌, ◌∷◌, ◌++◌, [], OnOk};
ghost use Rattle.std.specs.List.{slice_get};
ghost use Rattle.std.specs.Option.{option_copied};

use ofx_types::{OutOfMemory, Sequence};
use std::alloc::Global;
use std::marker::Model;

/// Files, numbered from 0 in the order in which they came in.
pub(crate) struct Bag {
    files: Vec<Sequence<u8>>,
}

impl Model for Bag {
    ghost use Rattle.std.specs.Prelude.{◌-◌, vec_len, vec_capacity};
    ghost use Rattle.ofx_world.specs.Views.{BagView};

    ghost Value = { BagView };

    ghost view = { λ b. record { files = b.files.items; room = vec_capacity b.files - vec_len b.files } };
}

impl Drop for Bag {
    fn drop(self) {
        let Bag { files: _ } = self;
    }
}

impl Bag {
    /// An empty bag. Takes no memory.
    pub(crate) fn new(alloc: Global) -> Bag
        ensures { result.files ≡ [] }
    {
        Bag {
            files: Vec::new(alloc),
        }
    }

    /// The files, lent.
    pub(crate) fn files(&self) -> &[Sequence<u8>]
        ensures { result.now ≡ self.now.files }
    {
        self.files.as_slice()
    }

    /// The file of a number, lent. None where there is none.
    pub(crate) fn file(&self, number: u32) -> Option<&[u8]>
        ensures { option_copied result ≡ slice_get self.now.files number }
    {
        match self.files.get(number as usize) {
            Some(file) => Some(file.items()),
            None => None,
        }
    }

    /// Makes room for one more file.
    pub(crate) fn reserve(&mut self) -> Result<(), OutOfMemory>
        ensures files { self.new.files ≡ self.old.files }
        ensures room { OnOk result (0 < self.new.room) }
    {
        self.files.reserve(1)?;
        Ok(())
    }

    /// Puts a file in, for which there is room. Takes no memory.
    pub(crate) fn put(&mut self, file: Vec<u8>)
        requires { 0 < self.old.room }
        ensures { self.new.files ≡ self.old.files ++ file.items ∷ [] }
    {
        self.files.push_reserved(Sequence::from_vec(file));
    }
}
