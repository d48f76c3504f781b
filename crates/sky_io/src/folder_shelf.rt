//! The files of the current folder, by raw calls.
ghost use Rattle.std.specs.Prelude.{◌≡◌, [], None};
ghost use Rattle.sky_io.specs.RawReads.{unseen_files};

use crate::file_shelf::FileShelf;
use crate::raw::{RawFault, RawRead, raw_fault};
use std::alloc::Global;
use std::fs;
use std::io::Read;
use std::marker::Model;
use std::rt::Files;

/// The files of the current folder, by their names, which are passed to the system unchanged. Each call is one call of
/// the system. Contracts see the count of its faults alone.
#[derive(Drop)]
pub struct Folder<'a, R: Files> {
    rt: &'a R,
    faults: u64,
}

/// The files of the current folder, as a shelf.
pub type FolderShelf<'a, R> = FileShelf<Folder<'a, R>>;

impl<'a, R: Files> Model for Folder<'a, R> {
    ghost use Rattle.std.specs.Prelude.{ℕ};

    ghost Value = { ℕ };

    ghost view = { λ s. s.faults };
}

impl<'a, R: Files> FileShelf<Folder<'a, R>> {
    /// A shelf of which no fetch has failed. Does not allocate.
    pub fn new(rt: &'a R, alloc: Global) -> FolderShelf<'a, R>
        ensures texts { result.texts ≡ None }
        ensures failed { result.failed ≡ [] }
    {
        FileShelf::over(Folder { rt, faults: 0 }, alloc)
    }
}

impl<'a, R: Files> RawRead for Folder<'a, R> {
    ghost use Rattle.std.specs.Prelude.{None};

    type File = R::File;

    ghost state = { unseen_files };

    ghost rest = { λ _. None };

    fn open(&mut self, name: &str) -> Result<R::File, RawFault> {
        match fs::open(self.rt, name) {
            Ok(file) => Ok(file),
            Err(_) => Err(raw_fault(&mut self.faults)),
        }
    }

    fn read_some(&mut self, file: &mut R::File, room: &mut [u8]) -> Result<usize, RawFault> {
        match file.read(room) {
            Ok(n) => Ok(n),
            Err(_) => Err(raw_fault(&mut self.faults)),
        }
    }
}
