//! Files in memory that give a few bytes at a read, with injected failures.
ghost use Rattle.std.specs.Prelude.{◌≡◌, ◌<◌, ◌↔◌, ◌++◌, IfOk, IsErr, length, min, take};
ghost use Rattle.sky_io.specs.Shelves.{pairs_of};
ghost use Rattle.sky_io.specs.RawReads.{Opened, ReadSome};
ghost use Rattle.sky_io.specs.MemFiles.{MemFilesState, files_of, new_files, IsListedCall, OpenFails, given_of};

use crate::calls::Calls;
use crate::raw::{RawFault, RawRead, raw_fault};
use crate::shelf::find_text;
use std::alloc::Global;
use std::marker::Model;

/// Texts in memory, as files.
#[derive(Drop)]
pub struct MemFiles {
    alloc: Global,
    texts: Vec<(String, Vec<u8>)>,
    most: u32,
    calls: Calls,
    faults: u64,
}

/// What is left of an open file in memory.
#[derive(Drop)]
pub struct MemFile {
    text: Vec<u8>,
    at: usize,
}

impl Model for MemFiles {
    ghost use Rattle.std.specs.Prelude.{◌<◌};
    ghost use Rattle.sky_io.specs.Shelves.{pairs_of};
    ghost use Rattle.sky_io.specs.MemFiles.{MemFilesState};

    ghost Value = { MemFilesState };

    ghost view = { λ s. record {
      texts = pairs_of s.texts.items;
      most = s.most;
      calls = s.calls.made;
      failing = s.calls.failing.items;
      faults = s.faults;
    } };

    ghost invariant = { λ s. 0 < s.most };
}

impl Model for MemFile {
    ghost use Rattle.std.specs.Prelude.{ℕ, List, ◌≤◌, drop, length};

    ghost Value = { List ℕ };

    ghost view = { λ file. drop file.at file.text.items };

    ghost invariant = { λ file. file.at ≤ length file.text.items };
}

impl MemFiles {
    /// The files of these pairs of a name and a text, of which a call reads at most `most` bytes. Its calls of `open` and
    /// `read_some` are numbered together from 1, and fail if they are listed. An open copies the text. It also fails if
    /// no pair has the name, or after an allocation failure.
    pub fn new(
        alloc: Global,
        texts: Vec<(String, Vec<u8>)>,
        most: u32,
        failing: Vec<u64>,
    ) -> MemFiles
        requires { 0 < most }
        ensures { result ≡ new_files (pairs_of texts.items) most failing.items }
    {
        MemFiles {
            alloc,
            texts,
            most,
            calls: Calls { made: 0, failing },
            faults: 0,
        }
    }
}

impl MemFile {
    // Copies the next bytes to the start of the room, at most the given number, and returns how many.
    fn read(&mut self, room: &mut [u8], most: usize) -> usize
        ensures count { result ≡ min (min most (length room.old)) (length self.old) }
        ensures bytes { self.old ≡ take result room.new ++ self.new }
    {
        let rest = &self.text.as_slice()[self.at..];
        let count = most.min(room.len()).min(rest.len());
        room[..count].copy_from_slice(&rest[..count]);
        self.at += count;
        count
    }
}

impl RawRead for MemFiles {
    ghost use Rattle.std.specs.Prelude.{Some};

    type File = MemFile;

    ghost state = { files_of };

    ghost rest = { λ file. Some file };

    fn open(&mut self, name: &str) -> Result<MemFile, RawFault>
        ensures opened { Opened (λ file. Some file) (files_of self.old) (files_of self.new)
            name.now result }
        ensures fails { OpenFails self.old name.now → IsErr result }
    {
        if self.calls.next_fails() {
            return Err(raw_fault(&mut self.faults));
        }
        let Some(text) = find_text(self.texts.as_slice(), name) else {
            return Err(raw_fault(&mut self.faults));
        };
        match text.to_vec(self.alloc) {
            Ok(text) => Ok(MemFile { text, at: 0 }),
            Err(_) => Err(raw_fault(&mut self.faults)),
        }
    }

    /// Reads as many bytes as one call reads, as there is room for and as are left.
    fn read_some(&mut self, file: &mut MemFile, room: &mut [u8]) -> Result<usize, RawFault>
        requires { 0 < length room.old }
        ensures read { ReadSome (files_of self.old) (files_of self.new) (Some file.old)
            (Some file.new) room.new result }
        ensures fails { IsErr result ↔ IsListedCall self.old }
        ensures count { IfOk result (λ n. n ≡ given_of self.old room.old file.old) }
    {
        if self.calls.next_fails() {
            return Err(raw_fault(&mut self.faults));
        }
        Ok(file.read(room, self.most as usize))
    }
}
