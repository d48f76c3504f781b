//! A shelf over files that are read by raw calls.
//!
//! A file is read until it ends, or until it has given more bytes than the limit. A read that gives fewer bytes than there
//! is room for is followed by another one; only one that gives none is the end.
ghost use Rattle.std.specs.Prelude.{◌≡◌, ◌<◌, [], length};
ghost use Rattle.sky_io.specs.Sinks.{Rose};
ghost use Rattle.sky_io.specs.Shelves.{Fetched};
ghost use Rattle.sky_io.specs.FileReads.{FileShelfState, shelf_over, text_of, ReadStart, ReadNext};

use crate::raw::RawRead;
use crate::shelf::{Fetch, Shelf, note};
use std::alloc::Global;
use std::marker::Model;

// The most bytes of a file that one read takes.
const AT_ONCE: usize = 8192;

/// Files by their names, and the names whose fetch has failed.
#[derive(Drop)]
pub struct FileShelf<D: RawRead> {
    files: D,
    alloc: Global,
    failed: Vec<String>,
}

impl<D: RawRead> Model for FileShelf<D> {
    ghost use Rattle.sky_io.specs.Shelves.{names_of};
    ghost use Rattle.sky_io.specs.FileReads.{FileShelfState};

    ghost Value = { FileShelfState };

    ghost view = { λ s. record {
      texts = (D.state s.files).texts;
      failed = names_of s.failed.items;
      faults = (D.state s.files).faults;
    } };
}

impl<D: RawRead> FileShelf<D> {
    /// A shelf over files, of which no fetch has failed. Does not allocate.
    pub fn over(files: D, alloc: Global) -> FileShelf<D>
        ensures texts { result.texts ≡ (D.state files).texts }
        ensures failed { result.failed ≡ [] }
        ensures faults { result.faults ≡ (D.state files).faults }
    {
        FileShelf {
            files,
            alloc,
            failed: Vec::new(alloc),
        }
    }
}

impl<D: RawRead> Shelf for FileShelf<D> {
    ghost state = { shelf_over };

    /// Fetches as every shelf does. It fails only if a raw call does.
    fn fetch(&mut self, name: &str, limit: usize, into: &mut Vec<u8>) -> Fetch
        requires { into.old.items ≡ [] }
        ensures fetched { Fetched (shelf_over self.old) (shelf_over self.new) name.now limit
            into.new.items result }
        ensures cause { result ≡ Fetch.Failed → Rose self.old.faults self.new.faults }
    {
        let Ok(noted) = String::from_str(self.alloc, name) else {
            return Fetch::Memory;
        };
        if self.failed.reserve(1).is_err() {
            return Fetch::Memory;
        }
        match read_file(&mut self.files, name, limit, into) {
            Fetch::Done => Fetch::Done,
            Fetch::Memory => {
                into.clear();
                Fetch::Memory
            }
            Fetch::Failed => {
                into.clear();
                note(&mut self.failed, noted)
            }
        }
    }
}

// Opens the file and reads its beginning.
#[tactic(auto, using(crate::proofs::FileTexts::opened_read, crate::proofs::FileTexts::unopened))]
fn read_file<D: RawRead>(files: &mut D, name: &str, limit: usize, into: &mut Vec<u8>) -> Fetch
    requires { into.old.items ≡ [] }
    ensures { ReadStart (D.state files.old) (D.state files.new)
        (text_of (D.state files.old) name.now) limit into.new.items result }
{
    match files.open(name) {
        Ok(mut file) => read_start(files, &mut file, limit, into),
        Err(_) => Fetch::Failed,
    }
}

// Reads the first `limit + 1` bytes that are left of a file, or all if there are fewer.
fn read_start<D: RawRead>(
    files: &mut D,
    file: &mut D::File,
    limit: usize,
    into: &mut Vec<u8>,
) -> Fetch
    requires { into.old.items ≡ [] }
    ensures { ReadStart (D.state files.old) (D.state files.new) (D.rest file.old) limit
        into.new.items result }
{
    let mut buffer = [0u8; AT_ONCE];
    while into.len() <= limit {
        let most = (limit - into.len()).saturating_add(1).min(AT_ONCE);
        if let Some(result) = read_next(files, file, &mut buffer[..most], into) {
            return result;
        }
    }
    Fetch::Done
}

// Reads once, and appends the bytes that it gives. The result is `None` if more may follow.
fn read_next<D: RawRead>(
    files: &mut D,
    file: &mut D::File,
    room: &mut [u8],
    into: &mut Vec<u8>,
) -> Option<Fetch>
    requires { 0 < length room.old }
    ensures { ReadNext (D.state files.old) (D.state files.new) (D.rest file.old) (D.rest file.new)
        (length room.old) into.old.items into.new.items result }
{
    match files.read_some(file, room) {
        Ok(0) => Some(Fetch::Done),
        Ok(n) => match into.extend_from_slice(&room[..n]) {
            Ok(()) => None,
            Err(_) => Some(Fetch::Memory),
        },
        Err(_) => Some(Fetch::Failed),
    }
}
