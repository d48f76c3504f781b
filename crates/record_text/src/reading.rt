//! The records of a text, one at a time.
//!
//! A text without double quotes, carriage returns and a byte order mark is read line by line, any other by the `csv` library. The
//! other modules know a reader by the records that it has yet to return (`specs/Standing.antt`).
ghost use Rattle.std.specs.Prelude.{◌≤◌, List, ℕ, IfOk, length};
ghost use Rattle.csv.specs.Reading.{default_config, records, strip_bom};
ghost use Rattle.record_text.specs.Standing.{CopiesGive, StillGives, TookFirst};
ghost use Rattle.text_rules.specs.declared.limits.TheConstants.{TEXT_MOST};

use crate::lines::is_plain;
use crate::record::Record;
use csv::{Reader, ReaderBuilder};
use sky_io::Memory;
use std::alloc::Global;

/// A reader of the records of a text.
#[derive(Drop)]
pub enum RecordReader<'a> {
    /// What is left of a text without double quotes and carriage returns.
    Lines(&'a [u8]),
    /// A reader of any text, which copies the fields.
    Copies(Reader<&'a [u8]>),
}

/// Creates a reader of `csv` for all the records of a text.
#[tactic(auto, using(crate::proofs::Shortens::stripped_small))]
fn copies_of<'a>(alloc: Global, text: &'a [u8]) -> Reader<&'a [u8]>
    requires { length text.now ≤ TEXT_MOST }
    ensures { CopiesGive result (records default_config (strip_bom text.now)) }
{
    ReaderBuilder::new()
        .has_headers(false)
        .flexible(true)
        .from_reader(alloc, text)
}

/// Creates a reader of all the records of a text.
pub fn reader_of<'a>(alloc: Global, text: &'a [u8]) -> RecordReader<'a>
    requires { length text.now ≤ TEXT_MOST }
    ensures { StillGives result (records default_config (strip_bom text.now)) }
{
    if is_plain(text) {
        RecordReader::Lines(text)
    } else {
        RecordReader::Copies(copies_of(alloc, text))
    }
}

/// Reads the next record into `fields`, and returns whether there was one. Allocates memory if `fields` has no room. After an
/// error nothing is known of the reader and of `fields`.
#[tactic(auto, using(crate::proofs::Shortens::took_line, crate::proofs::Shortens::took_copy))]
pub fn read_next<'a>(reader: &mut RecordReader<'a>, fields: &mut Record<'a>) -> Result<bool, Memory>
    ensures { IfOk result (λ found. (rest : List (List (List ℕ))) → StillGives reader.old rest
        → TookFirst found fields.new reader.new rest) }
{
    match reader {
        RecordReader::Lines(rest) => fields.read_line(rest),
        RecordReader::Copies(reader) => fields.read_copy(reader),
    }
}
