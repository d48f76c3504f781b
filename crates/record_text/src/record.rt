//! A record of a text: its fields, each a list of bytes.
ghost use Rattle.std.specs.Prelude.{◌≡◌, List, ℕ, [], length, option_map, IfOk};
ghost use Rattle.csv.specs.Records.{field_at};
ghost use Rattle.record_text.specs.PlainText.{IsPlain, TookLine};
ghost use Rattle.record_text.specs.Standing.{CopiesGive, TookFirst};
ghost use Rattle.record_text.specs.declared.reading.RecordReader.TheVariants.{Copies};

use crate::lines::next_line;
use csv::{ByteRecord, Reader};
use sky_io::Memory;
use std::alloc::Global;
use std::marker::Model;

/// The fields of a record. They are borrowed from the text if it is read line by line, and else copied by `csv`.
#[derive(Drop)]
pub struct Record<'a> {
    in_line: Vec<&'a [u8]>,
    copied: ByteRecord,
    is_copied: bool,
}

impl<'a> Model for Record<'a> {
    ghost use Rattle.std.specs.Prelude.{List, ℕ, if◌then◌else◌};
    ghost use Rattle.csv.specs.Records.{fields_of};
    ghost use Rattle.record_text.specs.PlainText.{bytes_of};

    ghost Value = { List (List ℕ) };

    ghost view = { λ r. if r.is_copied then fields_of r.copied else bytes_of r.in_line.items };
}

impl<'a> Record<'a> {
    /// Creates a record without fields. Does not allocate.
    pub fn new(alloc: Global) -> Record<'a>
        ensures { result ≡ [] }
    {
        Record {
            in_line: Vec::new(alloc),
            copied: ByteRecord::new(alloc),
            is_copied: false,
        }
    }

    /// Returns the number of fields. Does not allocate.
    pub fn len(&self) -> usize
        ensures { result ≡ length self.now }
    {
        if self.is_copied {
            self.copied.len()
        } else {
            self.in_line.len()
        }
    }

    /// Returns the field at a position, counted from 0. Does not allocate.
    #[tactic(auto, using(crate::proofs::FieldAt::borrowed_there, crate::proofs::FieldAt::borrowed_missing))]
    pub(crate) fn get(&self, col: usize) -> Option<&[u8]>
        ensures { option_map (λ s. s.now) result ≡ field_at self.now col }
    {
        if self.is_copied {
            return self.copied.get(col);
        }
        if col < self.in_line.len() {
            Some(self.in_line[col])
        } else {
            None
        }
    }

    /// Reads the fields of the first line that is not empty, and returns whether there is one. `rest` is then what follows
    /// the line.
    pub(crate) fn read_line(&mut self, rest: &mut &'a [u8]) -> Result<bool, Memory>
        ensures { IfOk result (λ found. IsPlain rest.old.now
            → TookLine found rest.old.now self.new rest.new.now) }
    {
        self.is_copied = false;
        next_line(rest, &mut self.in_line)
    }

    /// Copies the fields of the next record of a reader, and returns whether there was one. A text in memory has no errors of
    /// its own, so an error is an allocation failure.
    pub(crate) fn read_copy(&mut self, reader: &mut Reader<&'a [u8]>) -> Result<bool, Memory>
        ensures { IfOk result (λ found. (rest : List (List (List ℕ))) → CopiesGive reader.old rest
            → TookFirst found self.new (Copies reader.new) rest) }
    {
        self.is_copied = true;
        let Ok(found) = reader.read_byte_record(&mut self.copied) else {
            return Err(Memory);
        };
        Ok(found)
    }
}
