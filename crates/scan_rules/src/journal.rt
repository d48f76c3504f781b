//! A journal apart from its board: the length of the ring and the lines.
ghost use Rattle.std.specs.Prelude.{◌≡◌, IfOk};

use crate::journal_line::JournalLine;
use sky_io::Memory;
use std::alloc::Global;
use std::marker::Model;

/// The number of chunks of a ring, and the lines of a journal over it.
#[derive(Drop)]
pub struct Journal {
    pub ring: u32,
    pub lines: JournalLines,
}

/// The lines of a journal, oldest first.
#[derive(Drop)]
pub struct JournalLines {
    lines: Vec<JournalLine>,
}

impl Model for JournalLines {
    ghost use Rattle.std.specs.Prelude.{List};
    ghost use Rattle.scan_rules.specs.declared.journal_line.JournalLine.{JournalLine};

    ghost Value = { List JournalLine };

    ghost view = { λ l. l.lines.items };
}

impl JournalLines {
    /// Wraps the lines. Does not allocate.
    pub fn of(lines: Vec<JournalLine>) -> JournalLines
        ensures { result ≡ lines.items }
    {
        JournalLines { lines }
    }

    /// Copies the lines. Allocates memory.
    pub fn copy_of(alloc: Global, lines: &[JournalLine]) -> Result<JournalLines, Memory>
        ensures { IfOk result (λ copies. copies ≡ lines.now) }
    {
        let mut copies = Vec::new(alloc);
        copies.reserve(lines.len())?;
        for line in lines {
            copies.push(line.copy(alloc)?)?;
        }
        Ok(JournalLines { lines: copies })
    }

    /// The lines, oldest first. Does not allocate.
    pub fn as_slice(&self) -> &[JournalLine]
        ensures { result.now ≡ self.now }
    {
        self.lines.as_slice()
    }

    /// Unwraps the lines. Does not allocate.
    pub fn into_vec(self) -> Vec<JournalLine>
        ensures { result.items ≡ self }
    {
        self.lines
    }
}
