//! One line of the journal: an event of the board, with the participant that caused it.
ghost use Rattle.std.specs.Prelude.{◌≡◌, IfOk};

use crate::chunk_set::ChunkSet;
use crate::query_set::QuerySet;
use sky_io::Memory;
use std::alloc::Global;

/// An event that changed the board. `seat` is the participant that caused it, and `q` a query's number from 1 to 255.
/// `chunk` is a chunk's number from 0, and `ticket` a task's number, counted from 0 in the order of the takes.
#[derive(Drop)]
pub enum JournalLine {
    /// The query was attached, and wants these chunks.
    Attach {
        seat: u32,
        q: u32,
        chunks: ChunkSet,
    },
    /// The chunk was taken for these queries.
    Take {
        seat: u32,
        ticket: u32,
        chunk: u32,
        queries: QuerySet,
    },
    /// The task was delivered, and these of its queries were lost because an allocation failed.
    Deliver {
        seat: u32,
        ticket: u32,
        lost: QuerySet,
    },
    /// The query was cancelled while it ran.
    Cancel {
        seat: u32,
        q: u32,
    },
    /// The result of the query was collected.
    Collect {
        seat: u32,
        q: u32,
    },
    /// No query is attached from then on.
    Close {
        seat: u32,
    },
}

impl JournalLine {
    /// A copy of the line. Allocates memory for the chunks of an Attach, and otherwise none.
    pub fn copy(&self, alloc: Global) -> Result<JournalLine, Memory>
        ensures { IfOk result (λ copy. copy ≡ self.now) }
    {
        match self {
            JournalLine::Attach { seat, q, chunks } => copy_attach(alloc, *seat, *q, chunks),
            JournalLine::Take {
                seat,
                ticket,
                chunk,
                queries,
            } => Ok(JournalLine::Take {
                seat: *seat,
                ticket: *ticket,
                chunk: *chunk,
                queries: *queries,
            }),
            JournalLine::Deliver { seat, ticket, lost } => Ok(JournalLine::Deliver {
                seat: *seat,
                ticket: *ticket,
                lost: *lost,
            }),
            JournalLine::Cancel { seat, q } => Ok(JournalLine::Cancel { seat: *seat, q: *q }),
            JournalLine::Collect { seat, q } => Ok(JournalLine::Collect { seat: *seat, q: *q }),
            JournalLine::Close { seat } => Ok(JournalLine::Close { seat: *seat }),
        }
    }
}

/// The Attach of the query with a copy of the chunks. Allocates memory.
fn copy_attach(alloc: Global, seat: u32, q: u32, chunks: &ChunkSet) -> Result<JournalLine, Memory>
    ensures { IfOk result (λ copy. copy ≡ JournalLine.Attach seat q chunks.now) }
{
    let chunks = chunks.copy(alloc)?;
    Ok(JournalLine::Attach { seat, q, chunks })
}
