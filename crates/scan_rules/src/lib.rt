//! The legal histories of the shared scan, with lemmas about them.
//!
//! Callers see a journal as the list of its lines, oldest first. Each definition on it is a filter or a count over that
//! list (`specs/Queries.antt`, `specs/Scan.antt`). `specs/Runs.antt` defines which line may follow and what a run is.
//! The chunks of a `ChunkSet` and the queries of a `QuerySet` are ascending lists.
//!
//! Below: `sky_io` because an allocation can fail; the limits are those of scripts (`text_rules`) and skies
//! (`sky_rules`). There is no board, no thread and no work on chunks here: a lemma is a function without a body whose
//! clause is the lemma.
#![tactic(auto)]

pub mod chunk_set;
pub mod examples;
pub mod journal;
pub mod journal_line;
pub mod laws;
pub mod limits;
pub mod query_set;

pub use chunk_set::ChunkSet;
pub use journal::{Journal, JournalLines};
pub use journal_line::JournalLine;
pub use query_set::QuerySet;
