//! The plan of a query before it is run.

use scan_rules::ChunkSet;
use sql_tree::Query;
use transcript_rules::Refusal;

/// The plan of a query, or the reason for which it is refused before it is run.
#[derive(Drop)]
pub enum QueryPlan<Q> {
    /// The query's tree, the query in the form in which it is run, and the chunks that it needs.
    Planned {
        head: Query,
        query: Q,
        chunks: ChunkSet,
    },
    /// The reason for which it is refused.
    Refused(Refusal),
}
