//! The input of a sweep: a query over pairs of rows of a table.

use crate::reach::Reach;
use answer_rules::ChunkQuery;
use sky_row::Rows;

/// The table, the chunk query, and how near the rows of a pair have to be.
#[derive(Drop)]
pub(crate) struct Asked<'a> {
    pub rows: &'a Rows,
    pub query: &'a ChunkQuery,
    pub reach: &'a Reach,
}
