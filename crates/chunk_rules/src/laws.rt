//! Lemmas about chunks and rows, stated as functions that do nothing: a caller obtains what they ensure.

ghost use Rattle.chunk_rules.specs.Filled.{EachFilledIsListed, FilledAreChunks, FilledAscend};
ghost use Rattle.chunk_rules.specs.Places.{RowsAtPlaces};

/// The chunks that hold a row are chunks of the partition, in ascending order, and none is left out.
pub fn filled_chunks_ascend()
    ensures there { FilledAreChunks }
    ensures ascend { FilledAscend }
    ensures all { EachFilledIsListed }
{}

/// The rows at the positions of those that pass a test are the rows that pass it, in the table's order.
pub fn rows_at_places()
    ensures { RowsAtPlaces }
{}
