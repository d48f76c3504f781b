//! Lemmas on the rows of subchunks, as functions that do nothing: a caller has what they ensure.

ghost use Rattle.chunk_store.specs.Laws.{EachRowInOneSub, NearRowsAreThere, SubRowsAreTheChunks};

/// Each row of a chunk is a row of exactly one of its subchunks.
#[tactic(auto, using(crate::proofs::SubLaws::each_row_in_one_sub))]
pub fn each_row_in_one_sub()
    ensures { EachRowInOneSub }
{}

/// The rows of a subchunk are rows of its chunk.
pub fn sub_rows_are_the_chunks()
    ensures { SubRowsAreTheChunks }
{}

/// A row no farther than the overlap radius from a row of a subchunk is a row of the subchunk or of its overlap. So a
/// near-neighbour join of a subchunk needs no other rows.
pub fn near_rows_are_there()
    ensures { NearRowsAreThere }
{}
