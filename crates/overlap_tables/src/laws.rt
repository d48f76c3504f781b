//! Lemmas on overlap, as functions that do nothing: a caller has what they ensure.

ghost use Rattle.overlap_tables.specs.Laws.{OthersAscend, OthersNeedIt, OverlapIsEnough};

/// Overlap is sufficient. A position that is no farther than the overlap radius from a position of a subchunk is in the
/// near region of the subchunk. It is in the subchunk's chunk, or in the full overlap of that.
pub fn overlap_is_enough()
    ensures { OverlapIsEnough }
{}

/// The chunks that need a position ascend, none twice.
pub fn others_ascend()
    ensures { OthersAscend }
{}

/// The chunks that need a position are those whose full overlap contains it.
pub fn others_need_it()
    ensures { OthersNeedIt }
{}
