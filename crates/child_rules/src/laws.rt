//! Lemmas about child queries, stated as functions that do nothing: a caller obtains what they ensure.

ghost use Rattle.child_rules.specs.ChildLaws.{BoundsAreKept, ChildAnswerIsFlat, ChildFoundInOne, ChildPieceFinishes};
ghost use Rattle.child_rules.specs.ChildLaws.{ChildPieceIsForASet, ChildPiecesJoin, ChildPlanCovers, ChildRowsAreApart};
ghost use Rattle.child_rules.specs.ChildLaws.{ColumnsAreRead, EmptyChildPiece, SourceIsARow};

/// If a source is the second row of a pair with its object, each column has the value and the largest size that it has in
/// its own table, and the source is a row within the limits.
pub fn sources_are_rows()
    ensures read { ColumnsAreRead }
    ensures kept { BoundsAreKept }
    ensures row { SourceIsARow }
{}

/// Partial results over disjoint sets of chunks, combined, are one over both sets, however these are listed. One without
/// rows is one over no chunks. No two rows of one tie.
pub fn child_pieces_join()
    ensures join { ChildPiecesJoin }
    ensures same { ChildPieceIsForASet }
    ensures empty { EmptyChildPiece }
    ensures apart { ChildRowsAreApart }
{}

/// A partial result finishes as the answer over its chunks.
pub fn child_piece_finishes()
    ensures { ChildPieceFinishes }
{}

/// The answer over all chunks, and the answer over the plan, are the answer over the two flat lists.
pub fn child_answer_is_flat()
    ensures all { ChildAnswerIsFlat }
    ensures plan { ChildPlanCovers }
{}

/// In one chunk a child query finds the pairs of the chunk's sources that meet the conditions, each once.
pub fn child_found_in_one()
    ensures { ChildFoundInOne }
{}
