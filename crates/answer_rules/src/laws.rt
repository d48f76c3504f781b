//! Lemmas about orders, pieces and answers, stated as functions that do nothing: a caller obtains what they ensure.

ghost use Rattle.answer_rules.specs.Coverage.{AnswerIsFlat, FoundInOne, PlanCovers, PlanFinishes};
ghost use Rattle.answer_rules.specs.KeyLaws.{KeysAscend, NoKeyTwice, RowsAreGrouped, ValueIsTold};
ghost use Rattle.answer_rules.specs.Laws.{AgainLaw, CutLaw, EndLaw, JoinLaw, OnlyOrder};
ghost use Rattle.answer_rules.specs.Laws.{RanksAreKeys, SublistLaw};
ghost use Rattle.answer_rules.specs.PlaceLaws.{ChunkIsTheOne, LiesInOne, LiesSomewhere};
ghost use Rattle.answer_rules.specs.Rounding.{AveragesAreNearest};
ghost use Rattle.answer_rules.specs.RangeLaws.{ChunkIsInRange, KeyItemIsInRange, OrderIsInRange};
ghost use Rattle.answer_rules.specs.PieceLaws.{CutPieceFinishes, EmptyPiece, JoinsAlone, KeptStands};
ghost use Rattle.answer_rules.specs.PieceLaws.{PieceFinishes, PieceIsForASet, PiecesJoin, RowsAreApart};
ghost use Rattle.answer_rules.specs.PlanLaws.{IdsByTheirChunks, PlanAscends, PlanIsFilled};
ghost use Rattle.answer_rules.specs.PlanLaws.{RadiusReaches, RadiusReachesOver};
ghost use Rattle.answer_rules.specs.Small.{JoinIsSmall, PieceIsSmall};
ghost use Rattle.answer_rules.specs.SoundChunks.{ChunkIsSound, CutIsSound};

/// Sort keys compare as order keys do: NULL before every number, and everything reversed if the order is descending.
#[tactic(auto, using(crate::proofs::Totals::ranks_are_keys))]
pub fn ranks_are_keys()
    ensures { RanksAreKeys }
{}

/// A list that ascends and has the same elements, no two of which tie, is the sorted list.
pub fn only_order<X: Ord>()
    ensures { OnlyOrder X.cmp }
{}

/// Top-n pruning. The kept rows of two lists, together, are kept rows of both. Kept rows of kept rows are kept rows,
/// and may be cut to their first n. At the end the first of the kept rows are the first of all, and the kept rows are a
/// sublist of all.
pub fn parts_keep<X: Ord>()
    ensures join { JoinLaw X.cmp }
    ensures again { AgainLaw X.cmp }
    ensures cut { CutLaw X.cmp }
    ensures end { EndLaw X.cmp }
    ensures sublist { SublistLaw X.cmp }
{}

/// The groups of some rows ascend by their keys, so that a key is unique.
pub fn keys_ascend()
    ensures ascend { KeysAscend }
    ensures apart { NoKeyTwice }
{}

/// Each row is in the group of its key, a group has exactly the rows of its key, and by key columns no group is empty.
pub fn rows_are_grouped()
    ensures { RowsAreGrouped }
{}

/// A plain item of a grouped query has on a group's key the value that it has on each of the group's rows.
pub fn value_is_told()
    ensures { ValueIsTold }
{}

/// Three kinds of numbers of a query that can be run are NULL or within ±2^100: the order keys of its rows or pairs,
/// the values of its chunk query, and the value of a grouped query's plain item on a group's key.
pub fn keys_are_in_range()
    ensures order { OrderIsInRange }
    ensures chunk { ChunkIsInRange }
    ensures item { KeyItemIsInRange }
{}

/// An average is the ten-thousandth nearest to the quotient of total and count, halves away from zero, and only that.
#[tactic(auto, using(crate::proofs::Rounding::averages_are_nearest))]
pub fn averages_are_nearest()
    ensures { AveragesAreNearest }
{}

/// Partial results over disjoint sets of chunks, combined, are a partial result over both sets.
#[tactic(auto, using(crate::proofs::Joining::pieces_join))]
pub fn pieces_join()
    ensures { PiecesJoin }
{}

/// Partial results can also be combined without their chunk query: an aggregate state carries its own combine function.
#[tactic(auto, using(crate::proofs::JoinedAlone::joins_alone))]
pub fn joins_alone()
    ensures { JoinsAlone }
{}

/// A partial result of rows may drop rows if it keeps the first n. No two of its rows tie in the order of rows.
pub fn pieces_keep()
    ensures stands { KeptStands }
    ensures apart { RowsAreApart }
{}

/// A partial result over a set of chunks does not depend on the order in which they are listed. An empty one is over
/// none.
pub fn pieces_of_sets()
    ensures same { PieceIsForASet }
    ensures empty { EmptyPiece }
{}

/// The chunk query of a well-formed query is well-formed: with the query's LIMIT or without, and as rewritten.
pub fn chunk_is_sound()
    ensures any { ChunkIsSound }
    ensures cut { CutIsSound }
{}

/// The totals of a partial result are as small as its rows allow, and the numbers of rows and pairs are within ±2^100.
/// Partial results over disjoint sets of chunks have together at most as many rows as the table.
pub fn pieces_are_small()
    ensures one { PieceIsSmall }
    ensures both { JoinIsSmall }
{}

/// A partial result of a query's chunk query, with the query's LIMIT or without, finishes as the query's answer over
/// its chunks. That includes its first total out of range. So does one of the chunk query as rewritten.
pub fn piece_finishes()
    ensures any { PieceFinishes }
    ensures cut { CutPieceFinishes }
{}

/// A chunk holds a point exactly if it is the point's chunk. A set of one chunk holds what the chunk holds, and the set
/// of all chunks holds every point.
pub fn chunks_hold_their_points()
    ensures exact { ChunkIsTheOne }
    ensures one { LiesInOne }
    ensures all { LiesSomewhere }
{}

/// The answer over all chunks is the answer over the flat table: a partition removes nothing and adds nothing.
#[tactic(auto, using(crate::proofs::Covering::answer_is_flat))]
pub fn answer_is_flat()
    ensures { AnswerIsFlat }
{}

/// In one chunk a query finds the rows or pairs that meet its conditions and whose first row the chunk holds.
#[tactic(auto, using(crate::proofs::Covering::found_in_one))]
pub fn found_in_one()
    ensures { FoundInOne }
{}

/// The coverage lemma: over its plan a query has the same answer as over the whole table.
#[tactic(auto, using(crate::proofs::Covering::plan_covers))]
pub fn plan_covers()
    ensures { PlanCovers }
{}

/// A partial result of a query's chunk query over its plan finishes as the answer over the flat table.
pub fn plan_finishes()
    ensures { PlanFinishes }
{}

/// A plan lists chunks of the sky that hold a row, and ascends.
pub fn plan_is_filled()
    ensures filled { PlanIsFilled }
    ensures ascend { PlanAscends }
{}

/// The limit of a query that is not refused for its radius is within the overlap at every chunk of its plan. So it is
/// at any chunks over whose overlap the query is not refused.
pub fn radius_reaches()
    ensures plan { RadiusReaches }
    ensures over { RadiusReachesOver }
{}

/// A chunk holds a row with one of some ids exactly if it is the chunk of one of them: an index of ids is enough.
pub fn ids_by_their_chunks()
    ensures { IdsByTheirChunks }
{}
