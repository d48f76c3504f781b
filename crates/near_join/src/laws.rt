//! Lemmas about the join, stated as functions that do nothing: a caller obtains what they ensure.

ghost use Rattle.near_join.specs.Laws.{PairsOfSubs, WalkFindsAll};

/// The pairs whose first row is in a chunk are those that its subchunks find, each exactly once. A subchunk finds the
/// pairs of its rows with its rows and those of its overlap.
#[tactic(auto, using(crate::proofs::Listing::pairs_of_subs))]
pub fn pairs_of_subs()
    ensures { PairsOfSubs }
{}

/// The walk over the subchunks of a chunk finds the pairs of the chunk that meet some conditions, each once.
#[tactic(auto, using(crate::proofs::Walking::walk_finds_all))]
pub fn walk_finds_all()
    ensures { WalkFindsAll }
{}
