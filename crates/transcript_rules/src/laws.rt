//! Lemmas about transcripts, stated as functions that do nothing: a caller obtains what they ensure.

ghost use Rattle.transcript_rules.specs.KeyedTexts.{PlainItemsByKeys};
ghost use Rattle.transcript_rules.specs.BlockLaws.{AnsweredIsItsTable, CancelledIsItsLine};
ghost use Rattle.transcript_rules.specs.BlockLaws.{ExplainedIsItsPlan, ExplainedIsItsRefusal};
ghost use Rattle.transcript_rules.specs.BlockLaws.{LimitedInTheMergesOrder, OneTextEach, RefusedIsItsLine};
ghost use Rattle.transcript_rules.specs.BlockLaws.{SpentIsItsLine, WorkIsAPlan};
ghost use Rattle.transcript_rules.specs.Laws.{AnsweredShowsItsTable, AnsweredUnlessCancelledOrSpent};
ghost use Rattle.transcript_rules.specs.Laws.{BlocksAreNumbered, BlocksInOrder, CancelledIsAskedFor};
ghost use Rattle.transcript_rules.specs.Laws.{EarlyIsTold, EqualQueriesAreAlike, ExplainedInOrder};
ghost use Rattle.transcript_rules.specs.Laws.{OneBlockEach, OneExplainedEach, RefusedHasItsReason};
ghost use Rattle.transcript_rules.specs.Laws.{RefusedShowsNoRows};

/// There is one block for each query, in the order of the script, and each begins with `query K`.
#[tactic(auto, using(crate::proofs::Blocks::one_block_each, crate::proofs::Blocks::blocks_in_order, crate::proofs::Blocks::blocks_are_numbered))]
pub fn one_block_each()
    ensures each { OneBlockEach }
    ensures order { BlocksInOrder }
    ensures numbered { BlocksAreNumbered }
{}

/// If the ends fit, a refused query shows no rows, and one that is refused before it is run shows its refusal.
pub fn refused_show_no_rows()
    ensures refused { RefusedShowsNoRows }
    ensures early { EarlyIsTold }
{}

/// If the ends fit, a query that ends answered has an answer over the flat table, and its block shows it.
#[tactic(auto, using(crate::proofs::Shown::answered_shows_its_table))]
pub fn answered_show_their_table()
    ensures { AnsweredShowsItsTable }
{}

/// If the ends fit, a query that ends refused has a reason, and one that ends cancelled was cancelled by the script.
/// One for which neither holds ends answered, unless it runs out of memory.
pub fn ends_have_their_reasons()
    ensures refused { RefusedHasItsReason }
    ensures cancelled { CancelledIsAskedFor }
    ensures answered { AnsweredUnlessCancelledOrSpent }
{}

/// If a query occurs several times in a script, its blocks are the same for the same end, but for their numbers.
pub fn equal_queries_are_alike()
    ensures { EqualQueriesAreAlike }
{}

/// An explain text has one block for each query, in the order of the script.
#[tactic(auto, using(crate::proofs::Blocks::one_explained_each, crate::proofs::Blocks::explained_in_order))]
pub fn explained_in_order()
    ensures each { OneExplainedEach }
    ensures order { ExplainedInOrder }
{}

/// The block of a query is determined by its end: the table of its answer, the line of its refusal, or a fixed line.
pub fn an_end_is_its_block()
    ensures answered { AnsweredIsItsTable }
    ensures refused { RefusedIsItsLine }
    ensures cancelled { CancelledIsItsLine }
    ensures spent { SpentIsItsLine }
{}

/// The explain block of a query is its three lines, or the line of its refusal if it is refused before it is run.
pub fn a_plan_is_its_block()
    ensures planned { ExplainedIsItsPlan }
    ensures refused { ExplainedIsItsRefusal }
{}

/// A query that is planned has work exactly if its plan has chunks.
pub fn work_is_a_plan()
    ensures { WorkIsAPlan }
{}

/// If a chunk query is limited, it is in the order of the merge, so that its first rows are those that may be needed.
pub fn limited_in_the_order_of_the_merge()
    ensures { LimitedInTheMergesOrder }
{}

/// A chunk query is printed with one text for each of its columns, so that `cK` names the one at position K.
#[tactic(auto, using(crate::proofs::Texts::one_text_each))]
pub fn one_text_each()
    ensures { OneTextEach }
{}

/// In a merge a plain item of a grouped query is as it is printed, with each column written as that of its key.
#[tactic(auto, using(crate::proofs::KeyedItems::plain_items_by_keys))]
pub fn plain_items_by_keys()
    ensures { PlainItemsByKeys }
{}
