//! Lemmas about transcripts over a child table, stated as functions that do nothing: a caller obtains what they ensure.

ghost use Rattle.child_transcripts.specs.ChildLaws.{AnsweredShowsItsAnswer, BoundCanBeRun};
ghost use Rattle.child_transcripts.specs.ChildLaws.{ChildAnsweredIsItsAnswer, ChildBlocksInOrder};
ghost use Rattle.child_transcripts.specs.ChildLaws.{ChildCancelledIsItsLine, ChildRefusedBeforeItRuns};
ghost use Rattle.child_transcripts.specs.ChildLaws.{ChildRefusedIsItsLine};
ghost use Rattle.child_transcripts.specs.ChildLaws.{ChildSpentIsItsLine, OneChildBlockEach};
ghost use Rattle.child_transcripts.specs.ChildLaws.{RefusedHasItsChildReason};

use child_bind_rules::laws::bound_is_child;

/// A query that binds over two tables within their limits can be run.
pub fn bound_can_be_run()
    ensures { BoundCanBeRun }
{
    bound_is_child();
}

/// A child query is refused for its grammar or its binding, and for nothing else: it has no radius and no total.
pub fn child_refused_before_it_runs()
    ensures { ChildRefusedBeforeItRuns }
{}

/// The block of a query is determined by its end: the table of its answer, the line of its refusal, or a fixed line.
pub fn a_child_end_is_its_block()
    ensures answered { ChildAnsweredIsItsAnswer }
    ensures refused { ChildRefusedIsItsLine }
    ensures cancelled { ChildCancelledIsItsLine }
    ensures spent { ChildSpentIsItsLine }
{}

/// There is one block for each query, in the order of the script.
pub fn one_child_block_each()
    ensures each { OneChildBlockEach }
    ensures order { ChildBlocksInOrder }
{}

/// If the ends fit, a query that ends answered binds, and one that ends refused has a reason. Its block shows it.
pub fn child_ends_have_their_reasons()
    ensures answered { AnsweredShowsItsAnswer }
    ensures refused { RefusedHasItsChildReason }
{}
