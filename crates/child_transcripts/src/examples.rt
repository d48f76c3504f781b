//! Worked examples of what a transcript shows of child queries, evaluated by the checker.

ghost use Rattle.std.specs.Prelude.{◌≡◌, ◌++◌, Ok, codes};
ghost use Rattle.sky_rules.specs.Examples.{halves};
ghost use Rattle.answer_rules.specs.Queries.{one_point};
ghost use Rattle.session_rules.specs.declared.end.EndKind.TheVariants.{Cancelled, Refused};
ghost use Rattle.child_rules.specs.ChildExamples.{all_gains, gains_in, gains_of_4};
ghost use Rattle.child_transcripts.specs.ChildBlocks.{child_answered_lines, child_block};
ghost use Rattle.child_transcripts.specs.ChildExamples.{gains_by, not_by_ids, six_objects, sources_of_six};

use child_bind_rules::examples::join_conditions;
use child_rules::examples::{sources_of_some_objects, sources_with_their_objects};

/// Each object with each of its sources. The number of chunks is that of the plan, which depends on the objects alone:
/// a query over one point needs two chunks, although the sources of one of them are in no row.
pub fn lines_of_answers()
    ensures all { child_answered_lines halves six_objects sources_of_six (Ok (gains_by all_gains))
        ≡ codes "o.objectId,s.sourceId,s.flux-o.flux\n1,101,1\n1,103,2\n4,102,1\n5,105,1\n"
        ++ codes "4 rows, 3 chunks\n" }
    ensures point { child_answered_lines halves six_objects sources_of_six
        (Ok (gains_by (gains_in one_point)))
        ≡ codes "o.objectId,s.sourceId,s.flux-o.flux\n1,101,1\n1,103,2\n2 rows, 2 chunks\n" }
    ensures id { child_answered_lines halves six_objects sources_of_six (Ok (gains_by gains_of_4))
        ≡ codes "o.objectId,s.sourceId,s.flux-o.flux\n4,102,1\n1 rows, 1 chunks\n" }
{
    sources_with_their_objects();
    sources_of_some_objects();
}

/// A query that does not equate the two objectIds has no answer. One that is cancelled shows this and nothing else.
pub fn blocks_without_rows()
    ensures refused { child_block halves six_objects sources_of_six 2 not_by_ids Refused
        ≡ codes "query 2\nrefused: join form\n" }
    ensures cancelled { child_block halves six_objects sources_of_six 3 not_by_ids Cancelled
        ≡ codes "query 3\ncancelled\n" }
{
    join_conditions();
}
