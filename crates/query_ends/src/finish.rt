//! The end of a query, by its plan and by how it ended at the board.
//!
//! Code that holds a tree when an arm ends early drops it by name. That is one call; what goes out of scope is dropped
//! part by part, and the function's proof is then many times as long.

ghost use Rattle.std.specs.Prelude.{◌≡◌, ◌≤◌, IfOk, length};
ghost use Rattle.std.specs.List.{AllZip};
ghost use Rattle.query_ends.specs.Ended.{AreEnded, IsEnded, IsPlannedEnd, MayAnswer, MayEnd};

use crate::end::End;
use crate::form::QueryForm;
use crate::plan::QueryPlan;
use scan_rules::ChunkSet;
use scan_session::End as BoardEnd;
use sky_io::Memory;
use sql_tree::Query;
use std::alloc::Global;

/// Returns the end of a query that is planned over these chunks, by how it ended at the board.
fn planned_end<Q, P: Drop, F: QueryForm<Q, P>>(
    form: &F,
    head: Query,
    query: &Q,
    chunks: &ChunkSet,
    end: BoardEnd<P>,
) -> Result<End, Memory>
    requires { MayAnswer (F.may_answer query.now) chunks.now end }
    ensures { IfOk result (IsPlannedEnd (F.answers head query.now (length chunks.now)) end) }
{
    match end {
        BoardEnd::Answered(piece) => {
            form.answer(head, query, chunks.as_slice().len() as u32, piece)
        }
        BoardEnd::Cancelled => {
            drop(head);
            Ok(End::Cancelled)
        }
        BoardEnd::Spent => {
            drop(head);
            Ok(End::Spent)
        }
        BoardEnd::Refused => unreachable!(),
    }
}

/// Returns the end of a query with this plan, by how it ended at the board. A query that is refused before it is run
/// ends so.
fn end_by<Q: Drop, P: Drop, F: QueryForm<Q, P>>(
    form: &F,
    plan: QueryPlan<Q>,
    end: BoardEnd<P>,
) -> Result<End, Memory>
    requires { MayEnd F.may_answer plan end }
    ensures { IfOk result (IsEnded F.answers plan end) }
{
    match plan {
        QueryPlan::Planned {
            head,
            query,
            chunks,
        } => {
            let end = planned_end(form, head, &query, &chunks, end);
            drop((chunks, query));
            end
        }
        QueryPlan::Refused(why) => {
            drop(end);
            Ok(End::Refused(why))
        }
    }
}

/// Returns the end of each query of a script, in their order. Allocates memory.
pub fn all_query_ends<Q: Drop, P: Drop, F: QueryForm<Q, P>>(
    alloc: Global,
    form: &F,
    plans: Vec<QueryPlan<Q>>,
    ends: Vec<BoardEnd<P>>,
) -> Result<Vec<End>, Memory>
    requires may { AllZip (MayEnd F.may_answer) plans.items ends.items }
    ensures { IfOk result (λ query_ends.
        AreEnded F.answers plans.items ends.items query_ends.items) }
{
    let mut query_ends = Vec::new(alloc);
    for (plan, end) in plans.into_iter().zip(ends) {
        query_ends.push(end_by(form, plan, end)?)?;
    }
    Ok(query_ends)
}
