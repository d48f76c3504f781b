//! The form of child queries: their plans as those of any form, what is attached for a query, and how it is answered.

ghost use Rattle.std.specs.Prelude.{◌≡◌, IfOk};
ghost use Rattle.child_piece.specs.ChildAnswers.{MayFinishChild};
ghost use Rattle.child_session.specs.ChildEnded.{IsAnsweredBy};
ghost use Rattle.child_session.specs.ChildQueryPlans.{child_plan_of, child_plans_of};

use crate::plan::ChildPlan;
use child_piece::ChildPiece;
use child_rules::ChildBound;
use query_ends::{End, QueryForm, QueryPlan};
use sky_io::Memory;
use sql_tree::Query;
use std::alloc::Global;

/// Returns the plan of a child query as that of a query of any form.
fn query_plan(plan: ChildPlan) -> QueryPlan<ChildBound>
    ensures { child_plan_of result ≡ plan }
{
    match plan {
        ChildPlan::Planned {
            head,
            bound,
            chunks,
        } => QueryPlan::Planned {
            head,
            query: bound,
            chunks,
        },
        ChildPlan::Refused(why) => QueryPlan::Refused(why),
    }
}

/// Returns the plans of child queries as those of queries of any form, in their order. Allocates memory.
pub(crate) fn query_plans(
    alloc: Global,
    plans: Vec<ChildPlan>,
) -> Result<Vec<QueryPlan<ChildBound>>, Memory>
    ensures { IfOk result (λ query_plans. child_plans_of query_plans.items ≡ plans.items) }
{
    let mut query_plans = Vec::new(alloc);
    for plan in plans {
        query_plans.push(query_plan(plan))?;
    }
    Ok(query_plans)
}

/// Child queries, with the memory for their answers.
#[derive(Drop)]
pub(crate) struct ChildForm {
    pub(crate) alloc: Global,
}

/// Returns the answer of a query with this piece over the given number of chunks.
fn answer_of(
    alloc: Global,
    head: Query,
    query: &ChildBound,
    chunks: u32,
    piece: ChildPiece<'_>,
) -> Result<End, Memory>
    requires may { MayFinishChild query.now.bound piece }
    ensures { IfOk result (IsAnsweredBy head query.now chunks piece.entry) }
{
    match piece.finish(alloc, query) {
        Ok(table) => Ok(End::Answered {
            head,
            table,
            chunks,
        }),
        Err(Memory) => {
            drop(head);
            Err(Memory)
        }
    }
}

impl<'w> QueryForm<ChildBound, ChildPiece<'w>> for ChildForm {
    ghost use Rattle.child_session.specs.ChildAttached.{first_child_piece};
    ghost use Rattle.child_session.specs.ChildEnded.{IsAnsweredBy, MayAnswerChild};

    ghost first_piece = { first_child_piece };

    ghost may_answer = { MayAnswerChild };

    ghost answers = { IsAnsweredBy };

    fn empty(&self, query: &ChildBound) -> ChildPiece<'w> {
        ChildPiece::empty(self.alloc, query)
    }

    fn answer(
        &self,
        head: Query,
        query: &ChildBound,
        chunks: u32,
        piece: ChildPiece<'w>,
    ) -> Result<End, Memory> {
        answer_of(self.alloc, head, query, chunks, piece)
    }
}
