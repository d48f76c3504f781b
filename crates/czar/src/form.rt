//! The form of queries over the catalogue: what is attached for one, and how it is answered.

ghost use Rattle.std.specs.Prelude.{◌≡◌, IfOk};
ghost use Rattle.answer_rules.specs.Finish.{finished};
ghost use Rattle.partial_merge.specs.Joining.{MayFinish};
ghost use Rattle.czar.specs.Ended.{answer_end};
ghost use Rattle.czar.specs.Running.{IsOutOfRange};

use answer_rules::{MergePlan, Rewritten, TotalOut};
use partial_merge::Piece;
use query_ends::{End, QueryForm};
use sky_io::{Memory, Stop};
use sql_tree::Query;
use std::alloc::Global;
use transcript_rules::Refusal;

/// Queries over the catalogue, with the memory for their answers.
#[derive(Drop)]
pub(crate) struct ObjectForm {
    pub(crate) alloc: Global,
}

/// Returns the answer of a query with this piece over the given number of chunks, or its refusal for a total out of range.
fn answer_of(head: Query, merge: &MergePlan, chunks: u32, piece: Piece<'_>) -> Result<End, Memory>
    requires may { MayFinish merge.now piece }
    ensures { IfOk result (λ end.
        end ≡ answer_end head chunks (finished merge.now piece.entry)) }
{
    match piece.finish(merge) {
        Ok(table) => Ok(End::Answered {
            head,
            table,
            chunks,
        }),
        Err(stop) => {
            drop(head);
            out_of_range(stop)
        }
    }
}

/// Returns the end of a query whose finish stops with this error.
fn out_of_range(stop: Stop<TotalOut>) -> Result<End, Memory>
    ensures { IfOk result (IsOutOfRange stop) }
{
    match stop {
        Stop::Bad(out) => Ok(End::Refused(Refusal::Total(out))),
        Stop::Memory => Err(Memory),
    }
}

impl<'w> QueryForm<Rewritten, Piece<'w>> for ObjectForm {
    ghost use Rattle.czar.specs.Attached.{first_object_piece};
    ghost use Rattle.czar.specs.Ended.{IsAnsweredBy, MayAnswerBy};

    ghost first_piece = { first_object_piece };

    ghost may_answer = { MayAnswerBy };

    ghost answers = { IsAnsweredBy };

    fn empty(&self, query: &Rewritten) -> Piece<'w> {
        Piece::empty(self.alloc, &query.chunk)
    }

    fn answer(
        &self,
        head: Query,
        query: &Rewritten,
        chunks: u32,
        piece: Piece<'w>,
    ) -> Result<End, Memory> {
        answer_of(head, &query.merge, chunks, piece)
    }
}
