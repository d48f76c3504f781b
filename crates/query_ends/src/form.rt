//! A form of queries: what is attached for one, and how it is answered.

ghost use Rattle.std.specs.Prelude.{◌≡◌, IfOk};

use crate::end::End;
use sky_io::Memory;
use sql_tree::Query;

/// How queries `Q` are answered from pieces `P`.
pub trait QueryForm<Q, P> {
    ghost use Rattle.std.specs.Prelude.{ℕ};
    ghost use Rattle.sql_tree.specs.declared.query.Query.{Query};
    ghost use Rattle.query_ends.specs.declared.end.End.{End};

    /// The piece of a query over no chunks.
    ghost first_piece: { Q → P };

    /// The query may be answered from this piece.
    ghost may_answer: { Q → P → Type 0 };

    /// The query with this tree and the given number of chunks may end so, by the piece over all of its chunks.
    ghost answers: { Query → Q → ℕ → P → End → Type 0 };

    /// Creates the piece of a query over no chunks. Does not allocate.
    fn empty(&self, query: &Q) -> P
        ensures { result ≡ first_piece query.now };

    /// Returns the end of a query by the piece over all of its chunks. Allocates memory for the answer.
    fn answer(&self, head: Query, query: &Q, chunks: u32, piece: P) -> Result<End, Memory>
        requires { may_answer query.now piece }
        ensures { IfOk result (answers head query.now chunks piece) };
}
