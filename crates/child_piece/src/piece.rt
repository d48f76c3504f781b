//! A piece of a child query's answer: its partial result over a set of chunks.
//!
//! It is a `Piece` of rows without a limit: it has all rows that the query finds over its chunks. So which rows it has
//! does not depend on the order of the query, and the first rows are taken from all of them at the end.

ghost use Rattle.std.specs.Prelude.{◌≡◌, [], IfOk, None, OnErr, OnOk};
ghost use Rattle.answer_rules.specs.Pieces.{OfRows};
ghost use Rattle.partial_rows.specs.Multisets.{out_row};
ghost use Rattle.partial_merge.specs.Joining.{AbsorbsRows, IsOfRows, MayAbsorbRows, TakesRow};
ghost use Rattle.child_piece.specs.ChildAnswers.{IsChildAnswer, MayFinishChild};

use child_rules::ChildBound;
use chunk_rewriter::rewrite;
use partial_merge::{Piece, Rank, Table};
use sky_io::Memory;
use sky_vector::Num;
use std::alloc::Global;
use std::marker::Model;

/// The partial result of a child query over a set of chunks.
#[derive(Drop)]
pub struct ChildPiece<'w> {
    piece: Piece<'w>,
}

impl<'w> Model for ChildPiece<'w> {
    ghost use Rattle.answer_rules.specs.Pieces.{PieceView};

    ghost Value = { PieceView };

    ghost view = { λ p. p.piece };
}

impl<'w> ChildPiece<'w> {
    /// Creates the piece over no chunks, which is the same for every query. Does not allocate.
    pub fn empty(alloc: Global, _query: &ChildBound) -> ChildPiece<'w>
        ensures { result ≡ OfRows None [] }
    {
        ChildPiece {
            piece: Piece::of_rows(alloc, None),
        }
    }

    /// Adds a row with this sort key and these values, as a scan finds it. After `Err` nothing has changed.
    pub fn push_row(&mut self, rank: &Rank, values: &[Option<Num>]) -> Result<(), Memory>
        requires rows { IsOfRows self.old }
        ensures kept { OnOk result (TakesRow self.old (out_row rank.now values.now) self.new) }
        ensures same { OnErr result (self.new ≡ self.old) }
    {
        self.piece.push_row(rank, values)
    }

    /// Adds the rows of another piece. After `Err` this piece is unchanged, and the other one is dropped.
    pub fn absorb(&mut self, other: ChildPiece<'w>) -> Result<(), Memory>
        requires { MayAbsorbRows self.old other }
        ensures kept { OnOk result (AbsorbsRows self.old other.entry self.new) }
        ensures same { OnErr result (self.new ≡ self.old) }
    {
        let ChildPiece { piece } = other;
        self.piece.absorb_rows(piece)
    }

    /// Returns the answer of the query over the piece's chunks. Consumes the piece. Allocates memory for the table, to
    /// sort its rows, and for the two parts into which the query is split.
    pub fn finish(self, alloc: Global, query: &ChildBound) -> Result<Table, Memory>
        requires { MayFinishChild query.now.bound self }
        ensures { IfOk result (IsChildAnswer query.now.bound self.entry) }
    {
        let ChildPiece { piece } = self;
        match rewrite(alloc, &query.bound) {
            Ok(cut) => piece.finish_rows(&cut.merge),
            Err(Memory) => Err(Memory),
        }
    }
}
