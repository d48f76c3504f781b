//! A piece of an answer: the partial result of a chunk query over a set of chunks.
//!
//! Chunks are scanned in any order and by more than one worker, so pieces can be joined in any order. Rows are a
//! multiset, of which the first n are kept if there is a LIMIT n. Groups are an aggregation table that is consolidated
//! as it grows. At the end the piece over all chunks of the plan is sorted and becomes the table.
//!
//! Callers see a piece as its rows with the limit of the chunk query, or as its groups (`PieceView`). `PieceFor`
//! defines what a piece represents, and `absorb` preserves it for any two pieces.

ghost use Rattle.std.specs.Prelude.{◌≡◌, ◌≤◌, [], Err, IfErr, IfOk, Ok, OnErr, OnOk};
ghost use Rattle.std.specs.Bool.{OnTrue};
ghost use Rattle.answer_rules.specs.Finish.{finished};
ghost use Rattle.answer_rules.specs.Keeps.{AreApart};
ghost use Rattle.answer_rules.specs.PieceLaws.{empty_view};
ghost use Rattle.answer_rules.specs.Pieces.{OfRows};
ghost use Rattle.answer_rules.specs.Ranks.{row_order};
ghost use Rattle.answer_rules.specs.Rows.{limit_of};
ghost use Rattle.partial_merge.specs.Contents.{rows_of};
ghost use Rattle.partial_rows.specs.Multisets.{out_row};
ghost use Rattle.partial_merge.specs.Joining.{AbsorbsRows, IsNoneOfFirst, IsOfRows, IsReportedLate, Joins};
ghost use Rattle.partial_merge.specs.Joining.{MayAbsorbRows, MayFinish, MayJoin, MayTakeGroup, MayTakeGroups, TakesRow, with_group, with_groups};
ghost use Rattle.partial_groups.specs.Groups.{group_by};
ghost use Rattle.partial_groups.specs.Ungrouped.{row_groups};
ghost use Rattle.partial_merge.specs.Sizes.{IsWithin, size_of};
ghost use Rattle.sky_io.specs.Stops.{IfBad};

use crate::contents::{
    Contents, combine_contents, count, finish, finish_rows, is_too_late, no_rows, nothing,
    push_group, push_row, push_rows,
};
use answer_rules::{ChunkQuery, MergePlan, TotalOut};
use answer_table::Table;
use group_key::Key;
use partial_groups::Tally;
use partial_rows::Rank;
use sky_io::{Memory, Stop};
use sky_row::Rows;
use sky_vector::Num;
use std::alloc::Global;
use std::marker::{Model, PhantomData};

/// The partial result of a chunk query over a set of chunks. It is defined over the rows of a session, though it holds
/// no reference to them.
pub struct Piece<'w> {
    alloc: Global,
    contents: Contents,
    of: PhantomData<&'w Rows>,
}

// A derived drop would be proved again in each crate that drops one.
impl Drop for Piece<'_> {
    fn drop(self) {
        let Piece {
            alloc,
            contents,
            of,
        } = self;
    }
}

impl<'w> Model for Piece<'w> {
    ghost use Rattle.answer_rules.specs.Pieces.{PieceView};
    ghost use Rattle.partial_merge.specs.Contents.{view_in};

    ghost Value = { PieceView };

    ghost view = { λ p. view_in p.contents };
}

impl<'w> Piece<'w> {
    /// Creates the piece over no chunks. Does not allocate.
    pub fn empty(alloc: Global, query: &ChunkQuery) -> Piece<'w>
        ensures { result ≡ empty_view query.now.shape (limit_of query.now.limit) }
    {
        Piece {
            alloc,
            contents: nothing(alloc, query),
            of: PhantomData,
        }
    }

    /// Creates a piece of rows that has none yet, and keeps the first n of them if there is a limit n. Does not allocate.
    pub fn of_rows(alloc: Global, limit: Option<usize>) -> Piece<'w>
        ensures { result ≡ OfRows limit [] }
    {
        Piece {
            alloc,
            contents: no_rows(alloc, limit),
            of: PhantomData,
        }
    }

    /// Returns true only if a row with this sort key is none of the first n rows of a LIMIT n, whatever its values.
    /// Returns true as soon as n rows are held and none of them comes after such a row. Such a row need not be pushed,
    /// nor its values be computed. Does not allocate.
    pub fn is_too_late(&self, rank: &Rank) -> bool
        ensures late { OnTrue result (IsNoneOfFirst self.now rank.now) }
        ensures reported { IsReportedLate self.now rank.now result }
    {
        is_too_late(&self.contents, rank)
    }

    /// Adds a row with this sort key and these values, as a scan finds it. After `Err` nothing has changed.
    pub fn push_row(&mut self, rank: &Rank, values: &[Option<Num>]) -> Result<(), Memory>
        requires rows { IsOfRows self.old }
        ensures kept { OnOk result (TakesRow self.old (out_row rank.now values.now) self.new) }
        ensures same { OnErr result (self.new ≡ self.old) }
    {
        push_row(&mut self.contents, rank, values)
    }

    /// Adds a group with this key, this number of rows and these aggregate states, as a scan finds it. After `Err`
    /// nothing has changed.
    pub fn push_group(&mut self, key: Key, rows: u32, parts: &[Tally]) -> Result<(), Memory>
        requires alike { MayTakeGroup self.old (group_by key rows parts.now) }
        ensures put { OnOk result (self.new ≡ with_group self.old (group_by key rows parts.now)) }
        ensures same { OnErr result (self.new ≡ self.old) }
    {
        push_group(&mut self.contents, key, rows, parts)
    }

    /// Adds rows with these numbers as their keys, one row for each number, which are grouped at the end. `counted` tells
    /// of each aggregate whether it counts the rows. After `Err` nothing has changed.
    pub fn push_rows(&mut self, counted: Vec<bool>, values: Vec<i64>) -> Result<(), Memory>
        requires alike { MayTakeGroups self.old (row_groups counted.items values.items) }
        ensures put { OnOk result (self.new
            ≡ with_groups self.old (row_groups counted.items values.items)) }
        ensures same { OnErr result (self.new ≡ self.old) }
    {
        push_rows(&mut self.contents, counted, values)
    }

    /// Returns the number of rows, which is at most n for a chunk query with LIMIT n. For groups it returns their
    /// number, where one key may count more than once. Does not allocate.
    pub fn held(&self) -> usize
        ensures held { IsOfRows self.now → result ≡ size_of self.now }
        ensures most { size_of self.now ≤ result }
        ensures few { IsWithin result self.now }
    {
        count(&self.contents)
    }

    /// Adds another piece, so that this one represents the chunks of both. After `Err` this piece is unchanged, and the
    /// other one is dropped.
    pub fn absorb(&mut self, other: Piece<'w>) -> Result<(), Memory>
        requires { MayJoin self.old other }
        ensures joined { OnOk result (Joins self.old other.entry self.new) }
        ensures same { OnErr result (self.new ≡ self.old) }
    {
        let Piece {
            alloc: _,
            contents,
            of: _,
        } = other;
        combine_contents(&mut self.contents, contents)
    }

    /// Adds the rows of another piece of rows with the same limit: the first of both are kept. After `Err` this piece is
    /// unchanged, and the other one is dropped.
    pub fn absorb_rows(&mut self, other: Piece<'w>) -> Result<(), Memory>
        requires { MayAbsorbRows self.old other }
        ensures kept { OnOk result (AbsorbsRows self.old other.entry self.new) }
        ensures same { OnErr result (self.new ≡ self.old) }
    {
        let Piece {
            alloc: _,
            contents,
            of: _,
        } = other;
        combine_contents(&mut self.contents, contents)
    }

    /// Returns the table of rows, no two of which are equal in order: its rows in order, or the first of them if there
    /// is a limit. Consumes the piece. Allocates memory for the table and to sort its rows.
    pub fn finish_rows(self, merge: &MergePlan) -> Result<Table, Memory>
        requires rows { IsOfRows self }
        requires apart { AreApart row_order (rows_of self) }
        ensures { IfOk result (λ table. finished merge.now self.entry ≡ Ok table) }
    {
        let Piece {
            alloc,
            contents,
            of: _,
        } = self;
        finish_rows(alloc, contents, merge)
    }

    /// Returns the answer: its rows in order, or the first of them if there is a limit. If totals are outside ±2^100,
    /// returns the first of them, by group, then by item. Consumes the piece. Allocates memory for the table and
    /// to sort its rows, and for groups also for a new aggregation table.
    pub fn finish(self, merge: &MergePlan) -> Result<Table, Stop<TotalOut>>
        requires { MayFinish merge.now self }
        ensures ok { IfOk result (λ table. finished merge.now self.entry ≡ Ok table) }
        ensures out { IfErr result (λ stop. IfBad stop (λ out.
            finished merge.now self.entry ≡ Err out.total)) }
    {
        let Piece {
            alloc,
            contents,
            of: _,
        } = self;
        finish(alloc, contents, merge)
    }
}
