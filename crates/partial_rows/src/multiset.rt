//! A multiset of rows: their sort keys are in one list, and all their values in another. So a row needs no allocation
//! of its own.
//!
//! The rows are in no order before the end. Without a limit a multiset keeps all its rows. With a limit n it is a heap
//! of the first n, and a row that comes after n others is inspected and dropped. The values of dropped rows stay until
//! the list of values has doubled. Then the values of the remaining rows are copied into a new list (`vacuum`).
//!
//! A join whose answer is the two ids of each pair has millions of rows whose values repeat their sort keys. Without a
//! limit and without an order key such a pair is stored apart as one number, in which its two ids are packed, and has no
//! other values (`id_pairs`). If the multiset holds nothing else, the table is written from these numbers alone
//! (`multiset_table`).

ghost use Rattle.std.specs.Prelude.{◌≡◌, ◌≤◌, ◌++◌, ◌∷◌, [], ℤ, length, IfOk, IfSome, List, None, OnErr, OnOk, Option, true};
ghost use Rattle.std.specs.Bool.{OnTrue};
ghost use Rattle.answer_rules.specs.Finish.{merged_rows};
ghost use Rattle.answer_rules.specs.Keeps.{AreApart, KeepsFirst};
ghost use Rattle.answer_rules.specs.Ranks.{row_order};
ghost use Rattle.partial_rows.specs.Multisets.{ComesBeforeNone, out_row, pushed_in};
ghost use Rattle.partial_rows.specs.Pairs.{pair_row};

use crate::buffer_cells::{join_and_vacuum, put_and_vacuum};
use crate::cell::Cell;
use crate::id_pair::pair_of;
use crate::id_pairs::{IdPairs, count_more};
use crate::multiset_table::multiset_table;
use crate::rank::Rank;
use crate::row_buffer::{RowBuffer, count, empty_row_buffer, is_too_late};
use answer_rules::MergePlan;
use answer_table::Table;
use sky_io::Memory;
use sky_vector::Num;
use std::alloc::Global;
use std::marker::Model;

/// The rows of a piece, in any order.
pub struct Multiset {
    alloc: Global,
    buffer: RowBuffer,
    cells: Vec<Cell>,
    vacuumed: usize,
    /// The pairs whose values are their own ids, each packed into one number.
    pairs: IdPairs,
}

// A derived drop would be proved again in each crate that drops one.
impl Drop for Multiset {
    fn drop(self) {
        let Multiset {
            alloc,
            buffer,
            cells,
            vacuumed,
            pairs,
        } = self;
    }
}

/// The multiset is vacuumed for the first time when it has twice this number of values.
const SHORT: usize = 512;

impl Model for Multiset {
    ghost use Rattle.partial_rows.specs.Views.{MultisetView};

    ghost Value = { MultisetView };

    ghost use Rattle.std.specs.Prelude.{length};
    ghost use Rattle.partial_rows.specs.Multisets.{IsMultiset, view_of};
    ghost use Rattle.partial_rows.specs.Pairs.{pairs_in};

    ghost view = { λ b. view_of b.buffer b.cells.items (pairs_in b.pairs) };

    ghost invariant = { λ b. IsMultiset (length b.cells.items) b.buffer (pairs_in b.pairs) };
}

/// Returns the pair with this sort key and these values, if all rows are kept and only the pair's ids have to be
/// stored.
#[inline]
fn ids_alone(buffer: &RowBuffer, rank: &Rank, values: &[Option<Num>]) -> Option<u128>
    ensures all { IfSome result (λ pair. pushed_in buffer.now ≡ None) }
    ensures row { IfSome result (λ pair. pair_row pair ≡ out_row rank.now values.now) }
{
    match buffer {
        RowBuffer::All(_) => pair_of(rank, values),
        RowBuffer::First { limit: _, heap: _ } => None,
    }
}

impl Multiset {
    /// Creates a multiset without rows, which keeps the first n, or all. Does not allocate.
    pub fn empty(alloc: Global, limit: Option<usize>) -> Multiset
        ensures { result ≡ record { pushed = limit; rows = [] } }
    {
        Multiset {
            alloc,
            buffer: empty_row_buffer(alloc, limit),
            cells: Vec::new(alloc),
            vacuumed: SHORT,
            pairs: IdPairs::new(alloc),
        }
    }

    /// Returns true only if a row with this sort key is none of the first n, whatever its values. Returns true as soon
    /// as the multiset holds as many rows as the limit and none of them comes after such a row. Does not allocate.
    pub fn is_too_late(&self, rank: &Rank) -> bool
        ensures late { OnTrue result ((values : List (Option ℤ)) →
            KeepsFirst row_order self.now.pushed
            (self.now.rows ++ out_row rank.now values ∷ []) self.now.rows) }
        ensures reported { IfSome self.now.pushed (λ n. n ≤ length self.now.rows →
            ComesBeforeNone rank.now self.now.rows → result ≡ true) }
    {
        is_too_late(&self.buffer, &rank.at(0, 0))
    }

    /// Adds a pair whose values are its ids. After `Err` nothing has changed.
    #[inline]
    fn push_pair(&mut self, pair: u128) -> Result<(), Memory>
        requires { self.old.pushed ≡ None }
        ensures pushed { self.new.pushed ≡ self.old.pushed }
        ensures kept { OnOk result (KeepsFirst row_order self.old.pushed
            (self.old.rows ++ pair_row pair ∷ []) self.new.rows) }
        ensures same { OnErr result (self.new ≡ self.old) }
    {
        count_more(self.row_count(), 1)?;
        self.pairs.push(pair)?;
        Ok(())
    }

    /// Adds any row with this sort key and these values. After `Err` nothing has changed.
    fn push_row(&mut self, rank: &Rank, values: &[Option<Num>]) -> Result<(), Memory>
        ensures pushed { self.new.pushed ≡ self.old.pushed }
        ensures kept { OnOk result (KeepsFirst row_order self.old.pushed
            (self.old.rows ++ out_row rank.now values.now ∷ []) self.new.rows) }
        ensures same { OnErr result (self.new ≡ self.old) }
    {
        if is_too_late(&self.buffer, &rank.at(0, 0)) {
            return Ok(());
        }
        count_more(self.row_count(), 1)?;
        self.vacuumed = put_and_vacuum(
            self.alloc,
            &mut self.buffer,
            &mut self.cells,
            self.vacuumed,
            rank,
            values,
        )?;
        Ok(())
    }

    /// Adds a row with this sort key and these values. After `Err` nothing has changed.
    pub fn push(&mut self, rank: &Rank, values: &[Option<Num>]) -> Result<(), Memory>
        ensures pushed { self.new.pushed ≡ self.old.pushed }
        ensures kept { OnOk result (KeepsFirst row_order self.old.pushed
            (self.old.rows ++ out_row rank.now values.now ∷ []) self.new.rows) }
        ensures same { OnErr result (self.new ≡ self.old) }
    {
        match ids_alone(&self.buffer, rank, values) {
            Some(pair) => self.push_pair(pair),
            None => self.push_row(rank, values),
        }
    }

    /// Adds the rows of another multiset of the same limit. After `Err` nothing has changed.
    pub fn absorb(&mut self, other: Multiset) -> Result<(), Memory>
        requires alike { other.pushed ≡ self.old.pushed }
        ensures pushed { self.new.pushed ≡ self.old.pushed }
        ensures joined { OnOk result (KeepsFirst row_order self.old.pushed
            (self.old.rows ++ other.rows) self.new.rows) }
        ensures same { OnErr result (self.new ≡ self.old) }
    {
        count_more(self.row_count(), other.row_count())?;
        let Multiset {
            alloc: _,
            buffer,
            cells,
            vacuumed: _,
            pairs,
        } = other;
        self.pairs.make_room(&pairs)?;
        self.vacuumed = join_and_vacuum(
            self.alloc,
            &mut self.buffer,
            &mut self.cells,
            self.vacuumed,
            buffer,
            cells,
        )?;
        self.pairs.join(pairs);
        Ok(())
    }

    /// Returns the number of rows, which is at most the limit, if there is one. Does not allocate.
    pub fn row_count(&self) -> usize
        ensures held { result ≡ length self.now.rows }
        ensures few { IfSome self.now.pushed (λ n. result ≤ n) }
    {
        count(&self.buffer) + self.pairs.len()
    }

    /// Returns the table of the rows: the first of them in order, and the merged items of each. Allocates memory for
    /// the table. It may allocate, unless there is a limit, for packed keys, for a sort of pairs or for copies of rows and
    /// pairs.
    pub fn finish(self, alloc: Global, merge: &MergePlan) -> Result<Table, Memory>
        requires { AreApart row_order self.rows }
        ensures { IfOk result (λ table. table ≡ merged_rows merge.now self.rows) }
    {
        let Multiset {
            alloc: _,
            buffer,
            cells,
            vacuumed: _,
            pairs,
        } = self;
        multiset_table(alloc, buffer, cells, pairs, merge)
    }
}
