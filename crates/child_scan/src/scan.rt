//! The scan of the sources of a chunk.

ghost use Rattle.std.specs.Prelude.{◌≡◌, ◌+◌, ◌<◌, ◌∷◌, [], All, IfOk, OnOk, length, true};
ghost use Rattle.std.specs.List.{filter};
ghost use Rattle.table_rules.specs.Objects.{Obj};
ghost use Rattle.table_rules.specs.declared.limits.TheConstants.{FIRST_COLUMNS, FURTHER_COLUMNS_MOST};
ghost use Rattle.value_rules.specs.Sound.{has_col};
ghost use Rattle.value_rules.specs.Truth.{meets};
ghost use Rattle.value_rules.specs.Values.{pair};
ghost use Rattle.partial_merge.specs.Joining.{IsOfRows};
ghost use Rattle.source_row.specs.SourceColumns.{source_at};
ghost use Rattle.child_rules.specs.Children.{IsChild, child_pair};
ghost use Rattle.child_rules.specs.ChildLaws.{met_pairs};
ghost use Rattle.child_rules.specs.ChildPieces.{HasAllRows, rows_of_picks};
ghost use Rattle.child_scan.specs.ChunkSources.{AreChunkSources};
ghost use Rattle.child_scan.specs.Scans.{pairs_at, pairs_of};
ghost use Rattle.child_scan.specs.AddsRows.{AddsRows};
ghost use Rattle.child_scan.specs.SoundPairs.{IsSoundPair};
ghost use Rattle.child_scan.specs.Wide.{IsWide};

use crate::line::{fill, rank_of};
use crate::object::object_of;
use crate::row::{object_row, source_row};
use child_piece::ChildPiece;
use child_rules::ChildBound;
use expr_eval::meets;
use sky_io::Memory;
use sky_row::{Row, Rows};
use sky_vector::Num;
use source_filter::candidates;
use source_row::SourceLists;
use sql_bound::Bound;
use std::alloc::Global;

/// Returns what the child query finds over these sources, each with its object. A source has `width` extra columns.
/// Allocates memory for the piece, and for a flag and a number for each source.
pub(crate) fn scan_sources<'w>(
    alloc: Global,
    rows: &'w Rows,
    lists: &SourceLists,
    width: usize,
    query: &ChildBound,
) -> Result<ChildPiece<'w>, Memory>
    requires sources { AreChunkSources lists.now }
    requires width { width ≡ length lists.now.further }
    requires child { IsChild query.now.bound }
    ensures { IfOk result (HasAllRows (rows_of_picks query.now.bound
        (pairs_of rows.now.objects query.now.bound lists.now))) }
{
    let numbers = candidates(alloc, lists, width, query.bound.conds.as_slice())?;
    scan_numbers(alloc, rows, lists, width, query, numbers.as_slice())
}

/// Returns what the child query finds over the sources with these numbers, each with its object.
fn scan_numbers<'w>(
    alloc: Global,
    rows: &'w Rows,
    lists: &SourceLists,
    width: usize,
    query: &ChildBound,
    numbers: &[u32],
) -> Result<ChildPiece<'w>, Memory>
    requires sources { AreChunkSources lists.now }
    requires width { width ≡ length lists.now.further }
    requires there { All (λ i. i < length lists.now.ids) numbers.now }
    requires child { IsChild query.now.bound }
    ensures { IfOk result (HasAllRows (rows_of_picks query.now.bound
        (pairs_at rows.now.objects query.now.bound lists.now numbers.now))) }
{
    let mut piece = ChildPiece::empty(alloc, query);
    let mut values = Vec::new(alloc);
    for i in numbers {
        push_source(
            &mut piece,
            &mut values,
            rows,
            lists,
            width,
            &query.bound,
            *i as usize,
        )?;
    }
    Ok(piece)
}

/// Pushes the pair of the source with its object into the piece, if there is an object and they meet the conditions.
fn push_source(
    piece: &mut ChildPiece<'_>,
    values: &mut Vec<Option<Num>>,
    rows: &Rows,
    lists: &SourceLists,
    width: usize,
    query: &Bound,
    i: usize,
) -> Result<(), Memory>
    requires of_rows { IsOfRows piece.old }
    requires sources { AreChunkSources lists.now }
    requires width { width ≡ length lists.now.further }
    requires there { i < length lists.now.ids }
    requires child { IsChild query.now }
    ensures { OnOk result (AddsRows (rows_of_picks query.now
        (met_pairs rows.now.objects query.now.conds (source_at lists.now i)))
        piece.old piece.new) }
{
    match object_of(rows, object_id(lists, i)) {
        Some(object) => {
            let first = object_row(rows, object);
            push_pair(piece, values, lists, width, query, &first, i)
        },
        None => Ok(()),
    }
}

/// Returns the id of the object of the source with this number.
fn object_id(lists: &SourceLists, i: usize) -> i64
    requires sources { AreChunkSources lists.now }
    requires there { i < length lists.now.ids }
    ensures { result ≡ (source_at lists.now i).object }
{
    lists.objects()[i]
}

/// Pushes the pair of an object with the source with this number into the piece, if it meets the conditions.
fn push_pair(
    piece: &mut ChildPiece<'_>,
    values: &mut Vec<Option<Num>>,
    lists: &SourceLists,
    width: usize,
    query: &Bound,
    first: &Row,
    i: usize,
) -> Result<(), Memory>
    requires of_rows { IsOfRows piece.old }
    requires sources { AreChunkSources lists.now }
    requires width { width ≡ length lists.now.further }
    requires there { i < length lists.now.ids }
    requires long { length first.now.further ≡ FURTHER_COLUMNS_MOST }
    requires child { IsChild query.now }
    ensures { OnOk result ((o : Obj) → IsWide o first.now → AddsRows (rows_of_picks query.now
        (filter (meets query.now.conds) (child_pair o (source_at lists.now i) ∷ [])))
        piece.old piece.new) }
{
    let second = source_row(lists, width, i, first.pos());
    push_if_met(piece, values, query, first, &second)
}

/// Pushes the pair of these rows into the piece, if it meets the conditions.
fn push_if_met(
    piece: &mut ChildPiece<'_>,
    values: &mut Vec<Option<Num>>,
    query: &Bound,
    first: &Row,
    second: &Row,
) -> Result<(), Memory>
    requires of_rows { IsOfRows piece.old }
    requires wide { length second.now.further ≡ length first.now.further }
    requires sound { IsSoundPair (has_col (FIRST_COLUMNS + length first.now.further) true)
        query.now }
    ensures { OnOk result (AddsRows (rows_of_picks query.now (filter (meets query.now.conds)
        (pair first.now second.now ∷ []))) piece.old piece.new) }
{
    if meets(query.conds.as_slice(), first, Some(second)) {
        push_pair_row(piece, values, query, first, second)
    } else {
        Ok(())
    }
}

/// Pushes the pair of these rows into the piece. `values` is a buffer that is reused for each pair.
fn push_pair_row(
    piece: &mut ChildPiece<'_>,
    values: &mut Vec<Option<Num>>,
    query: &Bound,
    first: &Row,
    second: &Row,
) -> Result<(), Memory>
    requires of_rows { IsOfRows piece.old }
    requires wide { length second.now.further ≡ length first.now.further }
    requires sound { IsSoundPair (has_col (FIRST_COLUMNS + length first.now.further) true)
        query.now }
    ensures { OnOk result (AddsRows (rows_of_picks query.now (pair first.now second.now ∷ []))
        piece.old piece.new) }
{
    fill(values, query.items.as_slice(), first, second)?;
    piece.push_row(&rank_of(query, first, second), values.as_slice())
}
