//! The pairs of a row with its neighbours, in both orders, or in one if the lower id has to come first. Only pairs
//! whose first row is held by the subchunk and that meet the conditions are pushed. For these the rows are read, if
//! more than their ids is needed.

ghost use Rattle.std.specs.Prelude.{◌≡◌, ◌&&◌, ◌+◌, ◌<◌, ◌∷◌, [], All, IsTrue, OnOk, if◌then◌else◌, int_le, int_lt, length, pos, true};
ghost use Rattle.std.specs.List.{flat_map};
ghost use Rattle.value_rules.specs.Sound.{has_col};
ghost use Rattle.value_rules.specs.Truth.{meets};
ghost use Rattle.value_rules.specs.Values.{pair};
ghost use Rattle.partial_merge.specs.Joining.{IsOfRows};
ghost use Rattle.near_join.specs.Bare.{IsAsked};
ghost use Rattle.near_join.specs.Gains.{Gains, if_met, ordered_pair};
ghost use Rattle.near_join.specs.Neighbours.{IsRowOf, neighbour_pairs, pairs_with_neighbours, row_of};
ghost use Rattle.near_join.specs.Rising.{is_upward};
ghost use Rattle.near_join.specs.Sound.{IsSoundLine};
ghost use Rattle.near_join.specs.Walk.{is_near};
ghost use Rattle.table_rules.specs.declared.limits.TheConstants.{FIRST_COLUMNS};

use crate::asked::Asked;
use crate::by_ids::push_line;
use crate::line::{fill, rank_of};
use crate::neighbour::Neighbour;
use crate::reach::Reach;
use answer_rules::ChunkQuery;
use expr_eval::meets;
use partial_merge::Piece;
use sky_io::Memory;
use sky_row::Row;
use sky_vector::Num;

/// Pushes the pairs of a row with itself, and with its neighbours in both orders, into the piece.
pub(crate) fn push_found(
    piece: &mut Piece<'_>,
    values: &mut Vec<Option<Num>>,
    asked: &Asked<'_>,
    this: &Neighbour,
    found: &[Neighbour],
) -> Result<(), Memory>
    requires of_rows { IsOfRows piece.old }
    requires row { IsRowOf asked.now.rows.now.objects this.now }
    requires found { All (IsRowOf asked.now.rows.now.objects) found.now }
    requires near { All (λ n. is_near asked.now.reach.now.limit
        (row_of asked.now.rows.now.objects this.now) (row_of asked.now.rows.now.objects n) ≡ true)
        found.now }
    requires asked { IsAsked (length asked.now.rows.now.names) asked.now.query.now
        asked.now.reach.now.rises asked.now.reach.now.bare }
    ensures { OnOk result (Gains asked.now.query.now (pairs_with_neighbours asked.now.query.now
        asked.now.reach.now.limit asked.now.rows.now.objects this.now found.now)
        piece.old piece.new) }
{
    push_itself(piece, values, asked, this)?;
    push_others(piece, values, asked, this, found)
}

/// Pushes the pair of the row with itself into the piece, if it is near enough to itself.
fn push_itself(
    piece: &mut Piece<'_>,
    values: &mut Vec<Option<Num>>,
    asked: &Asked<'_>,
    this: &Neighbour,
) -> Result<(), Memory>
    requires of_rows { IsOfRows piece.old }
    requires row { IsRowOf asked.now.rows.now.objects this.now }
    requires asked { IsAsked (length asked.now.rows.now.names) asked.now.query.now
        asked.now.reach.now.rises asked.now.reach.now.bare }
    ensures { OnOk result (Gains asked.now.query.now (ordered_pair asked.now.query.now
        asked.now.reach.now.limit this.now.held (row_of asked.now.rows.now.objects this.now)
        (row_of asked.now.rows.now.objects this.now)) piece.old piece.new) }
{
    if is_own_pair(asked.reach) {
        push_ordered(piece, values, asked, this, this)
    } else {
        Ok(())
    }
}

/// Returns whether a row is near enough to itself.
fn is_own_pair(reach: &Reach) -> bool
    ensures { result ≡ int_le (pos 0) reach.now.limit }
{
    0 <= reach.limit
}

/// Pushes the pairs of the row with its neighbours into the piece, in both orders.
fn push_others(
    piece: &mut Piece<'_>,
    values: &mut Vec<Option<Num>>,
    asked: &Asked<'_>,
    this: &Neighbour,
    found: &[Neighbour],
) -> Result<(), Memory>
    requires of_rows { IsOfRows piece.old }
    requires row { IsRowOf asked.now.rows.now.objects this.now }
    requires found { All (IsRowOf asked.now.rows.now.objects) found.now }
    requires near { All (λ n. is_near asked.now.reach.now.limit
        (row_of asked.now.rows.now.objects this.now) (row_of asked.now.rows.now.objects n) ≡ true)
        found.now }
    requires asked { IsAsked (length asked.now.rows.now.names) asked.now.query.now
        asked.now.reach.now.rises asked.now.reach.now.bare }
    ensures { OnOk result (Gains asked.now.query.now (flat_map (neighbour_pairs asked.now.query.now
        asked.now.reach.now.limit asked.now.rows.now.objects this.now.held
        (row_of asked.now.rows.now.objects this.now)) found.now) piece.old piece.new) }
{
    for other in found {
        push_other(piece, values, asked, this, other)?;
    }
    Ok(())
}

/// Pushes the pairs of the row with a neighbour into the piece, in both orders.
fn push_other(
    piece: &mut Piece<'_>,
    values: &mut Vec<Option<Num>>,
    asked: &Asked<'_>,
    this: &Neighbour,
    other: &Neighbour,
) -> Result<(), Memory>
    requires of_rows { IsOfRows piece.old }
    requires row { IsRowOf asked.now.rows.now.objects this.now }
    requires there { IsRowOf asked.now.rows.now.objects other.now }
    requires near { is_near asked.now.reach.now.limit (row_of asked.now.rows.now.objects this.now)
        (row_of asked.now.rows.now.objects other.now) ≡ true }
    requires asked { IsAsked (length asked.now.rows.now.names) asked.now.query.now
        asked.now.reach.now.rises asked.now.reach.now.bare }
    ensures { OnOk result (Gains asked.now.query.now (neighbour_pairs asked.now.query.now
        asked.now.reach.now.limit asked.now.rows.now.objects this.now.held
        (row_of asked.now.rows.now.objects this.now) other.now) piece.old piece.new) }
{
    push_ordered(piece, values, asked, this, other)?;
    push_ordered(piece, values, asked, other, this)
}

/// Pushes the pair of two rows that are near enough into the piece. It does so only if the first row is held, has the
/// lower id if it has to, and the pair meets the conditions.
fn push_ordered(
    piece: &mut Piece<'_>,
    values: &mut Vec<Option<Num>>,
    asked: &Asked<'_>,
    first: &Neighbour,
    second: &Neighbour,
) -> Result<(), Memory>
    requires of_rows { IsOfRows piece.old }
    requires first { IsRowOf asked.now.rows.now.objects first.now }
    requires second { IsRowOf asked.now.rows.now.objects second.now }
    requires near { is_near asked.now.reach.now.limit (row_of asked.now.rows.now.objects first.now)
        (row_of asked.now.rows.now.objects second.now) ≡ true }
    requires asked { IsAsked (length asked.now.rows.now.names) asked.now.query.now
        asked.now.reach.now.rises asked.now.reach.now.bare }
    ensures { OnOk result (Gains asked.now.query.now (ordered_pair asked.now.query.now
        asked.now.reach.now.limit first.now.held (row_of asked.now.rows.now.objects first.now)
        (row_of asked.now.rows.now.objects second.now)) piece.old piece.new) }
{
    if is_ordered(first.held, asked.reach.rises, first.id, second.id) {
        push_upward(piece, values, asked, first, second)
    } else {
        Ok(())
    }
}

/// Returns whether the first of two rows is held, and has the lower id if it has to.
fn is_ordered(held: bool, rises: bool, first: i64, second: i64) -> bool
    ensures { result ≡ (held && (if rises then int_lt first second else true)) }
{
    held && is_upward(rises, first, second)
}

/// Returns whether the first of two ids is the lower one, if it has to be.
fn is_upward(rises: bool, first: i64, second: i64) -> bool
    ensures { result ≡ (if rises then int_lt first second else true) }
{
    !rises || first < second
}

/// Pushes the pair of two rows into the piece, if it meets the conditions. The first row has the lower id, if it has
/// to. For a bare query that is the only condition, and only the ids of the rows are needed.
fn push_upward(
    piece: &mut Piece<'_>,
    values: &mut Vec<Option<Num>>,
    asked: &Asked<'_>,
    first: &Neighbour,
    second: &Neighbour,
) -> Result<(), Memory>
    requires of_rows { IsOfRows piece.old }
    requires first { IsRowOf asked.now.rows.now.objects first.now }
    requires second { IsRowOf asked.now.rows.now.objects second.now }
    requires upward { is_upward asked.now.reach.now.rises
        (row_of asked.now.rows.now.objects first.now)
        (row_of asked.now.rows.now.objects second.now) ≡ true }
    requires asked { IsAsked (length asked.now.rows.now.names) asked.now.query.now
        asked.now.reach.now.rises asked.now.reach.now.bare }
    ensures { OnOk result (Gains asked.now.query.now (if_met asked.now.query.now.conds
        (row_of asked.now.rows.now.objects first.now)
        (row_of asked.now.rows.now.objects second.now)) piece.old piece.new) }
{
    if asked.reach.bare {
        push_line(piece, first.id, second.id)
    } else {
        push_read(piece, values, asked, first, second)
    }
}

/// Reads two rows, and pushes their pair into the piece, if it meets the conditions.
fn push_read(
    piece: &mut Piece<'_>,
    values: &mut Vec<Option<Num>>,
    asked: &Asked<'_>,
    first: &Neighbour,
    second: &Neighbour,
) -> Result<(), Memory>
    requires of_rows { IsOfRows piece.old }
    requires first { IsRowOf asked.now.rows.now.objects first.now }
    requires second { IsRowOf asked.now.rows.now.objects second.now }
    requires asked { IsAsked (length asked.now.rows.now.names) asked.now.query.now
        asked.now.reach.now.rises asked.now.reach.now.bare }
    ensures { OnOk result (Gains asked.now.query.now (if_met asked.now.query.now.conds
        (row_of asked.now.rows.now.objects first.now)
        (row_of asked.now.rows.now.objects second.now)) piece.old piece.new) }
{
    let row = asked.rows.get(first.place);
    let other = asked.rows.get(second.place);
    push_if_met(piece, values, asked.query, &row, &other)
}

/// Pushes the pair of rows into the piece, if it meets the conditions.
fn push_if_met(
    piece: &mut Piece<'_>,
    values: &mut Vec<Option<Num>>,
    query: &ChunkQuery,
    first: &Row,
    second: &Row,
) -> Result<(), Memory>
    requires of_rows { IsOfRows piece.old }
    requires wide { length second.now.further ≡ length first.now.further }
    requires sound { IsSoundLine (has_col (FIRST_COLUMNS + length first.now.further) true)
        query.now }
    ensures { OnOk result (Gains query.now (if_met query.now.conds first.now second.now)
        piece.old piece.new) }
{
    if meets(query.conds.as_slice(), first, Some(second)) {
        push_pair(piece, values, query, first, second)
    } else {
        Ok(())
    }
}

/// Pushes the pair of rows into the piece.
fn push_pair(
    piece: &mut Piece<'_>,
    values: &mut Vec<Option<Num>>,
    query: &ChunkQuery,
    first: &Row,
    second: &Row,
) -> Result<(), Memory>
    requires of_rows { IsOfRows piece.old }
    requires wide { length second.now.further ≡ length first.now.further }
    requires sound { IsSoundLine (has_col (FIRST_COLUMNS + length first.now.further) true)
        query.now }
    ensures { OnOk result (Gains query.now (pair first.now second.now ∷ []) piece.old piece.new) }
{
    fill(values, query.items.as_slice(), first, second)?;
    piece.push_row(&rank_of(query, first, second), values.as_slice())
}
