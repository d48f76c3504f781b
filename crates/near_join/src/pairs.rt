//! The sweep of a sweep window. Each row is compared with those after it, up to the first whose height is too far above
//! its own. Only the columns of the sweep window are read. What the pairs of a row need of it is computed from these
//! columns, once it is near enough.

ghost use Rattle.std.specs.Prelude.{◌≡◌, ◌+◌, ◌++◌, ◌+ℤ◌, ◌-ℤ◌, ◌<◌, ◌∷◌, [], All, IsTrue, OnOk, drop, filter, get_or, if◌then◌else◌, int_le, length, map, true};
ghost use Rattle.sky_vector.specs.Points.{chord_squared, square};
ghost use Rattle.sky_vector.specs.Pos.{point};
ghost use Rattle.sky_plan.specs.Regions.{bounds_shown};
ghost use Rattle.sky_row.specs.Columns.{objects_at};
ghost use Rattle.partial_merge.specs.Joining.{IsOfRows};
ghost use Rattle.near_join.specs.Bare.{IsAsked};
ghost use Rattle.near_join.specs.Gains.{Gains, held_rows, swept_pairs, upward_pairs};
ghost use Rattle.near_join.specs.Neighbours.{IsFlagged};
ghost use Rattle.near_join.specs.Strips.{IsListed, IsWhole, is_close, object_at};
ghost use Rattle.near_join.specs.Windows.{Ascend};

use crate::asked::Asked;
use crate::heights::is_above;
use crate::neighbour::Neighbour;
use crate::pair_orders::push_found;
use crate::reach::Reach;
use crate::strip::Strip;
use overlap_tables::is_in;
use partial_merge::Piece;
use sky_io::Memory;
use sky_plan::Region;
use sky_row::Rows;
use sky_vector::{Num, Pos, chord2};

/// Pushes pairs into the piece: those of the rows that the region holds with the rows that they join, all in the sweep
/// window. `values` and `found` are buffers that are reused for each row.
pub(crate) fn push_swept(
    piece: &mut Piece<'_>,
    values: &mut Vec<Option<Num>>,
    found: &mut Vec<Neighbour>,
    asked: &Asked<'_>,
    region: &Region,
    near: &Strip,
) -> Result<(), Memory>
    requires of_rows { IsOfRows piece.old }
    requires listed { IsListed asked.now.rows.now.objects near.now }
    requires whole { IsWhole near.now }
    requires ascend { Ascend near.now.zs }
    requires asked { IsAsked (length asked.now.rows.now.names) asked.now.query.now
        asked.now.reach.now.rises asked.now.reach.now.bare }
    ensures { OnOk result (Gains asked.now.query.now (swept_pairs asked.now.query.now
        asked.now.reach.now.limit (objects_at asked.now.rows.now.objects near.now.places)
        (held_rows (bounds_shown region.now)
        (objects_at asked.now.rows.now.objects near.now.places))) piece.old piece.new) }
{
    let count = near.len();
    for i in 0..count {
        push_upwards(piece, values, found, asked, region, near, i)?;
    }
    Ok(())
}

/// Pushes the pairs of the row at this position of the sweep window into the piece: with itself, and with those after
/// it in both orders.
fn push_upwards(
    piece: &mut Piece<'_>,
    values: &mut Vec<Option<Num>>,
    found: &mut Vec<Neighbour>,
    asked: &Asked<'_>,
    region: &Region,
    near: &Strip,
    i: usize,
) -> Result<(), Memory>
    requires of_rows { IsOfRows piece.old }
    requires listed { IsListed asked.now.rows.now.objects near.now }
    requires whole { IsWhole near.now }
    requires ascend { Ascend near.now.zs }
    requires there { i < length near.now.places }
    requires asked { IsAsked (length asked.now.rows.now.names) asked.now.query.now
        asked.now.reach.now.rises asked.now.reach.now.bare }
    ensures { OnOk result (Gains asked.now.query.now (upward_pairs asked.now.query.now
        asked.now.reach.now.limit (bounds_shown region.now)
        (object_at asked.now.rows.now.objects (get_or near.now.places i 0))
        (objects_at asked.now.rows.now.objects (drop (i + 1) near.now.places)))
        piece.old piece.new) }
{
    pick(found, asked, region, near, i)?;
    if is_done(asked.reach, found.as_slice()) {
        Ok(())
    } else {
        let this = neighbour_at(asked.rows, region, near, i);
        push_found(piece, values, asked, &this, found.as_slice())
    }
}

/// Returns true only if a row has no pair: none was found, and it is no pair with itself.
fn is_done(reach: &Reach, found: &[Neighbour]) -> bool
    ensures { IsTrue result → (reach.now.rises ≡ true) × (found.now ≡ []) }
{
    reach.rises && found.is_empty()
}

/// Replaces what the list held by the rows after this position of the sweep window that are near enough to the row at
/// it.
fn pick(
    found: &mut Vec<Neighbour>,
    asked: &Asked<'_>,
    region: &Region,
    near: &Strip,
    i: usize,
) -> Result<(), Memory>
    requires listed { IsListed asked.now.rows.now.objects near.now }
    requires whole { IsWhole near.now }
    requires ascend { Ascend near.now.zs }
    requires there { i < length near.now.places }
    ensures places { OnOk result (map (λ n. n.place) found.new.items
        ≡ filter (is_close asked.now.rows.now.objects asked.now.reach.now.limit
        (get_or near.now.places i 0)) (drop (i + 1) near.now.places)) }
    ensures flagged { OnOk result (All
        (IsFlagged asked.now.rows.now.objects (bounds_shown region.now)) found.new.items) }
{
    found.clear();
    let at = near.at(i);
    let high = highest(&at, asked.reach);
    let count = near.len();
    for k in i + 1..count {
        if is_above(near.zs(), k, high) {
            return Ok(());
        }
        let is = is_pair(asked.reach, &at, &near.at(k));
        push_if(found, is, asked.rows, region, near, k)?;
    }
    Ok(())
}

/// Returns the largest height that is near enough to the position.
fn highest(at: &Pos, reach: &Reach) -> i64
    ensures { result ≡ (point at.now).z +ℤ reach.now.root }
{
    at.z + reach.root
}

/// Returns whether two rows are near enough. Most are too far apart by their x alone.
#[inline(always)]
fn is_pair(reach: &Reach, at: &Pos, other: &Pos) -> bool
    ensures { result ≡ int_le (chord_squared (point at.now) (point other.now)) reach.now.limit }
{
    is_within(reach, at, other) && is_near(at, other, reach)
}

/// Returns whether the square of the difference in x is at most the limit.
#[inline(always)]
fn is_within(reach: &Reach, at: &Pos, other: &Pos) -> bool
    ensures { result ≡ int_le (square ((point at.now).x -ℤ (point other.now).x)) reach.now.limit }
{
    -reach.root <= at.x - other.x && at.x - other.x <= reach.root
}

/// Returns whether the squared chord is at most the limit.
#[inline(always)]
fn is_near(a: &Pos, b: &Pos, reach: &Reach) -> bool
    ensures { result ≡ int_le (chord_squared (point a.now) (point b.now)) reach.now.limit }
{
    chord2(a, b) as i64 <= reach.limit
}

/// Appends the row at this position of the sweep window, if the condition is true.
#[inline(always)]
fn push_if(
    found: &mut Vec<Neighbour>,
    is: bool,
    rows: &Rows,
    region: &Region,
    near: &Strip,
    k: usize,
) -> Result<(), Memory>
    requires listed { IsListed rows.now.objects near.now }
    requires whole { IsWhole near.now }
    requires there { k < length near.now.places }
    requires flagged { All (IsFlagged rows.now.objects (bounds_shown region.now)) found.old.items }
    ensures places { OnOk result (map (λ n. n.place) found.new.items
        ≡ map (λ n. n.place) found.old.items
        ++ (if is then get_or near.now.places k 0 ∷ [] else [])) }
    ensures flagged { OnOk result (All
        (IsFlagged rows.now.objects (bounds_shown region.now)) found.new.items) }
{
    if is {
        found.push(neighbour_at(rows, region, near, k))?;
    }
    Ok(())
}

/// Returns what the pairs of the row at this position of the sweep window need of it.
fn neighbour_at(rows: &Rows, region: &Region, near: &Strip, k: usize) -> Neighbour
    requires listed { IsListed rows.now.objects near.now }
    requires whole { IsWhole near.now }
    requires there { k < length near.now.places }
    ensures place { result.place ≡ get_or near.now.places k 0 }
    ensures flagged { IsFlagged rows.now.objects (bounds_shown region.now) result }
{
    let place = near.place(k);
    Neighbour {
        place,
        id: rows.ids()[place as usize],
        held: is_in(region, &near.at(k)),
    }
}
