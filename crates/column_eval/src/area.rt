//! The truth values of area tests.
ghost use Rattle.std.specs.Prelude.{◌≡◌, ◌<◌, ◌≤◌, [], IfOk, All, length, get_or, pos, vec_capacity};
ghost use Rattle.sky_row.specs.Columns.{no_row};
ghost use Rattle.sky_vector.specs.Points.{IsWithin};
ghost use Rattle.value_rules.specs.Areas.{area_holds};
ghost use Rattle.value_rules.specs.Formulas.{LiesIn};
ghost use Rattle.column_vectors.specs.Flags.{AreFlags, area_at};
ghost use Rattle.column_vectors.specs.Masks.{IsMask};

use crate::picked::Picked;
use column_block::Block;
use column_vectors::Scratch;
use column_vectors::flags::{Flags, flags_of};
use column_vectors::leaf::repeated;
use expr_eval::area_holds;
use sky_io::Memory;
use sky_vector::Pos;
use sql_bound::AreaTest;

/// Returns the flags of an area test, which is never unknown.
pub(crate) fn area(
    test: &AreaTest,
    rows: &Picked<'_>,
    scratch: &mut Scratch,
) -> Result<Flags, Memory>
    ensures { IfOk result (AreFlags rows.now.objects (LiesIn test.now)) }
{
    let held = rows.lying(test, scratch.flags.take(rows.len())?);
    let all = repeated(true, rows.len(), scratch.flags.take(rows.len())?);
    Ok(flags_of(all, held))
}

/// Returns which of the rows with these numbers are in the area. `found` is an empty mask that has room for them.
pub(crate) fn lying(test: &AreaTest, block: &Block, places: &[u32], found: Vec<bool>) -> Vec<bool>
    requires there { All (λ place. place < length block.now.objects) places.now }
    requires empty { found.items ≡ [] }
    requires room { length places.now ≤ vec_capacity found }
    ensures { IsMask (length places.now)
        (λ k. area_holds test.now (get_or block.now.objects (get_or places.now k 0) no_row).at)
        result.items }
{
    lying_at(test, block.xs(), block.ys(), block.zs(), places, found)
}

/// Returns which of the points with these components are in the area.
fn lying_at(
    test: &AreaTest,
    xs: &[i32],
    ys: &[i32],
    zs: &[i32],
    places: &[u32],
    found: Vec<bool>,
) -> Vec<bool>
    requires of_y { length ys.now ≡ length xs.now }
    requires of_z { length zs.now ≡ length xs.now }
    requires x { All IsWithin xs.now }
    requires y { All IsWithin ys.now }
    requires z { All IsWithin zs.now }
    requires there { All (λ place. place < length xs.now) places.now }
    requires empty { found.items ≡ [] }
    requires room { length places.now ≤ vec_capacity found }
    ensures { IsMask (length places.now)
        (λ k. area_at test.now xs.now ys.now zs.now (get_or places.now k 0)) result.items }
{
    let mut found = found;
    for place in places {
        let i = *place as usize;
        found.push_reserved(lies_in(test, xs[i], ys[i], zs[i]));
    }
    found
}

/// Returns whether the point is in the area.
fn lies_in(test: &AreaTest, x: i32, y: i32, z: i32) -> bool
    requires x { IsWithin x }
    requires y { IsWithin y }
    requires z { IsWithin z }
    ensures { result ≡ area_holds test.now (record { x = x; y = y; z = z }) }
{
    match Pos::new(i64::from(x), i64::from(y), i64::from(z)) {
        Some(at) => area_holds(test, &at),
        None => false,
    }
}
