//! The rows of a block that have one of some ids.
//!
//! The block's filter excludes most ids that no row has. The ids of a block ascend, so each of the other wanted ids is
//! found by bisection, and the other rows are not inspected. The numbers of the rows found are kept in ascending order,
//! each once, whatever the order of the wanted ids.
ghost use Rattle.std.specs.Prelude.{◌≡◌, ◌++◌, ◌∷◌, [], ◌<◌, ◌^◌, ℤ, List, AllPairs, IfNone, IfOk, IfSome, OnOk, length, map};
ghost use Rattle.lane_filter.specs.Tests.{places_of};
ghost use Rattle.sky_row.specs.Columns.{AreAscending};
ghost use Rattle.value_rules.specs.Truth.{is_one_of};
ghost use Rattle.chunk_filter.specs.Ids.{AreWanted, HasIdAt, HasNoRow, IsInserted};

use crate::scratch::Scratch;
use column_block::Block;
use sky_io::Memory;

/// Returns the numbers of the block's ids that are wanted, ascending, in a vector of the scratch.
#[tactic(auto, using(crate::proofs::IdRows::wanted_none, crate::proofs::IdRows::wanted_rows))]
pub(crate) fn rows_with(
    block: &Block,
    ids: &[i64],
    wanted: &[i64],
    scratch: &mut Scratch,
) -> Result<Vec<u32>, Memory>
    requires ids { ids.now ≡ map (λ o. o.id) block.now.objects }
    requires few { length ids.now < 2 ^ 32 }
    requires ascend { AreAscending ids.now }
    ensures { IfOk result (λ places. places.items
        ≡ places_of (map (is_one_of wanted.now) ids.now)) }
{
    let mut places = scratch.places.take(0)?;
    for i in 0..wanted.len() {
        find(block, ids, wanted[i], &mut places)?;
    }
    Ok(places)
}

/// Adds the number of the row with the id, if there is one, to those of the rows with other ids.
fn find(block: &Block, ids: &[i64], id: i64, places: &mut Vec<u32>) -> Result<(), Memory>
    requires ids { ids.now ≡ map (λ o. o.id) block.now.objects }
    requires few { length ids.now < 2 ^ 32 }
    requires ascend { AreAscending ids.now }
    ensures { OnOk result ((wanted : List ℤ) → AreWanted ids.now wanted places.old.items
        → AreWanted ids.now (wanted ++ id ∷ []) places.new.items) }
{
    match row_of(block, ids, id) {
        Some(row) => insert(row as u32, places),
        None => Ok(()),
    }
}

/// Returns the number of the row with the id, or `None` if no row has it. The ids are searched only if the block's filter
/// does not exclude the id.
fn row_of(block: &Block, ids: &[i64], id: i64) -> Option<usize>
    requires ids { ids.now ≡ map (λ o. o.id) block.now.objects }
    requires ascend { AreAscending ids.now }
    ensures found { IfSome result (λ row. HasIdAt ids.now id row) }
    ensures none { IfNone result (HasNoRow ids.now id) }
{
    if block.may_have_id(id) {
        bisected(ids, id)
    } else {
        None
    }
}

/// Returns the number of the row with the id, or `None` if no row has it.
fn bisected(ids: &[i64], id: i64) -> Option<usize>
    requires { AreAscending ids.now }
    ensures found { IfSome result (λ row. HasIdAt ids.now id row) }
    ensures none { IfNone result (HasNoRow ids.now id) }
{
    match ids.binary_search(&id) {
        Ok(row) => Some(row),
        Err(_) => None,
    }
}

/// Adds the number to ascending numbers, unless it is among them.
fn insert(row: u32, places: &mut Vec<u32>) -> Result<(), Memory>
    ensures { OnOk result (AllPairs (λ a b. a < b) places.old.items
        → IsInserted row places.old.items places.new.items) }
{
    match places.as_slice().binary_search(&row) {
        Ok(_) => Ok(()),
        Err(at) => Ok(places.insert(at, row)?),
    }
}
