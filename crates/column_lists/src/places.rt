//! Gathering: the values of a list at given indexes.
ghost use Rattle.std.specs.Prelude.{◌<◌, ◌≡◌, ◌≤◌, ◌++◌, All, IfOk, OnErr, OnOk, get_or, length, pos, vec_capacity};
ghost use Rattle.sky_vector.specs.Points.{IsWithin};
ghost use Rattle.column_lists.specs.Columns.{IsFront, IsGathered};
ghost use Rattle.column_lists.specs.Filling.{IsFilled};

use sky_io::Memory;
use std::alloc::Global;

/// Returns the values at these indexes, counted from 0, in the order of the indexes. Allocates their memory once.
pub fn gather<T: Copy>(alloc: Global, values: &[T], places: &[u32]) -> Result<Vec<T>, Memory>
    requires { All (λ place. place < length values.now) places.now }
    ensures { IfOk result (λ found. IsGathered values.now places.now found.items) }
{
    let mut found = Vec::with_capacity(alloc, places.len())?;
    for place in places {
        found.push_reserved(values[*place as usize]);
    }
    Ok(found)
}

/// Makes room in a list for `count` values in all. Allocates memory once, or not at all if there is room.
pub(crate) fn make_room<T: Drop>(found: &mut Vec<T>, count: usize) -> Result<(), Memory>
    ensures same { found.new.items ≡ found.old.items }
    ensures room { OnOk result (count ≤ vec_capacity found.new) }
{
    if found.len() < count {
        found.reserve(count - found.len())?;
    }
    Ok(())
}

/// Appends the values at the next indexes to those at the first ones, up to `count` in all. Does not allocate.
pub(crate) fn fill<T: Copy>(found: &mut Vec<T>, values: &[T], places: &[u32], count: usize)
    requires there { All (λ place. place < length values.now) places.now }
    requires few { count ≤ length places.now }
    requires more { length found.old.items ≤ count }
    requires room { count ≤ vec_capacity found.old }
    requires so_far { IsFilled (length found.old.items) values.now places.now found.old.items }
    ensures { IsFilled count values.now places.now found.new.items }
{
    for k in found.len()..count {
        found.push_reserved(values[places[k] as usize]);
    }
}

/// Makes room, and appends the values at the next indexes to those at the first ones, up to `count` in all. Allocates
/// memory if the room is missing. If the allocation fails, nothing changes.
#[tactic(auto, using(crate::proofs::Filling::filled_front, crate::proofs::Gathering::front_same))]
pub(crate) fn fill_list<T: Copy>(
    found: &mut Vec<T>,
    values: &[T],
    places: &[u32],
    count: usize,
) -> Result<(), Memory>
    requires there { All (λ place. place < length values.now) places.now }
    requires few { count ≤ length places.now }
    requires more { length found.old.items ≤ count }
    requires so_far { IsFilled (length found.old.items) values.now places.now found.old.items }
    ensures filled { OnOk result (IsFilled count values.now places.now found.new.items) }
    ensures front { IsFront found.old.items found.new.items }
{
    make_room(found, count)?;
    fill(found, values, places, count);
    Ok(())
}

/// Returns a list with another appended. Allocates memory. If the allocation fails, the list is dropped.
pub(crate) fn extended<T: Copy>(list: Vec<T>, other: &[T]) -> Result<Vec<T>, Memory>
    ensures { IfOk result (λ found. found.items ≡ list.items ++ other.now) }
{
    let mut found = list;
    found.extend_from_slice(other)?;
    Ok(found)
}

/// Returns the component of a position with index `i`.
pub(crate) fn part_at(parts: &[i32], i: usize) -> i32
    requires within { All IsWithin parts.now }
    requires there { i < length parts.now }
    ensures value { result ≡ get_or parts.now i (pos 0) }
    ensures within { IsWithin result }
{
    parts[i]
}
