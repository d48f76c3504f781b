//! Which rows of a column have a value: a validity list, empty if each row has one.
ghost use Rattle.std.specs.Prelude.{ℕ, true, ◌≡◌, ◌≤◌, ◌<◌, [], All, IfOk, IsTrue, ◌⊎◌, ◌↔◌, length, get_or, vec_capacity};
ghost use Rattle.column_lists.specs.Columns.{IsPresenceAt, IsPresenceOfBoth};
ghost use Rattle.column_lists.specs.Filling.{IsPresenceUpTo};

use crate::places::gather;
use sky_io::Memory;
use std::alloc::Global;

/// Returns whether the row with this number has a value.
fn is_present(present: &[bool], place: u32) -> bool
    ensures { result ≡ get_or present.now place true }
{
    *present.get(place as usize).unwrap_or(&true)
}

/// Returns the validity list, or an empty one if each row has a value.
#[tactic(auto, using(crate::proofs::Presence::whole_is_true))]
fn unless_whole(found: Vec<bool>) -> Vec<bool>
    ensures presence { (result.items ≡ []) ⊎ (length result.items ≡ length found.items) }
    ensures each { (k : ℕ) → get_or result.items k true ≡ get_or found.items k true }
{
    let mut kept = found;
    if kept.iter().all(|present| *present) {
        kept.clear();
    }
    kept
}

/// Returns the validity of the rows with these numbers; it is empty if each of these rows has a value.
pub(crate) fn presence_at(
    alloc: Global,
    present: &[bool],
    places: &[u32],
    count: usize,
) -> Result<Vec<bool>, Memory>
    requires presence { (present.now ≡ []) ⊎ (length present.now ≡ count) }
    requires there { All (λ place. place < count) places.now }
    ensures { IfOk result (λ found. IsPresenceAt present.now places.now found.items) }
{
    if present.is_empty() {
        return Ok(Vec::new(alloc));
    }
    let found = gather(alloc, present, places)?;
    Ok(unless_whole(found))
}

/// Returns the validity of `count` rows, a flag for each: a row for which none was stored has a value.
#[tactic(auto, using(crate::proofs::Filling::push_true))]
fn padded(present: Vec<bool>, count: usize) -> Result<Vec<bool>, Memory>
    requires few { length present.items ≤ count }
    ensures full { IfOk result (λ found. length found.items ≡ count) }
    ensures each { IfOk result (λ found. (k : ℕ)
        → get_or found.items k true ≡ get_or present.items k true) }
{
    let mut found = present;
    for row in found.len()..count {
        found.push(true)?;
    }
    Ok(found)
}

/// Returns the validity of `count` rows with that of `more` others appended; it is empty if both lists are.
#[tactic(auto, using(crate::proofs::Appended::presence_of_both, crate::proofs::Appended::none_of_both, crate::proofs::Appended::no_more_rows))]
pub(crate) fn presence_appended(
    alloc: Global,
    present: Vec<bool>,
    count: usize,
    shown: &[bool],
    more: usize,
) -> Result<Vec<bool>, Memory>
    requires present { (present.items ≡ []) ⊎ (length present.items ≡ count) }
    requires shown { (shown.now ≡ []) ⊎ (length shown.now ≡ more) }
    ensures { IfOk result (λ found.
        IsPresenceOfBoth count more present.items shown.now found.items) }
{
    if present.is_empty() && shown.is_empty() {
        return Ok(present);
    }
    let mut found = padded(present, count)?;
    let others = padded(Vec::from_slice(alloc, shown)?, more)?;
    found.extend_from_slice(others.as_slice())?;
    Ok(found)
}

/// Returns whether each row from index `from` up to but not including `count` of the list has a value.
pub(crate) fn is_whole(present: &[bool], places: &[u32], from: usize, count: usize) -> bool
    requires few { count ≤ length places.now }
    ensures { IsTrue result ↔ ((k : ℕ) → from ≤ k → k < count
        → get_or present.now (get_or places.now k 0) true ≡ true) }
{
    if present.is_empty() {
        return true;
    }
    for k in from..count {
        if !is_present(present, places[k]) {
            return false;
        }
    }
    true
}

/// Appends the validity of the next rows of the list to that of the first ones, up to `count` in all. If no validity
/// list was stored, one is afterwards. Does not allocate.
#[tactic(auto, using(crate::proofs::Filling::push_true, crate::proofs::Filling::no_more))]
pub(crate) fn fill_presence(
    found: &mut Vec<bool>,
    present: &[bool],
    places: &[u32],
    from: usize,
    count: usize,
)
    requires few { count ≤ length places.now }
    requires more { from ≤ count }
    requires room { count ≤ vec_capacity found.old }
    requires so_far { IsPresenceUpTo from present.now places.now found.old.items }
    ensures full { length found.new.items ≡ count }
    ensures filled { IsPresenceUpTo count present.now places.now found.new.items }
{
    for earlier in found.len()..from {
        found.push_reserved(true);
    }
    for k in from..count {
        found.push_reserved(is_present(present, places[k]));
    }
}
