//! A cache of where the group of a key is in an aggregation table, found by a hash of the key.
//!
//! An entry of the cache is not relied on: it is used only if the group at that position has the key. If a key is not
//! found, its group is appended, and the next consolidation adds it up. So the cache may be small, out of date or
//! missing.

ghost use Rattle.std.specs.Prelude.{◌≡◌, ◌<◌, IfSome, length, true};
ghost use Rattle.std.specs.Ordering.{is_eq};
ghost use Rattle.answer_rules.specs.Keys.{key_order};
ghost use Rattle.partial_groups.specs.Sharing.{group_entry_in};

use crate::group_entry::GroupEntry;
use group_key::Key;
use std::alloc::Global;

/// The least number of cache entries for each group.
const ROOM: usize = 4;

/// The factor by which a hash is multiplied before the next value is added: an odd number of 64 bits.
const STRETCH: u64 = 0x9e37_79b9_7f4a_7c15;

/// The entry that holds nothing: a position that no aggregation table has.
const NONE: u32 = u32::MAX;

/// The cached positions of groups in an aggregation table.
#[derive(Drop)]
pub(crate) struct GroupCache {
    places: Vec<u32>,
}

/// Returns the hash of a key. If the key is one value from 0 and below 2^29, the hash is that value. So such keys are
/// in the cache in their order.
fn number(key: &Key) -> u64 {
    let number = match key.single_value() {
        Some(value) => value.cast_unsigned(),
        None => mixed(key),
    };
    number ^ (number >> 29)
}

/// Returns the values of a key, mixed into one number.
fn mixed(key: &Key) -> u64 {
    let key = key.open();
    let mut number = 0u64;
    for value in key.as_slice() {
        number = number.wrapping_mul(STRETCH).wrapping_add(code(*value));
    }
    number
}

/// Returns the number that a value is mixed in as.
fn code(value: Option<i64>) -> u64 {
    match value {
        None => STRETCH,
        Some(value) => value.cast_unsigned(),
    }
}

/// Returns the number of cache entries for the given number of groups: a power of two, or 0 if that overflows.
fn count(groups: usize) -> usize {
    match groups.checked_mul(ROOM) {
        None => 0,
        Some(wanted) => match wanted.checked_next_power_of_two() {
            None => 0,
            Some(count) => count,
        },
    }
}

/// Returns the position as a cache entry.
fn cache_entry(place: usize) -> u32 {
    match u32::try_from(place) {
        Ok(place) => place,
        Err(_) => NONE,
    }
}

/// Returns whether the group at the position has the key.
fn is_of(groups: &Vec<GroupEntry>, place: usize, key: &Key) -> bool
    requires { place < length groups.now.items }
    ensures { result ≡ is_eq (key_order key.now (group_entry_in groups.now.items place).key) }
{
    *key == groups[place].key
}

/// Returns the position, if the group there has the key.
pub(crate) fn checked(groups: &Vec<GroupEntry>, place: usize, key: &Key) -> Option<usize>
    ensures there { IfSome result (λ p. p < length groups.now.items) }
    ensures key { IfSome result (λ p.
        is_eq (key_order key.now (group_entry_in groups.now.items p).key) ≡ true) }
{
    if place < groups.len() && is_of(groups, place, key) {
        return Some(place);
    }
    None
}

impl GroupCache {
    /// Creates a cache without entries. Does not allocate.
    pub(crate) fn none(alloc: Global) -> GroupCache {
        GroupCache {
            places: Vec::new(alloc),
        }
    }

    /// Creates cache entries for the groups of an aggregation table, or none if memory is short.
    pub(crate) fn of(alloc: Global, groups: &Vec<GroupEntry>) -> GroupCache {
        match vec![in alloc; NONE; count(groups.len())] {
            Err(_) => GroupCache::none(alloc),
            Ok(places) => filled(GroupCache { places }, groups),
        }
    }

    /// Returns the cache entry for a key.
    pub(crate) fn at(&self, key: &Key) -> usize {
        let count = self.places.len();
        if count == 0 {
            return usize::MAX;
        }
        self.places[number(key) as usize & (count - 1)] as usize
    }

    /// Stores the position of the group with the key. Does not allocate.
    pub(crate) fn note(&mut self, key: &Key, place: usize) {
        let count = self.places.len();
        if count == 0 {
            return;
        }
        self.places[number(key) as usize & (count - 1)] = cache_entry(place);
    }
}

/// Returns the cache with an entry for each group.
fn filled(mut cache: GroupCache, groups: &Vec<GroupEntry>) -> GroupCache {
    for i in 0..groups.len() {
        cache.note(&groups[i].key, i);
    }
    cache
}
