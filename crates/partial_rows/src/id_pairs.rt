//! The pairs of a multiset whose values are their own two ids.
//!
//! A pair whose ids are both from 0 to below 2^32 is stored as its packed key of 64 bits (`pair_key`), and any other pair as
//! one number of 128 bits (`id_pair`). If the multiset has only such pairs, and all have a packed key, they are sorted and
//! written by their packed keys alone.

ghost use Rattle.std.specs.Prelude.{◌≡◌, ◌==◌, ◌≤◌, ◌<◌, ◌+◌, ◌++◌, ◌∷◌, [], ◌-◌, ◌^◌, IfOk, IsPermutation, length, map, OnErr, OnOk, vec_capacity, vec_len};
ghost use Rattle.std.specs.Bool.{OnTrue};
ghost use Rattle.partial_rows.specs.PackedKeys.{pair_in};
ghost use Rattle.partial_rows.specs.Pairs.{HasRoomFor, pairs_in};

use crate::pair_key::{pair_in, short_of};
use answer_table::lists::reserve;
use sky_io::Memory;
use std::alloc::Global;

/// Pairs in any order: the short ones as their packed keys, and the wide ones.
#[derive(Drop)]
pub(crate) struct IdPairs {
    pub(crate) wide: Vec<u128>,
    pub(crate) short: Vec<u64>,
}

/// Checks that n more rows can be counted. No memory holds more rows than can be counted.
#[inline]
pub(crate) fn count_more(count: usize, more: usize) -> Result<(), Memory>
    ensures { OnOk result (count + more ≤ 2 ^ 64 - 1) }
{
    if more <= usize::MAX - count {
        Ok(())
    } else {
        Err(Memory)
    }
}

/// Reserves room for the given number of more elements, if the list is not empty. An empty list is replaced by that of
/// another multiset, and needs no room.
fn make_list_room<T>(list: &mut Vec<T>, more: usize) -> Result<(), Memory>
    ensures same { list.new.items ≡ list.old.items }
    ensures room { OnOk result
        (0 < vec_len list.new → vec_len list.new + more ≤ vec_capacity list.new) }
{
    if list.is_empty() {
        return Ok(());
    }
    reserve(list, more)
}

/// Appends the elements, for which there is room. Does not allocate.
fn append_list<T: Drop>(list: &mut Vec<T>, mut more: Vec<T>)
    requires { vec_len list.old + vec_len more ≤ vec_capacity list.old }
    ensures { list.new.items ≡ list.old.items ++ more.items }
{
    match list.append(&mut more) {
        Ok(()) => {}
        Err(_) => unreachable!(),
    }
}

/// Appends the elements of another list. Does not allocate.
fn join_list<T: Drop>(list: &mut Vec<T>, more: Vec<T>)
    requires { 0 < vec_len list.old → vec_len list.old + vec_len more ≤ vec_capacity list.old }
    ensures { list.new.items ≡ list.old.items ++ more.items }
{
    if list.is_empty() {
        *list = more;
    } else {
        append_list(list, more);
    }
}

impl IdPairs {
    /// Creates a list without pairs. Does not allocate.
    pub(crate) fn new(alloc: Global) -> IdPairs
        ensures { pairs_in result ≡ [] }
    {
        IdPairs {
            wide: Vec::new(alloc),
            short: Vec::new(alloc),
        }
    }

    /// Returns the number of pairs.
    #[inline]
    pub(crate) fn len(&self) -> usize
        ensures { result ≡ length (pairs_in self.now) }
    {
        self.wide.len() + self.short.len()
    }

    /// Returns whether there are no pairs.
    pub(crate) fn is_empty(&self) -> bool
        ensures none { OnTrue result (pairs_in self.now ≡ []) }
        ensures value { result ≡ (length (pairs_in self.now) == 0) }
    {
        self.len() == 0
    }

    /// Adds the pair of a packed key. After `Err` nothing has changed.
    #[inline]
    fn push_short(&mut self, key: u64) -> Result<(), Memory>
        ensures put { OnOk result (pairs_in self.new ≡ pairs_in self.old ++ pair_in key ∷ []) }
        ensures same { OnErr result (pairs_in self.new ≡ pairs_in self.old) }
    {
        Ok(self.short.push(key)?)
    }

    /// Adds the pair to the wide ones. After `Err` nothing has changed.
    #[inline]
    fn push_wide(&mut self, pair: u128) -> Result<(), Memory>
        ensures put { OnOk result (IsPermutation (pairs_in self.old ++ pair ∷ [])
            (pairs_in self.new)) }
        ensures same { OnErr result (pairs_in self.new ≡ pairs_in self.old) }
    {
        Ok(self.wide.push(pair)?)
    }

    /// Adds the pair. After `Err` nothing has changed.
    #[inline]
    pub(crate) fn push(&mut self, pair: u128) -> Result<(), Memory>
        ensures put { OnOk result (IsPermutation (pairs_in self.old ++ pair ∷ [])
            (pairs_in self.new)) }
        ensures same { OnErr result (pairs_in self.new ≡ pairs_in self.old) }
    {
        match short_of(pair) {
            Some(key) => self.push_short(key),
            None => self.push_wide(pair),
        }
    }

    /// Reserves room for the pairs of another multiset.
    pub(crate) fn make_room(&mut self, more: &IdPairs) -> Result<(), Memory>
        ensures same { pairs_in self.new ≡ pairs_in self.old }
        ensures room { OnOk result (HasRoomFor self.new more.now) }
    {
        make_list_room(&mut self.wide, more.wide.len())?;
        make_list_room(&mut self.short, more.short.len())
    }

    /// Adds the pairs of another multiset. Does not allocate.
    pub(crate) fn join(&mut self, more: IdPairs)
        requires { HasRoomFor self.old more }
        ensures { IsPermutation (pairs_in self.old ++ pairs_in more) (pairs_in self.new) }
    {
        let IdPairs { wide, short } = more;
        join_list(&mut self.wide, wide);
        join_list(&mut self.short, short);
    }
}

/// Appends the pairs of packed keys, for which there is room. Does not allocate.
fn put_pairs(wide: &mut Vec<u128>, keys: &[u64])
    requires { vec_len wide.old + length keys.now ≤ vec_capacity wide.old }
    ensures { wide.new.items ≡ wide.old.items ++ map pair_in keys.now }
{
    for key in keys {
        wide.push_reserved(pair_in(*key));
    }
}

/// Returns all pairs as wide ones. Allocates memory for the short ones.
pub(crate) fn all_wide(pairs: IdPairs) -> Result<Vec<u128>, Memory>
    ensures { IfOk result (λ all. all.items ≡ pairs_in pairs) }
{
    let IdPairs { mut wide, short } = pairs;
    reserve(&mut wide, short.len())?;
    put_pairs(&mut wide, short.as_slice());
    Ok(wide)
}
