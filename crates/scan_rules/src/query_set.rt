//! A set of query numbers, as a bitmap of four 64-bit integers: query q is bit q % 64 of integer q / 64.
ghost use Rattle.std.specs.Prelude.{◌≡◌, ℕ, ◌<◌, ◌≤◌, List, [], ◌∷◌, ◌++◌, Contains, IfSome, None, IsTrue, ◌↔◌, cond, length};
ghost use Rattle.std.specs.List.{last_or};
ghost use Rattle.scan_rules.specs.QuerySets.{is_set, set_queries};
ghost use Rattle.scan_rules.specs.declared.limits.TheConstants.{QUERY_MOST, QUERY_NUMBERS};

use crate::limits::{QUERY_MOST, QUERY_NUMBERS};
use arrayvec::ArrayVec;
use std::marker::Model;

/// A set of query numbers, 1 to 255, seen as their ascending list.
#[derive(Clone, Copy, Drop)]
pub struct QuerySet {
    words: [u64; 4],
}

impl Model for QuerySet {
    ghost use Rattle.std.specs.Prelude.{ℕ, List};

    ghost Value = { List ℕ };

    ghost use Rattle.scan_rules.specs.QuerySets.{set_queries, words_of, AreFourWords};
    ghost use Rattle.std.proofs.Common.{ap};
    ghost use Rattle.scan_rules.specs.QueryWords.{words_return};
    ghost use Rattle.scan_rules.specs.declared.query_set.QuerySet.TheInside.{Inside};

    ghost view = { λ s. set_queries s.words };

    ghost invariant = { λ s. AreFourWords s.words };

    ghost inverse = { λ queries. record { words = words_of queries } };

    ghost inverse_ok = { λ s h. ap {B = Inside} (λ words. record { words = words }) (words_return s.words h) };
}

impl QuerySet {
    /// Creates a set without queries. Does not allocate.
    pub fn new() -> QuerySet
        ensures { result ≡ [] }
    {
        QuerySet { words: [0; 4] }
    }

    /// Appends a query, which must be from 1 to 255 and above the last one. Does not allocate.
    pub fn add(&mut self, q: u32)
        requires from_1 { 1 ≤ q }
        requires to_255 { q ≤ QUERY_MOST }
        requires above { IfSome (last_or None self.old) (λ last. last < q) }
        ensures { self.new ≡ self.old ++ q ∷ [] }
    {
        self.words[(q / 64) as usize] |= 1 << (q % 64);
    }

    /// Returns whether the query is in the set; false for a number above 255. Does not allocate.
    pub fn has(&self, q: u32) -> bool
        ensures { IsTrue result ↔ Contains self.now q }
    {
        q <= QUERY_MOST && (self.words[(q / 64) as usize] >> (q % 64)) & 1 == 1
    }

    /// Returns the queries, in ascending order. Does not allocate.
    pub fn list(&self) -> ArrayVec<u32, QUERY_NUMBERS>
        ensures { result.items ≡ self.now }
    {
        list_of(&self.words)
    }
}

/// Returns whether the query's bit is 1.
fn is_set(words: &[u64; 4], q: u32) -> bool
    requires { q ≤ QUERY_MOST }
    ensures { result ≡ is_set words.now q }
{
    (words[(q / 64) as usize] >> (q % 64)) & 1 == 1
}

/// Appends the query if it is wanted.
fn push_where(list: &mut ArrayVec<u32, QUERY_NUMBERS>, q: u32, wanted: bool)
    requires { length list.old.items < QUERY_NUMBERS }
    ensures { list.new.items ≡ list.old.items ++ cond wanted (q ∷ []) [] }
{
    if wanted {
        list.push(q);
    }
}

/// Returns the queries whose bits are 1, in ascending order.
fn list_of(words: &[u64; 4]) -> ArrayVec<u32, QUERY_NUMBERS>
    ensures { result.items ≡ set_queries words.now }
{
    let mut list = ArrayVec::new();
    for q in 0..QUERY_NUMBERS as u32 {
        push_where(&mut list, q, is_set(words, q));
    }
    list
}
