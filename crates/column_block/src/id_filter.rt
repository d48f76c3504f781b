//! A Bloom filter of ids.
//!
//! A query may list many ids, of which a block has one or two. Most of the others are excluded by one bit of the filter.
//! Only the rest have to be searched for among the ids of the block.
ghost use Rattle.std.specs.Prelude.{ℕ, ◌≡◌, true, IfOk};
ghost use Rattle.column_block.specs.Filters.{CoversAll, is_set, may_have, word_of};

use sky_io::Memory;
use std::alloc::Global;
use std::marker::Model;

/// The number of ids for which a filter has a word of 64 bits, if not more.
const IDS_A_WORD: usize = 8;

/// A Bloom filter of ids with one hash function: an id has the bit with the number of its low bits. If the bit of an id
/// is 0, it is none of them.
#[derive(Drop)]
pub(crate) struct IdFilter {
    words: Vec<u64>,
}

impl Model for IdFilter {
    ghost use Rattle.std.specs.Prelude.{ℕ, List};

    ghost Value = { List ℕ };

    ghost view = { λ f. f.words.items };
}

impl IdFilter {
    /// Creates the filter of these ids. Allocates memory once.
    pub(crate) fn of(alloc: Global, ids: &[i64]) -> Result<IdFilter, Memory>
        ensures { IfOk result (λ filter. CoversAll filter ids.now) }
    {
        let mut words = Vec::from_elem(alloc, 0u64, word_count(ids.len()))?;
        for i in 0..ids.len() {
            set_bit(&mut words, ids[i].cast_unsigned());
        }
        Ok(IdFilter { words })
    }

    /// Returns false only if the id is none of those of the filter. Does not allocate.
    pub(crate) fn may_have(&self, id: i64) -> bool
        ensures { result ≡ may_have self.now id }
    {
        is_set(self.words.as_slice(), id.cast_unsigned())
    }
}

/// Returns the number of words for the given number of ids: a power of two that gives 8 to 16 bits to each.
fn word_count(ids: usize) -> usize {
    (ids / IDS_A_WORD + 1).next_power_of_two()
}

/// Returns the index of the word that has the bit with a number, if there is a power of two of words.
fn word_of(count: usize, n: u64) -> usize
    ensures { result ≡ word_of count n }
{
    (n / 64) as usize & count.saturating_sub(1)
}

/// Returns whether the bit with a number is 1. In a word that is not there each bit counts as 1.
fn is_set(words: &[u64], n: u64) -> bool
    ensures { result ≡ is_set words.now n }
{
    (*words.get(word_of(words.len(), n)).unwrap_or(&u64::MAX) >> (n % 64)) & 1 == 1
}

/// Sets the bit with a number to 1.
fn set_bit(words: &mut Vec<u64>, n: u64)
    ensures set { is_set words.new.items n ≡ true }
    ensures kept { (m : ℕ) → is_set words.old.items m ≡ true → is_set words.new.items m ≡ true }
{
    let at = word_of(words.len(), n);
    if at < words.len() {
        words[at] |= 1 << (n % 64);
    }
}
