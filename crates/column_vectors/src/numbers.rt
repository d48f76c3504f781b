//! A number for each selected row, in 64 bits or in 128.
//!
//! A number that is the same on each row, such as a literal of the query, is stored once. A loop that has it as its right
//! operand need not read it from a list; elsewhere it is materialised in a list.
ghost use Rattle.std.specs.Prelude.{◌≡◌, ◌<◌, ◌≤◌, ℕ, [], IfOk, length, get_or, pos, replicate, vec_capacity};
ghost use Rattle.column_vectors.specs.Lanes.{numbers_of};

use crate::leaf::repeated;
use crate::scratch::{Pool, Scratch};
use sky_io::Memory;

/// Numbers of one width, or one number repeated for each row.
#[derive(Drop)]
pub enum Numbers {
    Narrow(Vec<i64>),
    Wide(Vec<i128>),
    Same(i64, usize),
}

impl Numbers {
    /// Returns how many numbers there are.
    pub fn len(&self) -> usize
        ensures { result ≡ length (numbers_of self.now) }
    {
        match self {
            Numbers::Narrow(numbers) => numbers.len(),
            Numbers::Wide(numbers) => numbers.len(),
            Numbers::Same(_, count) => *count,
        }
    }

    /// Returns the number with this index, from 0.
    pub fn get(&self, i: usize) -> i128
        requires { i < length (numbers_of self.now) }
        ensures { result ≡ get_or (numbers_of self.now) i (pos 0) }
    {
        match self {
            Numbers::Narrow(numbers) => i128::from(numbers[i]),
            Numbers::Wide(numbers) => numbers[i],
            Numbers::Same(n, _) => i128::from(*n),
        }
    }

    /// Returns the same numbers in 128 bits.
    pub(crate) fn widened(self, scratch: &mut Scratch) -> Result<Vec<i128>, Memory>
        ensures { IfOk result (λ wide. wide.items ≡ numbers_of self) }
    {
        match self {
            Numbers::Narrow(numbers) => widened(numbers, scratch),
            Numbers::Wide(numbers) => Ok(numbers),
            Numbers::Same(n, count) => listed_wide(n, count, scratch),
        }
    }

    /// Returns the same numbers, each materialised in a list.
    pub fn listed(self, scratch: &mut Scratch) -> Result<Numbers, Memory>
        ensures { IfOk result (λ made. numbers_of made ≡ numbers_of self) }
    {
        match self {
            Numbers::Same(n, count) => listed_narrow(n, count, scratch),
            other => Ok(other),
        }
    }

    /// Gives the vector back to the scratch.
    pub fn give_back(self, scratch: &mut Scratch) {
        match self {
            Numbers::Narrow(numbers) => scratch.narrow.give(numbers),
            Numbers::Wide(numbers) => scratch.wide.give(numbers),
            Numbers::Same(_, _) => (),
        }
    }
}

/// Returns a number repeated `count` times, in a list.
fn listed_narrow(n: i64, count: usize, scratch: &mut Scratch) -> Result<Numbers, Memory>
    ensures { IfOk result (λ made. numbers_of made ≡ replicate count n) }
{
    let numbers = repeated(n, count, scratch.narrow.take(count)?);
    Ok(Numbers::Narrow(numbers))
}

/// Returns a number repeated `count` times, in a list of 128 bits.
fn listed_wide(n: i64, count: usize, scratch: &mut Scratch) -> Result<Vec<i128>, Memory>
    ensures { IfOk result (λ wide. wide.items ≡ replicate count n) }
{
    Ok(repeated(i128::from(n), count, scratch.wide.take(count)?))
}

/// Returns numbers of 64 bits in 128.
fn widened(numbers: Vec<i64>, scratch: &mut Scratch) -> Result<Vec<i128>, Memory>
    ensures { IfOk result (λ wide. wide.items ≡ numbers.items) }
{
    let wide = in_128_bits(numbers.as_slice(), scratch.wide.take(numbers.len())?);
    scratch.narrow.give(numbers);
    Ok(wide)
}

/// Returns the numbers in 128 bits. `wide` is an empty vector that has room for them.
fn in_128_bits(numbers: &[i64], wide: Vec<i128>) -> Vec<i128>
    requires empty { wide.items ≡ [] }
    requires room { length numbers.now ≤ vec_capacity wide }
    ensures { result.items ≡ numbers.now }
{
    let mut wide = wide;
    for number in numbers {
        wide.push_reserved(i128::from(*number));
    }
    wide
}
