//! The sources whose objectId passes a test.
//!
//! Few do. So the ids are read in blocks, and a first loop finds whether any id of the block passes. That loop has no
//! branch, so the compiler vectorises it. For a block in which no id passes, nothing is written.
ghost use Rattle.std.specs.Prelude.{◌≡◌, ◌<◌, ◌≤◌, ◌^◌, ◌++◌, ◌∷◌, [], ℕ, ℤ, Bool, if◌then◌else◌, IfOk, OnOk, false, true, get_or, length, pos};
ghost use Rattle.std.specs.Ordering.{int_eq};
ghost use Rattle.source_filter.specs.Objects.{flag_number, numbers_where};

use sky_io::Memory;
use std::alloc::Global;

/// The number of ids in a block.
const BLOCK: usize = 64;

/// A test of an id.
pub(crate) trait IdTest {
    /// The ids that pass.
    ghost passes: { Self → ℤ → Bool };

    /// Returns whether the id passes.
    fn passes(&self, id: i64) -> bool
        ensures { result ≡ passes self.now id };
}

/// The test whether an id is this one.
#[derive(Clone, Copy)]
pub(crate) struct Equals {
    pub id: i64,
}

impl IdTest for Equals {
    ghost passes = { λ t id. int_eq id t.id };

    #[inline(always)]
    fn passes(&self, id: i64) -> bool {
        id == self.id
    }
}

/// Returns the numbers, ascending, at which the ids pass the test. Allocates memory for the numbers alone.
pub(crate) fn numbers_passing<T: IdTest>(
    alloc: Global,
    test: &T,
    ids: &[i64],
) -> Result<Vec<u32>, Memory>
    requires { length ids.now < 2 ^ 32 }
    ensures { IfOk result (λ numbers.
        numbers.items ≡ numbers_where (T.passes test.now) ids.now (length ids.now)) }
{
    let mut numbers = Vec::new(alloc);
    for block in 0..ids.len().div_ceil(BLOCK) {
        let end = ids.len().min((block + 1) * BLOCK);
        push_block(&mut numbers, test, ids, block * BLOCK, end)?;
    }
    Ok(numbers)
}

/// Appends the numbers from `first` to before `end` at which the ids pass the test.
fn push_block<T: IdTest>(
    numbers: &mut Vec<u32>,
    test: &T,
    ids: &[i64],
    first: usize,
    end: usize,
) -> Result<(), Memory>
    requires few { length ids.now < 2 ^ 32 }
    requires order { first ≤ end }
    requires there { end ≤ length ids.now }
    requires so_far { numbers.old.items ≡ numbers_where (T.passes test.now) ids.now first }
    ensures { OnOk result (numbers.new.items ≡ numbers_where (T.passes test.now) ids.now end) }
{
    if has_one(test, ids, first, end) {
        push_each(numbers, test, ids, first, end)
    } else {
        Ok(())
    }
}

/// Returns whether an id passes the test at a number from `first` to before `end`.
fn has_one<T: IdTest>(test: &T, ids: &[i64], first: usize, end: usize) -> bool
    requires order { first ≤ end }
    requires there { end ≤ length ids.now }
    ensures { result ≡ false → (k : ℕ) → first ≤ k → k < end
        → T.passes test.now (get_or ids.now k (pos 0)) ≡ false }
{
    let block = &ids[first..end];
    let mut has = false;
    for k in 0..block.len() {
        has = has | test.passes(block[k]);
    }
    has
}

/// Appends the numbers from `first` to before `end` at which the ids pass the test, one after the other.
fn push_each<T: IdTest>(
    numbers: &mut Vec<u32>,
    test: &T,
    ids: &[i64],
    first: usize,
    end: usize,
) -> Result<(), Memory>
    requires few { length ids.now < 2 ^ 32 }
    requires order { first ≤ end }
    requires there { end ≤ length ids.now }
    requires so_far { numbers.old.items ≡ numbers_where (T.passes test.now) ids.now first }
    ensures { OnOk result (numbers.new.items ≡ numbers_where (T.passes test.now) ids.now end) }
{
    for k in first..end {
        push_if(numbers, test.passes(ids[k]), k as u32)?;
    }
    Ok(())
}

/// Appends the number, if `is` is true.
fn push_if(numbers: &mut Vec<u32>, is: bool, number: u32) -> Result<(), Memory>
    ensures { OnOk result (numbers.new.items
        ≡ numbers.old.items ++ (if is then number ∷ [] else [])) }
{
    if is { push(numbers, number) } else { Ok(()) }
}

/// Appends the number.
fn push(numbers: &mut Vec<u32>, number: u32) -> Result<(), Memory>
    ensures { OnOk result (numbers.new.items ≡ numbers.old.items ++ number ∷ []) }
{
    numbers.push(number)?;
    Ok(())
}

/// The number of flags of a filter of ids.
pub(crate) const FLAGS: usize = 1 << 12;

/// Returns the number of the flag of an id: its lowest bits.
fn flag_of(id: i64) -> usize
    ensures there { result < FLAGS }
    ensures is { result ≡ flag_number id }
{
    (id.cast_unsigned() % FLAGS as u64) as usize
}

/// A filter of ids: an id that is none of the wanted ones passes only if it has the flag of one of them.
#[derive(Clone, Copy)]
pub(crate) struct Flags {
    flags: [bool; FLAGS],
}

impl IdTest for Flags {
    ghost passes = { λ t id. get_or t.flags (flag_number id) false };

    #[inline(always)]
    fn passes(&self, id: i64) -> bool {
        self.flags[flag_of(id)]
    }
}

/// Returns the filter of these ids.
pub(crate) fn flags_of(ids: &[i64]) -> Flags
    ensures { (k : ℕ) → k < length ids.now
        → get_or result.flags (flag_number (get_or ids.now k (pos 0))) false ≡ true }
{
    let mut flags = [false; FLAGS];
    for k in 0..ids.len() {
        flags[flag_of(ids[k])] = true;
    }
    Flags { flags }
}
