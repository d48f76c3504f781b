//! Masks over columns of 32-bit numbers, sixteen rows an iteration, by the tests of `wide`.
//!
//! A plain loop tests eight rows an iteration here and packs four at a time. The tests take 64 bits. If both sides come
//! from 32 bits, the compiler compares in 32 again, so each loop is inlined into the call that has the number.
ghost use Rattle.std.specs.Prelude.{◌≡◌, ◌+◌, ◌<◌, ◌≤◌, ℕ, ℤ, Bool, false, ◌&&◌, length, get_or, pos, cond};
ghost use Rattle.lane_filter.specs.Tests.{IsKeptBy};

use crate::wide::{BLOCK, WideTest, flag};

/// Clears the mask at each row whose value does not pass the test.
#[inline(always)]
pub(crate) fn keep_by_narrow<T: WideTest>(test: &T, values: &[i32], mask: &mut [bool])
    requires { length values.now ≡ length mask.old }
    ensures len { length mask.new ≡ length mask.old }
    ensures each { IsKeptBy (λ k. T.passes test.now (get_or values.now k (pos 0)))
        mask.old mask.new }
{
    let blocks = values.len() / BLOCK;
    for block in 0..blocks {
        keep_block_narrow(test, values, BLOCK * block, mask);
    }
    for i in BLOCK * blocks..values.len() {
        mask[i] = mask[i] & test.passes(i64::from(values[i]));
    }
}

/// Clears the mask so for the sixteen rows from this one on.
#[inline(always)]
#[tactic(auto, using(crate::proofs::Picking::flag_told))]
fn keep_block_narrow<T: WideTest>(test: &T, values: &[i32], from: usize, mask: &mut [bool])
    requires len { length values.now ≡ length mask.old }
    requires there { from + 16 ≤ length values.now }
    ensures len { length mask.new ≡ length mask.old }
    ensures before { (k : ℕ) → k < from → get_or mask.new k false ≡ get_or mask.old k false }
    ensures block { (k : ℕ) → from ≤ k → k < from + 16 → get_or mask.new k false
        ≡ (get_or mask.old k false && T.passes test.now (get_or values.now k (pos 0))) }
    ensures behind { (k : ℕ) → from + 16 ≤ k → get_or mask.new k false ≡ get_or mask.old k false }
{
    let flags = flags_of_narrow(test, values, from);
    for j in 0..BLOCK {
        let i = from + j;
        mask[i] = mask[i] & (flags[j] != 0);
    }
}

/// Returns for each of sixteen rows 1 if its value passes the test, else 0.
#[inline(always)]
fn flags_of_narrow<T: WideTest>(test: &T, values: &[i32], from: usize) -> [i32; BLOCK]
    requires { from + 16 ≤ length values.now }
    ensures { (j : ℕ) → j < 16 → get_or result j (pos 0)
        ≡ cond (T.passes test.now (get_or values.now (from + j) (pos 0))) (pos 1) (pos 0) }
{
    let mut flags = [0; BLOCK];
    for j in 0..BLOCK {
        flags[j] = flag(test.passes(i64::from(values[from + j])));
    }
    flags
}
