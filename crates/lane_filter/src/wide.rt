//! Masks over columns of 64-bit numbers, sixteen rows an iteration.
//!
//! A plain loop that makes a byte of two 64-bit numbers is three times slower than necessary. The compiler takes two or
//! four rows an iteration, as many as a register has numbers, and packs them one by one. So the results of sixteen rows
//! are written as 32-bit flags first and packed from there. The test is a type of its own, so that one pair of loops
//! serves all tests.
ghost use Rattle.std.specs.Prelude.{◌≡◌, ◌+◌, ◌<◌, ◌≤◌, ℕ, ℤ, Bool, false, ◌&&◌, length, get_or, pos, cond, int_le, int_lt, not};
ghost use Rattle.std.specs.Ordering.{int_eq};
ghost use Rattle.lane_filter.specs.Tests.{IsKeptBy, is_from_to};

/// The number of rows that are tested before their results are packed.
pub(crate) const BLOCK: usize = 16;

/// A test of a number.
pub(crate) trait WideTest {
    /// The numbers that pass.
    ghost passes: { Self → ℤ → Bool };

    /// Returns whether the number passes.
    fn passes(&self, value: i64) -> bool
        ensures { result ≡ passes self.now value };
}

/// Clears the mask at each row whose value does not pass the test.
pub(crate) fn keep_by<T: WideTest>(test: &T, values: &[i64], mask: &mut [bool])
    requires { length values.now ≡ length mask.old }
    ensures len { length mask.new ≡ length mask.old }
    ensures each { IsKeptBy (λ k. T.passes test.now (get_or values.now k (pos 0)))
        mask.old mask.new }
{
    let blocks = values.len() / BLOCK;
    for block in 0..blocks {
        keep_block(test, values, BLOCK * block, mask);
    }
    for i in BLOCK * blocks..values.len() {
        mask[i] = mask[i] & test.passes(values[i]);
    }
}

/// Clears the mask so for the sixteen rows from this one on.
#[inline(always)]
#[tactic(auto, using(crate::proofs::Picking::flag_told))]
fn keep_block<T: WideTest>(test: &T, values: &[i64], from: usize, mask: &mut [bool])
    requires len { length values.now ≡ length mask.old }
    requires there { from + 16 ≤ length values.now }
    ensures len { length mask.new ≡ length mask.old }
    ensures before { (k : ℕ) → k < from → get_or mask.new k false ≡ get_or mask.old k false }
    ensures block { (k : ℕ) → from ≤ k → k < from + 16 → get_or mask.new k false
        ≡ (get_or mask.old k false && T.passes test.now (get_or values.now k (pos 0))) }
    ensures behind { (k : ℕ) → from + 16 ≤ k → get_or mask.new k false ≡ get_or mask.old k false }
{
    let flags = flags_of(test, values, from);
    for j in 0..BLOCK {
        let i = from + j;
        mask[i] = mask[i] & (flags[j] != 0);
    }
}

/// Returns for each of sixteen rows 1 if its value passes the test, else 0.
#[inline(always)]
fn flags_of<T: WideTest>(test: &T, values: &[i64], from: usize) -> [i32; BLOCK]
    requires { from + 16 ≤ length values.now }
    ensures { (j : ℕ) → j < 16 → get_or result j (pos 0)
        ≡ cond (T.passes test.now (get_or values.now (from + j) (pos 0))) (pos 1) (pos 0) }
{
    let mut flags = [0; BLOCK];
    for j in 0..BLOCK {
        flags[j] = flag(test.passes(values[from + j]));
    }
    flags
}

/// Returns 1 for true, 0 for false.
#[inline(always)]
pub(crate) fn flag(truth: bool) -> i32
    ensures { result ≡ cond truth (pos 1) (pos 0) }
{
    i32::from(truth)
}

/// The test whether a value equals the number.
#[derive(Clone, Copy)]
pub(crate) struct Equals {
    pub n: i64,
}

impl WideTest for Equals {
    ghost passes = { λ t value. int_eq value t.n };

    #[inline(always)]
    fn passes(&self, value: i64) -> bool {
        value == self.n
    }
}

/// The test whether a value differs from the number.
#[derive(Clone, Copy)]
pub(crate) struct Differs {
    pub n: i64,
}

impl WideTest for Differs {
    ghost passes = { λ t value. not (int_eq value t.n) };

    #[inline(always)]
    fn passes(&self, value: i64) -> bool {
        value != self.n
    }
}

/// The test whether a value is below the number.
#[derive(Clone, Copy)]
pub(crate) struct Below {
    pub n: i64,
}

impl WideTest for Below {
    ghost passes = { λ t value. int_lt value t.n };

    #[inline(always)]
    fn passes(&self, value: i64) -> bool {
        value < self.n
    }
}

/// The test whether a value is at most the number.
#[derive(Clone, Copy)]
pub(crate) struct AtMost {
    pub n: i64,
}

impl WideTest for AtMost {
    ghost passes = { λ t value. int_le value t.n };

    #[inline(always)]
    fn passes(&self, value: i64) -> bool {
        value <= self.n
    }
}

/// The test whether a value is above the number.
#[derive(Clone, Copy)]
pub(crate) struct Above {
    pub n: i64,
}

impl WideTest for Above {
    ghost passes = { λ t value. int_lt t.n value };

    #[inline(always)]
    fn passes(&self, value: i64) -> bool {
        value > self.n
    }
}

/// The test whether a value is at least the number.
#[derive(Clone, Copy)]
pub(crate) struct AtLeast {
    pub n: i64,
}

impl WideTest for AtLeast {
    ghost passes = { λ t value. int_le t.n value };

    #[inline(always)]
    fn passes(&self, value: i64) -> bool {
        value >= self.n
    }
}

/// The test whether a value is from the first number to the last.
#[derive(Clone, Copy)]
pub(crate) struct Between {
    pub first: i64,
    pub last: i64,
}

impl WideTest for Between {
    ghost passes = { λ t value. is_from_to t.first t.last value };

    #[inline(always)]
    #[tactic(auto, unfolding(crate::specs::Tests::is_from_to))]
    fn passes(&self, value: i64) -> bool {
        (self.first <= value) & (value <= self.last)
    }
}
