//! Binary operations on two numbers, and on two vectors of them element by element.
//!
//! An operation is a type of its own, so that the same loops, in 64 and in 128 bits, serve all of them.
ghost use Rattle.std.specs.Prelude.{◌≡◌, ◌≤◌, ◌<◌, ◌+ℤ◌, ◌-ℤ◌, ◌*ℤ◌, ℕ, ℤ, FitsSigned, IfOk, length, nat_abs, get_or, pos, replicate};
ghost use Rattle.sky_vector.specs.declared.limits.TheConstants.{NUMBER_MOST};
ghost use Rattle.column_vectors.specs.Lanes.{AreJoined, CanJoin, numbers_of};
ghost use Rattle.column_vectors.specs.declared.join.TheConstants.{NARROW_MOST, WIDE_MOST};

use crate::numbers::Numbers;
use crate::scratch::Scratch;
use sky_io::Memory;

/// The largest size that a number in 64 bits may have, though one below 0 could be larger by 1.
pub(crate) const NARROW_MOST: u128 = i64::MAX as u128;

/// The largest size that a number in 128 bits may have: that of a sum of 2^24 numbers that queries compute.
pub(crate) const WIDE_MOST: u128 = 1 << 124;

/// An operation on two numbers.
pub trait Join {
    /// The result.
    ghost joins: { ℤ → ℤ → ℤ };

    /// Returns the result in 64 bits.
    fn narrow(&self, left: i64, right: i64) -> i64
        requires { nat_abs (joins left right) ≤ NARROW_MOST }
        ensures { result ≡ joins left right };

    /// Returns the result in 128 bits.
    fn wide(&self, left: i128, right: i128) -> i128
        requires { nat_abs (joins left right) ≤ WIDE_MOST }
        ensures { result ≡ joins left right };
}

/// The sum.
#[derive(Clone, Copy)]
pub struct Plus;

impl Join for Plus {
    ghost joins = { λ a b. a +ℤ b };

    #[inline(always)]
    fn narrow(&self, left: i64, right: i64) -> i64 {
        left + right
    }

    #[inline(always)]
    fn wide(&self, left: i128, right: i128) -> i128 {
        left + right
    }
}

/// The difference.
#[derive(Clone, Copy)]
pub struct Less;

impl Join for Less {
    ghost joins = { λ a b. a -ℤ b };

    #[inline(always)]
    fn narrow(&self, left: i64, right: i64) -> i64 {
        left - right
    }

    #[inline(always)]
    fn wide(&self, left: i128, right: i128) -> i128 {
        left - right
    }
}

/// The product.
#[derive(Clone, Copy)]
pub struct Times;

impl Join for Times {
    ghost joins = { λ a b. a *ℤ b };

    #[inline(always)]
    fn narrow(&self, left: i64, right: i64) -> i64 {
        left * right
    }

    #[inline(always)]
    fn wide(&self, left: i128, right: i128) -> i128 {
        left * right
    }
}

/// Returns the results of the operation on the numbers of both sides, element by element, none of which is above the
/// bound in size. They are in 64 bits if both sides are and the bound fits, and else in 128. Allocates memory for those
/// in 128.
pub(crate) fn joined<J: Join>(
    join: &J,
    left: Numbers,
    right: Numbers,
    bound: u128,
    scratch: &mut Scratch,
) -> Result<Numbers, Memory>
    requires { CanJoin J.joins bound (numbers_of left) (numbers_of right) }
    ensures { IfOk result (λ made.
        AreJoined J.joins (numbers_of left) (numbers_of right) (numbers_of made)) }
{
    let left = left.listed(scratch)?;
    joined_listed(join, left, right, bound, scratch)
}

/// Returns the results, if each number on the left is materialised in a list.
fn joined_listed<J: Join>(
    join: &J,
    left: Numbers,
    right: Numbers,
    bound: u128,
    scratch: &mut Scratch,
) -> Result<Numbers, Memory>
    requires { CanJoin J.joins bound (numbers_of left) (numbers_of right) }
    ensures { IfOk result (λ made.
        AreJoined J.joins (numbers_of left) (numbers_of right) (numbers_of made)) }
{
    match (left, right) {
        (Numbers::Narrow(left), Numbers::Narrow(right)) => {
            joined_narrow(join, left, right, bound, scratch)
        },
        (Numbers::Narrow(left), Numbers::Same(n, count)) => {
            joined_same(join, left, n, count, bound, scratch)
        },
        (left, right) => joined_wide(join, left, right, scratch),
    }
}

/// Returns the results, if both sides are in 64 bits.
fn joined_narrow<J: Join>(
    join: &J,
    left: Vec<i64>,
    right: Vec<i64>,
    bound: u128,
    scratch: &mut Scratch,
) -> Result<Numbers, Memory>
    requires { CanJoin J.joins bound left.items right.items }
    ensures { IfOk result (λ made. AreJoined J.joins left.items right.items (numbers_of made)) }
{
    if bound > NARROW_MOST {
        return joined_wide(join, Numbers::Narrow(left), Numbers::Narrow(right), scratch);
    }
    let mut left = left;
    each_narrow(join, left.as_mut_slice(), right.as_slice());
    scratch.narrow.give(right);
    Ok(Numbers::Narrow(left))
}

/// Returns the results, if the right side is one number, repeated `count` times.
fn joined_same<J: Join>(
    join: &J,
    left: Vec<i64>,
    n: i64,
    count: usize,
    bound: u128,
    scratch: &mut Scratch,
) -> Result<Numbers, Memory>
    requires { CanJoin J.joins bound left.items (replicate count n) }
    ensures { IfOk result (λ made.
        AreJoined J.joins left.items (replicate count n) (numbers_of made)) }
{
    if bound <= NARROW_MOST {
        let mut left = left;
        each_with(join, left.as_mut_slice(), n, count);
        Ok(Numbers::Narrow(left))
    } else {
        joined_wide(
            join,
            Numbers::Narrow(left),
            Numbers::Same(n, count),
            scratch,
        )
    }
}

/// Returns the results in 128 bits.
fn joined_wide<J: Join>(
    join: &J,
    left: Numbers,
    right: Numbers,
    scratch: &mut Scratch,
) -> Result<Numbers, Memory>
    requires { CanJoin J.joins NUMBER_MOST (numbers_of left) (numbers_of right) }
    ensures { IfOk result (λ made.
        AreJoined J.joins (numbers_of left) (numbers_of right) (numbers_of made)) }
{
    let mut left = left.widened(scratch)?;
    let right = right.widened(scratch)?;
    each_wide(join, left.as_mut_slice(), right.as_slice());
    scratch.wide.give(right);
    Ok(Numbers::Wide(left))
}

/// Replaces each number on the left by the result with the number of the same index on the right.
fn each_narrow<J: Join>(join: &J, left: &mut [i64], right: &[i64])
    requires { CanJoin J.joins NARROW_MOST left.old right.now }
    ensures { AreJoined J.joins left.old right.now left.new }
{
    for i in 0..right.len() {
        left[i] = join.narrow(left[i], right[i]);
    }
}

/// Replaces each number on the left by the result with one number, which is repeated `count` times.
fn each_with<J: Join>(join: &J, left: &mut [i64], n: i64, count: usize)
    requires { CanJoin J.joins NARROW_MOST left.old (replicate count n) }
    ensures { AreJoined J.joins left.old (replicate count n) left.new }
{
    for i in 0..count {
        left[i] = join.narrow(left[i], n);
    }
}

/// Replaces each number on the left by the result with the number of the same index on the right, in 128 bits.
fn each_wide<J: Join>(join: &J, left: &mut [i128], right: &[i128])
    requires { CanJoin J.joins NUMBER_MOST left.old right.now }
    ensures { AreJoined J.joins left.old right.now left.new }
{
    for i in 0..right.len() {
        left[i] = join.wide(left[i], right[i]);
    }
}
