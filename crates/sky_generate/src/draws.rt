//! The draws of an object: a linear congruential generator, `minstd_rand` of the C++ standard.
//!
//! Draw k is the seed times a power of the multiplier, so each thread can begin with the draws of its own objects.

ghost use Rattle.std.specs.Prelude.{◌≡◌, ◌<◌, ◌^◌, ◌%◌};
ghost use Rattle.demo_rules.specs.Draws.{draw};
ghost use Rattle.demo_rules.specs.declared.limits.TheConstants.{MODULUS, MULTIPLIER};
ghost use Rattle.sky_generate.specs.Draws.{AreDrawnFrom, next_draw};

use demo_rules::limits::{MODULUS, MULTIPLIER};

/// The five draws of an object, each below 2^31 - 1: its height, its leaning to x and to y, its flux and its kind.
#[derive(Clone, Copy)]
pub(crate) struct Draws {
    pub height: u64,
    pub lean_x: u64,
    pub lean_y: u64,
    pub flux: u64,
    pub kind: u64,
}

impl Draws {
    /// Returns the five draws after the given one, which is an earlier draw or the seed.
    pub fn after(before: u64) -> Draws
        requires { before < MODULUS }
        ensures { AreDrawnFrom before result }
    {
        let height = next(before);
        let lean_x = next(height);
        let lean_y = next(lean_x);
        let flux = next(lean_y);
        let kind = next(flux);
        Draws {
            height,
            lean_x,
            lean_y,
            flux,
            kind,
        }
    }
}

/// Returns the draw after another one.
fn next(before: u64) -> u64
    requires { before < MODULUS }
    ensures value { result ≡ next_draw before }
    ensures below { result < MODULUS }
{
    before * MULTIPLIER % MODULUS
}

/// Returns a power of the multiplier, modulo 2^31 - 1.
#[tactic(auto, using(crate::proofs::Powers::even_power, crate::proofs::Powers::odd_power))]
fn power(exponent: u64) -> u64
    ensures value { result ≡ MULTIPLIER ^ exponent % MODULUS }
    ensures below { result < MODULUS }
{
    if exponent == 0 {
        return 1;
    }
    let half = power(exponent / 2);
    let even = half * half % MODULUS;
    if exponent % 2 == 0 { even } else { next(even) }
}

/// Returns the draw with this number from a seed, counted from 1; draw 0 is the seed.
#[tactic(auto, using(crate::proofs::Powers::drawn_at))]
pub(crate) fn draw_at(seed: u64, number: u64) -> u64
    requires { seed < MODULUS }
    ensures value { result ≡ draw seed number }
    ensures below { result < MODULUS }
{
    seed * power(number) % MODULUS
}
