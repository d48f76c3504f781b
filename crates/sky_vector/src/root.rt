//! The integer square root.

ghost use Rattle.std.specs.Prelude.{◌<◌, ◌^◌};
ghost use Rattle.sky_vector.specs.Roots.{IsRoot};

/// The square root, rounded down: the largest number whose square is at most n. No floating point. Does not allocate.
pub fn isqrt(n: u64) -> u64
    ensures root { IsRoot n result }
    ensures half { result < 2 ^ 32 }
{
    n.isqrt()
}
