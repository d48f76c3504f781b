//! The stripe of a height: search among stripes in ascending order.

ghost use Rattle.std.specs.Prelude.{◌≡◌, ◌≤◌, true, false, int_le, length};
ghost use Rattle.std.specs.List.Sorted.{IsPartitionPoint, IsPartitionedBy};

use crate::stripe::Stripe;

/// The most stripes for which a linear count replaces bisection: the heights of rows come in no order, so half of a
/// bisection's branches are mispredicted.
const STRIPES_COUNTED: usize = 32;

/// Returns how many of the stripes, which ascend, begin at the height or below it.
pub(crate) fn stripes_below(stripes: &[Stripe], z: i64) -> usize
    requires { IsPartitionedBy (λ s. int_le s.z_low z) stripes.now }
    ensures bound { result ≤ length stripes.now }
    ensures point { IsPartitionPoint (λ s. int_le s.z_low z ≡ true)
        (λ s. int_le s.z_low z ≡ false) stripes.now result }
{
    if stripes.len() <= STRIPES_COUNTED {
        counted_below(stripes, z)
    } else {
        stripes.partition_point(|stripe| stripe.z_low <= z)
    }
}

/// Returns the same count by a loop without a branch.
fn counted_below(stripes: &[Stripe], z: i64) -> usize
    requires { IsPartitionedBy (λ s. int_le s.z_low z) stripes.now }
    ensures bound { result ≤ length stripes.now }
    ensures point { IsPartitionPoint (λ s. int_le s.z_low z ≡ true)
        (λ s. int_le s.z_low z ≡ false) stripes.now result }
{
    let mut count = 0;
    for stripe in stripes {
        count += usize::from(stripe.z_low <= z);
    }
    count
}
