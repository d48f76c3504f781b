//! Numbers that columns of 32 bits are compared with.
ghost use Rattle.std.specs.Prelude.{◌≡◌, ℤ, int_le};
ghost use Rattle.sky_vector.specs.Points.{IsWithin};
ghost use Rattle.sql_tree.specs.declared.cond.Cmp.{Cmp};
ghost use Rattle.value_rules.specs.Truth.{compares};

use sky_vector::limits::PART_MOST;

/// The first number above all components of a position.
const ABOVE: i64 = PART_MOST as i64 + 1;

/// Returns a number of 32 bits that compares with each component of a position as n does: n itself, or a number beyond
/// all components on the side of n.
#[tactic(auto, using(crate::proofs::Beyond::above_alike, crate::proofs::Beyond::below_alike))]
pub(crate) fn narrow(n: i64) -> i32
    ensures compares { (op : Cmp) (part : ℤ) → IsWithin part
        → compares op part result ≡ compares op part n }
    ensures from { (part : ℤ) → IsWithin part → int_le result part ≡ int_le n part }
    ensures to { (part : ℤ) → IsWithin part → int_le part result ≡ int_le part n }
{
    if n > ABOVE {
        ABOVE as i32
    } else if n < -ABOVE {
        -ABOVE as i32
    } else {
        n as i32
    }
}
