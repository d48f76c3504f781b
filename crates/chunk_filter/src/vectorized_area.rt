//! The part of an area test that a kernel of `lane_filter` evaluates.
ghost use Rattle.std.specs.Prelude.{◌≡◌};
ghost use Rattle.value_rules.specs.Formulas.{LiesIn};
ghost use Rattle.chunk_filter.specs.Asking.{IsVectorized};
ghost use Rattle.chunk_filter.specs.declared.predicate.Predicate.TheVariants.{Range};

use crate::predicate::{Predicate, Vectorized};
use sql_bound::AreaTest;

/// The column of the heights.
const HEIGHTS: u32 = 3;

/// Returns the predicate of an area test. A band and a cap are one predicate each. Of a box only the heights are, and
/// its sides are left to the evaluator.
#[tactic(auto, using(crate::proofs::Vectorizing::band_vectorized, crate::proofs::Vectorizing::cap_vectorized, crate::proofs::Vectorizing::box_vectorized))]
pub(crate) fn of_area(test: &AreaTest) -> Vectorized
    ensures { IsVectorized (LiesIn test.now) result }
{
    match test {
        AreaTest::Band { lo, hi } => heights(*lo, *hi, true),
        AreaTest::Cap { centre, n } => Vectorized {
            test: Predicate::Near {
                centre: *centre,
                n: *n,
            },
            whole: true,
        },
        AreaTest::Boxed { lo, hi, a: _, b: _ } => heights(*lo, *hi, false),
    }
}

/// Returns the predicate of the heights from `lo` to `hi`.
fn heights(lo: i64, hi: i64, whole: bool) -> Vectorized
    ensures { result ≡ record { test = Range 3 lo hi; whole = whole } }
{
    Vectorized {
        test: Predicate::Range {
            col: HEIGHTS,
            low: lo,
            high: hi,
        },
        whole,
    }
}
