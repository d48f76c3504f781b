//! Lemmas about conditions that compare one column with numbers, stated as functions that do nothing: a caller obtains
//! what they ensure.

ghost use Rattle.sql_bound.specs.declared.cond.BoundCond.{BoundCond};
ghost use Rattle.value_rules.specs.ColumnLaws.{AbsentFailsRange, AbsentFailsTest, BetweenIsARange};
ghost use Rattle.value_rules.specs.ColumnLaws.{BoxIsItsBandBetweenDirections, BracketsDoNotCount, ColumnFirst};
ghost use Rattle.value_rules.specs.ColumnLaws.{MirroredCompares, MirroredIsTheSame, MirroredTwice, NumberFirst};
ghost use Rattle.value_rules.specs.ColumnLaws.{RangeIsTwoComparisons, TestIsItsComparison};

/// A condition that is a test of a column has that test's truth, and holds exactly if the value in the column passes.
pub fn test_is_its_comparison()
    ensures { TestIsItsComparison }
{}

/// A condition that is a range of a column, a BETWEEN of two numbers or a band, is two comparisons. It holds exactly if
/// the value in the column is within.
pub fn range_is_two_comparisons()
    ensures { RangeIsTwoComparisons }
{}

/// A missing value fails each test and each range.
pub fn absent_value_fails()
    ensures test { AbsentFailsTest }
    ensures range { AbsentFailsRange }
{}

/// A comparison equals its mirrored one with the sides exchanged: `5 < x` is `x > 5`.
pub fn mirrored_comparison()
    ensures values { MirroredCompares }
    ensures conditions { MirroredIsTheSame }
    ensures twice { MirroredTwice }
{}

/// A column compared with a number, on either side, is a test of the column. A column BETWEEN two numbers is a range of
/// it. Brackets round the condition do not matter.
pub fn which_conditions_are_tests()
    ensures column_first { ColumnFirst }
    ensures number_first { NumberFirst }
    ensures between { BetweenIsARange }
    ensures brackets { (c : BoundCond) → BracketsDoNotCount c }
{}

/// A box is its band and the condition that the point is between its directions.
#[tactic(auto, using(crate::proofs::ColumnTests::box_is_its_band_between_directions))]
pub fn box_is_its_band_between_directions()
    ensures { BoxIsItsBandBetweenDirections }
{}
