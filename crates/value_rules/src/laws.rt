//! Lemmas about values and truth, stated as functions that do nothing: a caller obtains what they ensure.

ghost use Rattle.value_rules.specs.Laws.{AndTable, BetweenIsTwoComparisons, CellIsWithin, NotAmong, NotBetween};
ghost use Rattle.value_rules.specs.Laws.{NotIsNegation, IsNotNull, NotTable, OrTable, PairIsWithin, RowIsWithin};
ghost use Rattle.value_rules.specs.Laws.{SoundIsInRange, SoundValueIsInRange, ValueIsWithin};

/// The value of an expression is NULL or within its width.
#[tactic(auto, using(crate::proofs::Within::value_is_within))]
pub fn value_is_within()
    ensures { ValueIsWithin }
{}

/// The values of a row within its limits are within the bounds of their columns.
#[tactic(auto, using(crate::proofs::Cells::cell_is_within))]
pub fn cell_is_within()
    ensures { CellIsWithin }
{}

/// A row, or a pair of rows, within its limits has values within the bounds of their columns.
pub fn picks_are_within()
    ensures row { RowIsWithin }
    ensures pair { PairIsWithin }
{}

/// All that the items and the conditions of a query that can be run compute from such a row or pair is NULL or within
/// ±2^100.
pub fn sound_is_in_range()
    ensures value { SoundValueIsInRange }
    ensures query { SoundIsInRange }
{}

/// NOT, NOT BETWEEN, NOT IN and IS NOT NULL are the negation of the test.
pub fn not_is_negation()
    ensures not { NotIsNegation }
    ensures between { NotBetween }
    ensures among { NotAmong }
    ensures null { IsNotNull }
{}

/// `v BETWEEN low AND high` is `low <= v AND v <= high`.
#[tactic(auto, using(crate::proofs::Negation::between_is_two_comparisons))]
pub fn between_is_two_comparisons()
    ensures { BetweenIsTwoComparisons }
{}

/// The tables of AND, OR and NOT over true, false and unknown.
pub fn three_values()
    ensures and { AndTable }
    ensures or { OrTable }
    ensures not { NotTable }
{}
