//! Worked examples of answers over a child table, evaluated by the checker.

ghost use Rattle.std.specs.Prelude.{◌≡◌, [], ◌∷◌};
ghost use Rattle.sky_rules.specs.Examples.{halves};
ghost use Rattle.answer_rules.specs.Examples.{six};
ghost use Rattle.answer_rules.specs.Plans.{plan_of};
ghost use Rattle.answer_rules.specs.Queries.{one_point};
ghost use Rattle.child_rules.specs.ChildExamples.{all_gains, first_gains, five_sources, gain_is_null, gains_at_2};
ghost use Rattle.child_rules.specs.ChildExamples.{gains_in, gains_of_4, gains_of_4_by_source, gains_shown};
ghost use Rattle.child_rules.specs.ChildExamples.{largest_gains, two_with_null};
ghost use Rattle.child_rules.specs.Children.{child_answer, child_answer_in};

/// Each object with each of its sources, in the order of objectId, then of sourceId. A source whose objectId no object
/// has is in no row.
pub fn sources_with_their_objects()
    ensures all { child_answer six five_sources all_gains
        ≡ gains_shown ((1, 101, 1) ∷ (1, 103, 2) ∷ (4, 102, 1) ∷ (5, 105, 1) ∷ []) }
    ensures plan { plan_of halves six all_gains ≡ 0 ∷ 4 ∷ 7 ∷ [] }
    ensures none { child_answer six [] all_gains ≡ [] }
    ensures chunk { child_answer_in halves six five_sources all_gains (4 ∷ [])
        ≡ gains_shown ((1, 101, 1) ∷ (1, 103, 2) ∷ []) }
{}

/// Conditions on the object choose chunks, and those on a source do not. The order of the query comes before that of the
/// ids.
pub fn sources_of_some_objects()
    ensures point { child_answer six five_sources (gains_in one_point)
        ≡ gains_shown ((1, 101, 1) ∷ (1, 103, 2) ∷ []) }
    ensures plan { plan_of halves six (gains_in one_point) ≡ 4 ∷ 7 ∷ [] }
    ensures id { child_answer six five_sources gains_of_4 ≡ gains_shown ((4, 102, 1) ∷ []) }
    ensures its { plan_of halves six gains_of_4 ≡ 7 ∷ [] }
    ensures time { child_answer six five_sources gains_at_2
        ≡ gains_shown ((1, 103, 2) ∷ (5, 105, 1) ∷ []) }
    ensures order { child_answer six five_sources largest_gains
        ≡ gains_shown ((1, 103, 2) ∷ (1, 101, 1) ∷ (4, 102, 1) ∷ []) }
{}

/// The objectId of a source is a column of the source: a condition on it restricts the rows, and chooses no chunks.
pub fn sources_of_one_object()
    ensures id { child_answer six five_sources gains_of_4_by_source
        ≡ gains_shown ((4, 102, 1) ∷ []) }
    ensures plan { plan_of halves six gains_of_4_by_source ≡ 0 ∷ 4 ∷ 7 ∷ [] }
{}

/// A value computed of a NULL is NULL, and a condition on a NULL is not met.
pub fn null_in_a_source()
    ensures item { child_answer six two_with_null all_gains
        ≡ gain_is_null 1 201 ∷ gains_shown ((1, 202, 5) ∷ []) }
    ensures test { child_answer six two_with_null gains_at_2 ≡ gain_is_null 1 201 ∷ [] }
{}

/// A limit of 0 leaves no rows, and one of 1 the first. Without objects there are no rows, and no chunks to scan.
pub fn answers_of_few_rows()
    ensures limit { child_answer six five_sources (first_gains 0) ≡ [] }
    ensures one { child_answer six five_sources (first_gains 1) ≡ gains_shown ((1, 101, 1) ∷ []) }
    ensures objects { child_answer [] five_sources all_gains ≡ [] }
    ensures both { child_answer [] [] all_gains ≡ [] }
    ensures plan { plan_of halves [] all_gains ≡ [] }
{}
