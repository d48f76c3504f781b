//! Lemmas about binding, stated as functions that do nothing: a caller obtains what they ensure.

ghost use Rattle.bind_rules.specs.BoundWhere.{ConjunctsAreBound, WhereHoldsAsBound};
ghost use Rattle.bind_rules.specs.Laws.{AreasAreConjuncts, BoundIsSound, BoundIsTested, ValuesAreInRange};
ghost use Rattle.bind_rules.specs.Laws.{AndIsTakenApart, BracketsAreLookedThrough, NotStaysWhole, OrStaysWhole};
ghost use Rattle.bind_rules.specs.Laws.{BoundConjunctsSayTheSame, IdsAreConjuncts, WhatIsReadHasCounts};
ghost use Rattle.bind_rules.specs.Laws.{OnePartIsTakenApart, WhereIsItsConjuncts};

/// A query that binds can be run over the schema, if its limit and its chord test have numbers that the grammar allows.
/// The tree of a text has such numbers.
pub fn bound_is_sound()
    ensures sound { BoundIsSound }
    ensures read { WhatIsReadHasCounts }
{}

/// The area tests and the id tests of a bound query are among its conditions.
pub fn bound_is_tested()
    ensures { BoundIsTested }
{}

/// The area tests of a bound query are exactly those into which its conditions are split.
pub fn areas_are_conjuncts()
    ensures { AreasAreConjuncts }
{}

/// The id tests of a bound query are exactly those among its conditions.
pub fn ids_are_conjuncts()
    ensures { IdsAreConjuncts }
{}

/// Every number that a bound query computes from the rows and pairs of an accepted catalogue is NULL or within ±2^100.
pub fn values_are_in_range()
    ensures { ValuesAreInRange }
{}

/// A condition is split into its conjuncts part by part.
pub fn conditions_are_taken_apart()
    ensures brackets { BracketsAreLookedThrough }
    ensures not { NotStaysWhole }
    ensures and { AndIsTakenApart }
    ensures one { OnePartIsTakenApart }
    ensures or { OrStaysWhole }
{}

/// WHERE is true exactly if each of its conjuncts is, the chord test among them. A conjunct and the condition that it
/// is bound to have the same truth.
pub fn conjuncts_hold_where_the_condition_does()
    ensures all { WhereIsItsConjuncts }
    ensures bound { BoundConjunctsSayTheSame }
{}

/// If a query binds, its written WHERE is true of a row or a pair exactly if all conditions of the bound query hold
/// and, in a join, the chord is within its limit. Each conjunct but the chord test has one condition.
pub fn where_holds_as_bound()
    ensures whole { WhereHoldsAsBound }
    ensures conditions { ConjunctsAreBound }
{}
