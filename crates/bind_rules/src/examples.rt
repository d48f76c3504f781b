//! Worked examples of the checks, stated as functions that do nothing: each ensures what the checker computes.

ghost use Rattle.std.specs.Prelude.{◌≡◌, codes, Some};
ghost use Rattle.bind_rules.specs.BoundExamples.{all_in_a_cap, bound_text, cap_text, groups_of_two};
ghost use Rattle.bind_rules.specs.BoundExamples.{groups_text, one_id, one_id_text, strict_pairs, strict_pairs_text};
ghost use Rattle.bind_rules.specs.Examples.{Binds, Refused, judged, span};
ghost use Rattle.bind_rules.specs.TopExamples.{aliases_text, chord_or_other, chord_twice, first_alias, not_four};
ghost use Rattle.bind_rules.specs.TopExamples.{bracketed_id_text, four_by_filter, four_turned, turned_id_text};
ghost use Rattle.bind_rules.specs.TopExamples.{not_four_text, star_of_both, star_text};
ghost use Rattle.bind_rules.specs.declared.fault.BindFault.TheVariants.{AreaForm, JoinForm, NotGrouped, OrderName};
ghost use Rattle.bind_rules.specs.declared.fault.BindFault.TheVariants.{TooWide, UnknownName};

/// Of two unknown names the first in the text is reported, whether it is a column or a table. An unknown qualifier
/// before a known column and an unknown GROUP BY column count as well.
pub fn unknown_names()
    ensures column { judged (codes "SELECT mag FROM Foo") ≡ Refused (UnknownName (span 7 10)) }
    ensures table { judged (codes "SELECT x FROM Foo") ≡ Refused (UnknownName (span 14 17)) }
    ensures qualifier { judged (codes "SELECT Object . x FROM Object o")
        ≡ Refused (UnknownName (span 7 17)) }
    ensures key { judged (codes "SELECT x FROM Object GROUP BY x,mag")
        ≡ Refused (UnknownName (span 32 35)) }
{}

/// A column that is not a key, and a star, in a query with an aggregate or a GROUP BY.
pub fn not_grouped()
    ensures column { judged (codes "SELECT flux,COUNT(*) FROM Object")
        ≡ Refused (NotGrouped (span 7 11)) }
    ensures star { judged (codes "SELECT * FROM Object GROUP BY x")
        ≡ Refused (NotGrouped (span 7 8)) }
    ensures qualified { judged (codes "SELECT Object.g,MAX(flux) FROM Object GROUP BY g") ≡ Binds }
{}

/// A join has two aliases and one top-level chord test of both. Brackets round the test are allowed.
pub fn join_forms()
    ensures brackets { judged (codes "SELECT a.x FROM Object a,Object b WHERE (chord2(b,a)<4)")
        ≡ Binds }
    ensures negated { judged (codes "SELECT a.x FROM Object a,Object b WHERE NOT chord2(a,b)<4")
        ≡ Refused JoinForm }
    ensures itself { judged (codes "SELECT a.x FROM Object a,Object b WHERE chord2(a,a)<4")
        ≡ Refused JoinForm }
    ensures one_table { judged (codes "SELECT x FROM Object WHERE chord2(Object,Object)<4")
        ≡ Refused JoinForm }
    ensures grouped { judged (codes "SELECT COUNT(*) FROM Object a,Object b WHERE chord2(a,b)<4")
        ≡ Refused JoinForm }
    ensures unqualified { judged (codes "SELECT x FROM Object a,Object b WHERE chord2(a,b)<4")
        ≡ Refused JoinForm }
{}

/// A second chord test is one too many, and a chord test under OR is not at the top level.
pub fn chords_of_a_join()
    ensures twice { judged chord_twice ≡ Refused JoinForm }
    ensures under_or { judged chord_or_other ≡ Refused JoinForm }
{}

/// A cap's centre is within 2^29 and its n within 2^62, both included. Its n is not below 0.
pub fn limits_of_a_cap()
    ensures centre { judged (codes "SELECT x FROM Object WHERE area_cap(536870912,-536870912,0,0)")
        ≡ Binds }
    ensures past_centre { judged (codes "SELECT x FROM Object WHERE area_cap(536870913,0,0,0)")
        ≡ Refused (AreaForm (span 27 35)) }
    ensures below_centre { judged (codes "SELECT x FROM Object WHERE area_cap(0,0,-536870913,0)")
        ≡ Refused (AreaForm (span 27 35)) }
    ensures most { judged (codes "SELECT x FROM Object WHERE area_cap(0,0,0,4611686018427387904)")
        ≡ Binds }
    ensures past { judged (codes "SELECT x FROM Object WHERE area_cap(0,0,0,4611686018427387905)")
        ≡ Refused (AreaForm (span 27 35)) }
    ensures below_0 { judged (codes "SELECT x FROM Object WHERE area_cap(0,0,0,-1)")
        ≡ Refused (AreaForm (span 27 35)) }
{}

/// An area test is at the top level and has the number of arguments of its function. A box turns to the left.
pub fn area_forms()
    ensures negated { judged (codes "SELECT x FROM Object WHERE NOT area_band(1,2)")
        ≡ Refused (AreaForm (span 31 40)) }
    ensures arguments { judged (codes "SELECT x FROM Object WHERE area_band(1)")
        ≡ Refused (AreaForm (span 27 36)) }
    ensures right_turn { judged (codes "SELECT x FROM Object WHERE area_box(0,1,0,1,1,0)")
        ≡ Refused (AreaForm (span 27 35)) }
    ensures left_turn { judged (codes "SELECT x FROM Object WHERE area_box(0,1,1,0,0,1)") ≡ Binds }
{}

/// Each prefix of a product counts.
pub fn too_wide()
    ensures product { judged (codes "SELECT objectId*flux FROM Object") ≡ Refused TooWide }
    ensures front { judged (codes "SELECT flux*flux*flux*0 FROM Object") ≡ Refused TooWide }
    ensures zero_first { judged (codes "SELECT 0*flux*flux*flux FROM Object") ≡ Binds }
{}

/// The order key is an alias or a column. In a grouped query such a column is one of the keys.
pub fn order_keys()
    ensures unknown { judged (codes "SELECT x FROM Object ORDER BY mag")
        ≡ Refused (OrderName (span 30 33)) }
    ensures alias { judged (codes "SELECT x AS mag FROM Object ORDER BY mag") ≡ Binds }
    ensures no_key { judged (codes "SELECT g,COUNT(*) FROM Object GROUP BY g ORDER BY x")
        ≡ Refused (OrderName (span 50 51)) }
{}

/// An equation with the id is a filter and an id test. An order key is an alias if there is one, and else a column.
pub fn bound_to_rows()
    ensures { bound_text one_id_text ≡ Some one_id }
{}

/// An equation with the id in brackets, or on its right, is a filter, and no id test.
pub fn bound_without_id_tests()
    ensures bracketed { bound_text bracketed_id_text ≡ Some four_by_filter }
    ensures turned { bound_text turned_id_text ≡ Some four_turned }
{}

/// A strict chord test becomes a limit one smaller. A test of the second table's id is not an id test.
pub fn bound_to_pairs()
    ensures { bound_text strict_pairs_text ≡ Some strict_pairs }
{}

/// A grouped query with an id list and a band.
pub fn bound_to_groups()
    ensures { bound_text groups_text ≡ Some groups_of_two }
{}

/// A star is all columns, and a cap has its centre.
pub fn bound_to_all_columns()
    ensures { bound_text cap_text ≡ Some all_in_a_cap }
{}

/// NOT before an equation with the id leaves a filter, and no id test.
pub fn bound_to_all_but_one()
    ensures { bound_text not_four_text ≡ Some not_four }
{}

/// An order key is an alias rather than a column, and the first of equal aliases.
pub fn bound_to_the_first_alias()
    ensures { bound_text aliases_text ≡ Some first_alias }
{}

/// A star of a join is all columns of the first table, then all of the second.
pub fn bound_to_both_tables()
    ensures { bound_text star_text ≡ Some star_of_both }
{}
