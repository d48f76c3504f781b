//! Worked examples of the first fault of a text that has more than one, stated as functions that do nothing.

ghost use Rattle.std.specs.Prelude.{◌≡◌, codes};
ghost use Rattle.bind_rules.specs.Examples.{Refused, judged, span};
ghost use Rattle.bind_rules.specs.declared.fault.BindFault.TheVariants.{AreaForm, JoinForm, NotGrouped, OrderName};
ghost use Rattle.bind_rules.specs.declared.fault.BindFault.TheVariants.{TooWide, UnknownName};

/// The checks are, in this order: unknown names, grouping, the rules of a join, area tests, widths and the order key.
/// Each text has the fault that is reported and a later one.
pub fn checks_in_their_order()
    ensures name { judged (codes "SELECT mag,COUNT(*) FROM Object")
        ≡ Refused (UnknownName (span 7 10)) }
    ensures grouping { judged (codes "SELECT x,COUNT(*) FROM Object WHERE area_band(1)")
        ≡ Refused (NotGrouped (span 7 8)) }
    ensures join { judged (codes "SELECT a.x FROM Object a,Object b WHERE area_band(1)")
        ≡ Refused JoinForm }
    ensures area { judged (codes "SELECT objectId*flux FROM Object WHERE area_band(1) ORDER BY mag")
        ≡ Refused (AreaForm (span 39 48)) }
    ensures width { judged (codes "SELECT objectId*flux FROM Object ORDER BY mag")
        ≡ Refused TooWide }
{}

/// A name in a chord test is checked before the rules of the join, and a table's name before WHERE.
pub fn names_in_their_order()
    ensures side { judged (codes "SELECT a.x FROM Object a,Object b WHERE chord2(a,c)<4")
        ≡ Refused (UnknownName (span 49 50)) }
    ensures table { judged (codes "SELECT x FROM Star WHERE mag=1")
        ≡ Refused (UnknownName (span 14 18)) }
{}

/// Of two columns that are not keys the first is reported, and of two bad area tests the first.
pub fn first_of_its_kind()
    ensures column { judged (codes "SELECT flux,x,COUNT(*) FROM Object GROUP BY x")
        ≡ Refused (NotGrouped (span 7 11)) }
    ensures area { judged (codes "SELECT x FROM Object WHERE area_band(1) AND area_cap(1)")
        ≡ Refused (AreaForm (span 27 36)) }
{}

/// A join has two aliases, and they differ.
pub fn aliases_of_a_join()
    ensures equal { judged (codes "SELECT a.x FROM Object a,Object a WHERE chord2(a,a)<4")
        ≡ Refused JoinForm }
    ensures missing { judged (codes "SELECT a.x FROM Object a,Object WHERE chord2(a,Object)<4")
        ≡ Refused JoinForm }
{}

/// The order key of a join is qualified, and a key with a qualifier is not an alias.
pub fn keys_with_a_qualifier()
    ensures bare { judged (codes "SELECT a.x FROM Object a,Object b WHERE chord2(a,b)<4 ORDER BY x")
        ≡ Refused (OrderName (span 63 64)) }
    ensures alias { judged (codes "SELECT x AS d FROM Object ORDER BY Object.d")
        ≡ Refused (OrderName (span 35 43)) }
{}
