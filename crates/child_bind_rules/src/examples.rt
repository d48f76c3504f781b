//! Worked examples of queries over objects and their sources, stated as functions that do nothing: each ensures what
//! the checker computes.

ghost use Rattle.std.specs.Prelude.{◌≡◌, [], ◌∷◌, codes, pos, true, false, None, Some};
ghost use Rattle.sql_bound.specs.declared.area.AreaTest.TheVariants.{Band};
ghost use Rattle.bind_rules.specs.Examples.{Binds, Refused, span};
ghost use Rattle.bind_rules.specs.declared.fault.BindFault.TheVariants.{AreaForm, JoinForm, OrderName, TooWide};
ghost use Rattle.bind_rules.specs.declared.fault.BindFault.TheVariants.{UnknownName};
ghost use Rattle.child_bind_rules.specs.BoundPairs.{by_flux_down, child_query_text, in_area, same_id, times};
ghost use Rattle.child_bind_rules.specs.ChildExamples.{child_ids, child_judged, columns_meant};

/// A query binds if one conjunct equates the objectIds of its two tables, in either order. Brackets round the
/// equation are allowed.
pub fn joined_tables()
    ensures first { child_judged
        (codes "SELECT s.flux-o.flux FROM Object o,Source s WHERE o.objectId=s.objectId") ≡ Binds }
    ensures turned { child_judged
        (codes "SELECT s.t FROM Object o,Source s WHERE (s.objectId=o.objectId)") ≡ Binds }
{}

/// Exactly one conjunct at the top level is the join condition, with each objectId alone, without brackets
/// and minus.
pub fn join_conditions()
    ensures none { child_judged
        (codes "SELECT o.x FROM Object o,Source s WHERE o.x=s.flux") ≡ Refused JoinForm }
    ensures twice { child_judged
        (codes "SELECT o.x FROM Object o,Source s WHERE o.objectId=s.objectId AND s.objectId=o.objectId")
        ≡ Refused JoinForm }
    ensures negated { child_judged
        (codes "SELECT o.x FROM Object o,Source s WHERE NOT o.objectId=s.objectId") ≡ Refused JoinForm }
    ensures alternative { child_judged
        (codes "SELECT o.x FROM Object o,Source s WHERE o.objectId=s.objectId OR o.x=1") ≡ Refused JoinForm }
    ensures itself { child_judged
        (codes "SELECT o.x FROM Object o,Source s WHERE o.objectId=o.objectId") ≡ Refused JoinForm }
    ensures bracket { child_judged
        (codes "SELECT o.x FROM Object o,Source s WHERE (o.objectId)=s.objectId") ≡ Refused JoinForm }
    ensures minus { child_judged
        (codes "SELECT o.x FROM Object o,Source s WHERE -o.objectId=s.objectId") ≡ Refused JoinForm }
    ensures below { child_judged
        (codes "SELECT o.x FROM Object o,Source s WHERE o.objectId<=s.objectId") ≡ Refused JoinForm }
{}

/// The first table is Object and the second Source, and each has an alias of its own.
pub fn tables_of_a_child_query()
    ensures alone { child_judged (codes "SELECT x FROM Object") ≡ Refused JoinForm }
    ensures turned { child_judged
        (codes "SELECT o.x FROM Source s,Object o WHERE o.objectId=s.objectId") ≡ Refused JoinForm }
    ensures objects { child_judged
        (codes "SELECT o.x FROM Object o,Object s WHERE o.objectId=s.objectId") ≡ Refused JoinForm }
    ensures missing { child_judged
        (codes "SELECT o.x FROM Object o,Source WHERE o.objectId=Source.objectId") ≡ Refused JoinForm }
    ensures equal { child_judged
        (codes "SELECT a.x FROM Object a,Source a WHERE a.objectId=a.objectId") ≡ Refused JoinForm }
{}

/// Each column but the order key has a qualifier, and there is no star, no aggregate, no GROUP BY and no chord
/// test.
pub fn items_of_a_child_query()
    ensures bare { child_judged
        (codes "SELECT t FROM Object o,Source s WHERE o.objectId=s.objectId") ≡ Refused JoinForm }
    ensures star { child_judged
        (codes "SELECT * FROM Object o,Source s WHERE o.objectId=s.objectId") ≡ Refused JoinForm }
    ensures aggregate { child_judged
        (codes "SELECT COUNT(*) FROM Object o,Source s WHERE o.objectId=s.objectId") ≡ Refused JoinForm }
    ensures grouped { child_judged
        (codes "SELECT o.x FROM Object o,Source s WHERE o.objectId=s.objectId GROUP BY o.x") ≡ Refused JoinForm }
    ensures chord { child_judged
        (codes "SELECT o.x FROM Object o,Source s WHERE o.objectId=s.objectId AND chord2(o,s)<4") ≡ Refused JoinForm }
{}

/// A column is looked up in the tables that have its qualifier. A table of another name has no columns.
pub fn unknown_columns()
    ensures object { child_judged
        (codes "SELECT o.t FROM Object o,Source s WHERE o.objectId=s.objectId") ≡ Refused (UnknownName (span 7 10)) }
    ensures source { child_judged
        (codes "SELECT s.x FROM Object o,Source s WHERE o.objectId=s.objectId") ≡ Refused (UnknownName (span 7 10)) }
    ensures other { child_judged (codes "SELECT x FROM Star") ≡ Refused (UnknownName (span 7 8)) }
    ensures table { child_judged
        (codes "SELECT o.x FROM Object o,Star s WHERE o.x=1") ≡ Refused (UnknownName (span 25 29)) }
{}

/// The two ids of a source are as large as an object's id, and an order key is an alias or has a qualifier.
pub fn widths_and_keys()
    ensures wide { child_judged
        (codes "SELECT s.objectId*s.flux FROM Object o,Source s WHERE o.objectId=s.objectId") ≡ Refused TooWide }
    ensures own { child_judged
        (codes "SELECT s.sourceId*s.flux FROM Object o,Source s WHERE o.objectId=s.objectId") ≡ Refused TooWide }
    ensures thin { child_judged
        (codes "SELECT s.t*s.flux FROM Object o,Source s WHERE o.objectId=s.objectId") ≡ Binds }
    ensures key { child_judged
        (codes "SELECT s.t FROM Object o,Source s WHERE o.objectId=s.objectId ORDER BY t")
        ≡ Refused (OrderName (span 71 72)) }
    ensures alias { child_judged
        (codes "SELECT s.t AS d FROM Object o,Source s WHERE o.objectId=s.objectId ORDER BY d") ≡ Binds }
{}

/// The checks are, in this order: unknown names, the form of the join, area tests, widths and the order key. Each
/// text has the fault that is reported and a later one.
pub fn checks_in_their_order()
    ensures name { child_judged
        (codes "SELECT o.t FROM Object o") ≡ Refused (UnknownName (span 7 10)) }
    ensures join { child_judged
        (codes "SELECT o.x FROM Object o,Source s WHERE area_band(1)") ≡ Refused JoinForm }
    ensures area { child_judged
        (codes "SELECT s.objectId*s.t FROM Object o,Source s WHERE o.objectId=s.objectId AND area_band(1)")
        ≡ Refused (AreaForm (span 77 86)) }
    ensures width { child_judged
        (codes "SELECT s.objectId*s.t FROM Object o,Source s WHERE o.objectId=s.objectId ORDER BY t")
        ≡ Refused TooWide }
{}

/// A column of a source is one of the second row of the pair, but for its objectId, which is the object's.
pub fn columns_of_a_pair()
    ensures { columns_meant
        (codes "SELECT o.flux,s.flux,s.t,s.sourceId,s.objectId FROM Object o,Source s")
        ≡ Some (record { second = false; col = 4 }) ∷ Some (record { second = true; col = 4 })
        ∷ Some (record { second = true; col = 5 }) ∷ Some (record { second = true; col = 0 })
        ∷ Some (record { second = false; col = 0 }) ∷ [] }
{}

/// An id test names the objectId of the object, not that of the source.
pub fn ids_of_objects()
    ensures object { child_ids
        (codes "SELECT s.t FROM Object o,Source s WHERE o.objectId=s.objectId AND o.objectId=4")
        ≡ (pos 4 ∷ []) ∷ [] }
    ensures source { child_ids
        (codes "SELECT s.t FROM Object o,Source s WHERE o.objectId=s.objectId AND s.objectId=4")
        ≡ [] }
{}

/// What a query without a fault is bound to, part by part: the join condition is a condition; an area test is one, and a
/// test by which chunks are chosen; the order key has its direction. Two of the texts lack the join condition.
pub fn bound_to_pairs()
    ensures join { child_query_text
        (codes "SELECT s.t FROM Object o,Source s WHERE o.objectId=s.objectId")
        ≡ Some (times (same_id ∷ []) [] None None) }
    ensures order { child_query_text
        (codes "SELECT s.t FROM Object o,Source s ORDER BY s.flux DESC LIMIT 3")
        ≡ Some (times [] [] (Some by_flux_down) (Some (pos 3))) }
    ensures area { child_query_text
        (codes "SELECT s.t FROM Object o,Source s WHERE area_band(1,2)")
        ≡ Some (times (in_area (Band (pos 1) (pos 2)) ∷ []) (Band (pos 1) (pos 2) ∷ []) None None) }
{}
