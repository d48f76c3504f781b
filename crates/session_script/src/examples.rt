//! Worked examples of the definitions, stated as functions that do nothing: each ensures what the checker computes.
ghost use Rattle.std.specs.Prelude.{◌≡◌, ◌++◌, [], ◌∷◌, codes, Ok, Err};
ghost use Rattle.session_script.specs.Examples.{five_lines, five_steps, span};
ghost use Rattle.session_script.specs.Scripts.{script_of};
ghost use Rattle.session_script.specs.declared.fault.ScriptFault.TheVariants.{UnknownQuery};
ghost use Rattle.session_script.specs.declared.step.Step.TheVariants.{Cancel, Query, Wait};

/// Three queries, a cancel and a wait.
pub fn steps_of_five_lines()
    ensures { script_of five_lines ≡ Ok five_steps }
{}

/// After three queries there is no query 9, and lines are counted from 1.
pub fn unknown_query_on_the_sixth_line()
    ensures { script_of (five_lines ++ codes "cancel 9\n") ≡ Err (UnknownQuery 6 9) }
{}

/// Comment lines are not steps, but they count as lines. A carriage return before a line feed is not part of a query.
pub fn notes_are_counted_as_lines()
    ensures steps { script_of (codes "# a note\n \nq\r\nwait 1")
        ≡ Ok (Query 1 (span 11 12) ∷ Wait 1 ∷ []) }
    ensures fault { script_of (codes "# a note\n \nwait 1") ≡ Err (UnknownQuery 3 1) }
{}

/// A line that is not quite a cancel or a wait is a query.
pub fn other_lines_are_queries()
    ensures last { script_of (codes "q\nwait 1\r")
        ≡ Ok (Query 1 (span 0 1) ∷ Query 2 (span 2 9) ∷ []) }
    ensures words { script_of (codes "cancel two") ≡ Ok (Query 1 (span 0 10) ∷ []) }
    ensures spaces { script_of (codes "cancel  1") ≡ Ok (Query 1 (span 0 9) ∷ []) }
    ensures ten { script_of (codes "cancel 0000000001") ≡ Ok (Query 1 (span 0 17) ∷ []) }
    ensures nine { script_of (codes "q\ncancel 000000001")
        ≡ Ok (Query 1 (span 0 1) ∷ Cancel 1 ∷ []) }
{}

/// A wait may name only a query on an earlier line.
pub fn a_later_query_is_unknown()
    ensures { script_of (codes "wait 1\nq") ≡ Err (UnknownQuery 1 1) }
{}
