//! Worked examples of the definitions, stated as functions that do nothing: each ensures what the checker computes.
//! These examples refuse a mutant that no lemma of this crate refuses.

ghost use Rattle.std.specs.Prelude.{◌≡◌, codes, Ok, Some};
ghost use Rattle.sql_rules.specs.Examples.{all_columns};
ghost use Rattle.sql_rules.specs.PrintExamples.{closely_written, loosely_written};
ghost use Rattle.sql_rules.specs.PrintExamples.{print_of, signs_printed, signs_written};
ghost use Rattle.sql_rules.specs.Trees.{tree_of};

/// A star has the span at which it is written.
pub fn tree_of_a_star()
    ensures { tree_of (codes "SELECT * FROM Object") ≡ Ok all_columns }
{}

/// Whatever the case, the blanks and the optional words, a query has one printed text.
pub fn a_query_is_printed_in_one_form()
    ensures { print_of loosely_written ≡ Some closely_written }
{}

/// No blanks are printed around commas, brackets and operators, and a minus is printed as it is written.
pub fn nothing_stands_around_signs()
    ensures { print_of signs_written ≡ Some signs_printed }
{}
