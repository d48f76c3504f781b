//! Worked examples of lines, split pieces, names and numbers, evaluated by the checker.

ghost use Rattle.std.specs.Prelude.{◌≡◌, [], ◌∷◌, ◌++◌, None, Some, codes, false, map, true, pos, negsuc};
ghost use Rattle.text_rules.specs.Lines.{is_note, lines_of, pieces};
ghost use Rattle.text_rules.specs.Numbers.{four_decimals, int_of};
ghost use Rattle.text_rules.specs.Words.{begins_word, continues_word};

/// A carriage return before a line feed is dropped, and an empty line counts as a line. A last line without a line feed
/// keeps its carriage return.
pub fn lines_of_three_ends()
    ensures { lines_of ((codes "a" ++ (13 ∷ 10 ∷ 10 ∷ [])) ++ (codes "b" ++ (13 ∷ [])))
        ≡ record { number = 1; text = codes "a" } ∷ record { number = 2; text = [] }
        ∷ record { number = 3; text = codes "b" ++ (13 ∷ []) } ∷ [] }
{}

/// Of two carriage returns before a line feed one is kept. An empty rest is no line.
pub fn lines_of_two_returns()
    ensures returns { lines_of (13 ∷ 13 ∷ 10 ∷ []) ≡ record { number = 1; text = 13 ∷ [] } ∷ [] }
    ensures empty { lines_of [] ≡ [] }
{}

/// A line of blanks and a line that begins with # are comment lines. A line with a blank before # is not.
pub fn notes()
    ensures blank { is_note (32 ∷ 9 ∷ []) ≡ true }
    ensures empty { is_note [] ≡ true }
    ensures hash { is_note (codes "# sky") ≡ true }
    ensures later { is_note (codes " # sky") ≡ false }
{}

/// Two adjacent separators enclose an empty piece, and a separator at an end of the text has an empty piece outside it.
/// An empty text is one empty piece.
pub fn pieces_of_texts()
    ensures words { pieces 32 (codes " a  b") ≡ [] ∷ codes "a" ∷ [] ∷ codes "b" ∷ [] }
    ensures end { pieces 10 (codes "a\n") ≡ codes "a" ∷ [] ∷ [] }
    ensures nothing { pieces 32 [] ≡ [] ∷ [] }
{}

/// The bytes next to a letter, an underscore and a digit in ASCII are not part of a word, and no word begins with a
/// digit.
pub fn bytes_of_words()
    ensures small { map begins_word (codes "`az{") ≡ false ∷ true ∷ true ∷ false ∷ [] }
    ensures large { map begins_word (codes "@AZ[") ≡ false ∷ true ∷ true ∷ false ∷ [] }
    ensures others { map begins_word (codes "_059") ≡ true ∷ false ∷ false ∷ false ∷ [] }
    ensures behind { map continues_word (codes "_09z") ≡ true ∷ true ∷ true ∷ true ∷ [] }
    ensures none { map continues_word (codes "/:.-") ≡ false ∷ false ∷ false ∷ false ∷ [] }
{}

/// A number of 19 digits is accepted, also with a minus. Leading zeros count as digits. A number of 20 digits and a
/// plus are not accepted.
pub fn numbers_of_texts()
    ensures longest { int_of (codes "9999999999999999999") ≡ Some (pos 9999999999999999999) }
    ensures minus { int_of (codes "-0000000000000000012") ≡ Some (negsuc 11) }
    ensures long { int_of (codes "00000000000000000012") ≡ None }
    ensures plus { int_of (codes "+1") ≡ None }
    ensures sign { int_of (codes "-") ≡ None }
{}

/// The mean of -1, 0 and 0 is -0.3333, and the four decimals keep their zeros.
pub fn decimals()
    ensures third { four_decimals (negsuc 3332) ≡ codes "-0.3333" }
    ensures nothing { four_decimals (pos 0) ≡ codes "0.0000" }
    ensures zeros { four_decimals (pos 350007) ≡ codes "35.0007" }
    ensures least { four_decimals (negsuc 0) ≡ codes "-0.0001" }
{}
