//! Worked examples of the definitions, stated as functions that do nothing. Each ensures what the checker computes, or
//! that a text does not consist of the given tokens.

ghost use Rattle.std.specs.Prelude.{◌≡◌, codes, Ok, Err, IsOk};
ghost use Rattle.sql_token.specs.Examples.{condition_tokens, no_items, brackets};
ghost use Rattle.sql_token.specs.Examples.{cut_word, cut_sign, cut_int, large_int};
ghost use Rattle.sql_token.specs.Faults.{BadByte, Literal, Depth};
ghost use Rattle.sql_token.specs.Laws.{StandFrom};
ghost use Rattle.sql_token.specs.Tokens.{tokens_of};

/// Small letters spell a keyword too, and the longest sign is taken if two begin at a byte.
pub fn tokens_of_a_condition()
    ensures { tokens_of (codes "select x<=-12") ≡ Ok condition_tokens }
{}

/// The tokens of a text that is no query.
pub fn tokens_without_items()
    ensures { tokens_of (codes "SELECT FROM Object") ≡ Ok no_items }
{}

/// A byte that begins no token, directly after a word.
pub fn bad_byte_at_three()
    ensures { tokens_of (codes "a_1#b") ≡ Err (BadByte 3) }
{}

/// An integer one above the largest.
pub fn too_large_at_thirty_one()
    ensures { tokens_of (codes "SELECT x FROM Object WHERE x = 9223372036854775808")
        ≡ Err (Literal 31) }
{}

/// If a large integer precedes a bad byte, it is the first fault.
pub fn too_large_before_a_bad_byte()
    ensures { tokens_of (codes "9223372036854775808 #") ≡ Err (Literal 0) }
{}

/// If a bad byte precedes a large integer, it is the first fault. Here it is a lone exclamation mark.
pub fn bad_byte_before_a_large_int()
    ensures { tokens_of (codes "! 9223372036854775808") ≡ Err (BadByte 0) }
{}

/// 33 open brackets.
pub fn too_deep_at_thirty_nine()
    ensures { tokens_of (brackets 33) ≡ Err (Depth 39) }
{}

/// Parts of a word, a sign or an integer are not tokens of the text.
pub fn no_token_is_cut()
    ensures word { StandFrom (codes "ab") 0 cut_word → ⊥ }
    ensures sign { StandFrom (codes "<=") 0 cut_sign → ⊥ }
    ensures int { StandFrom (codes "12") 0 cut_int → ⊥ }
{}

/// An integer one above the largest is not a token.
pub fn a_large_int_is_no_token()
    ensures { StandFrom (codes "9223372036854775808") 0 large_int → ⊥ }
{}
