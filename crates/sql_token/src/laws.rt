//! Lemmas about the definition of tokens, stated as functions that do nothing: a caller obtains what they ensure.
ghost use Rattle.std.specs.Prelude.{◌≡◌, ◌↔◌, ℕ, List, Ok, Err};
ghost use Rattle.sql_token.specs.declared.token.Token.{Token};
ghost use Rattle.sql_token.specs.Deep.{AreWithin, IsTooDeep};
ghost use Rattle.sql_token.specs.Faults.{BadByte, Depth, Literal, TooMany};
ghost use Rattle.sql_token.specs.Faulty.{IsBadByte, IsLargeInt, IsTooMany};
ghost use Rattle.sql_token.specs.Laws.{StandFrom};
ghost use Rattle.sql_token.specs.Tokens.{tokens_from, tokens_of, within_limits};

/// A text is its tokens one after another, each written by the bytes of its span, and blanks.
#[tactic(auto, using(crate::proofs::Stand::tokens_stand))]
pub fn tokens_stand_in_their_text()
    ensures { (text : List ℕ) (ts : List Token) → tokens_of text ≡ Ok ts → StandFrom text 0 ts }
{}

/// A text has only one list of tokens in this sense: any list that satisfies it is the one that is read.
#[tactic(auto, using(crate::proofs::Only::only_tokens, crate::proofs::Only::only_within))]
pub fn tokens_that_stand_are_read()
    ensures all { (text : List ℕ) (ts : List Token) → StandFrom text 0 ts
        → tokens_from 0 0 text ≡ Ok ts }
    ensures within { (text : List ℕ) (ts : List Token) → StandFrom text 0 ts
        → within_limits ts ≡ Ok ts → tokens_of text ≡ Ok ts }
{}

/// A fault is characterised by its position. Tokens extend up to a bad byte, at which none begins, or up to an integer
/// above 2^63 - 1; or the whole text is tokens, more than 2,048 of them. Any text of that description has the fault.
#[tactic(auto, using(crate::proofs::Faulty::too_many))]
pub fn faults_stand_in_their_text()
    ensures bad_byte { (text : List ℕ) (place : ℕ)
        → (tokens_of text ≡ Err (BadByte place)) ↔ IsBadByte text place }
    ensures literal { (text : List ℕ) (place : ℕ)
        → (tokens_of text ≡ Err (Literal place)) ↔ IsLargeInt text place }
    ensures too_many { (text : List ℕ) → (tokens_of text ≡ Err TooMany) ↔ IsTooMany text }
{}

/// The fault of depth is at an opening bracket with which 33 are open, and with no earlier one. That is counted over
/// consecutive tokens: those that end before the bracket have 32 more opening brackets than closing ones.
pub fn deep_brackets_stand_in_their_text()
    ensures { (text : List ℕ) (place : ℕ)
        → (tokens_of text ≡ Err (Depth place)) ↔ IsTooDeep text place }
{}

/// A text has a list of tokens if and only if it is these tokens, at most 2,048, and no consecutive ones among them have
/// over 32 more opening brackets than closing ones.
pub fn tokens_are_read_within_the_limits()
    ensures { (text : List ℕ) (ts : List Token) → (tokens_of text ≡ Ok ts) ↔ AreWithin text ts }
{}
