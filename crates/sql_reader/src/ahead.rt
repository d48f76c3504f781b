//! The tokens ahead of a reader, and the keywords and signs that it takes from their start.
ghost use Rattle.std.specs.Prelude.{◌≡◌, ◌≢◌, ◌<◌, ◌≤◌, ◌↔◌, [], length, IsTrue};
ghost use Rattle.sql_rules.specs.Marks.{keyword_number, same_mark, sign_number};
ghost use Rattle.sql_rules.specs.Symbols.{OfSign, OfKeyword, symbols};
ghost use Rattle.sql_rules.specs.Readers.{mark_at, maybe_at};
ghost use Rattle.sql_reader.specs.Answers.{beside, Passes};

mod values;

use sql_token::{Keyword, Sign, Token, TokenKind};
use std::alloc::AllocError;
use std::marker::Model;

/// Why nothing was read.
#[derive(Clone, Copy, PartialEq, Eq)]
pub(crate) enum ReadStop {
    Memory,
    Syntax,
}

impl From<AllocError> for ReadStop {
    ghost use Rattle.sql_reader.specs.declared.ahead.ReadStop.TheVariants.{Memory};

    ghost from_gives = { λ _ e. e ≡ Memory };

    fn from(_: AllocError) -> ReadStop {
        ReadStop::Memory
    }
}

// Whether the keywords are equal.
fn is_same_keyword(a: Keyword, b: Keyword) -> bool
    ensures { result ≡ same_mark (OfKeyword a) (OfKeyword b) }
{
    a == b
}

// Whether the signs are equal.
fn is_same_sign(a: Sign, b: Sign) -> bool
    ensures { result ≡ same_mark (OfSign a) (OfSign b) }
{
    a == b
}

/// Pairs what was read before with what is read now, and drops it if nothing is read. Without this call a tree that
/// goes out of scope at a `?` is dropped part by part there. The function's proof is then several times as long.
pub(crate) fn beside<T: Drop, U>(held: T, answer: Result<U, ReadStop>) -> Result<(T, U), ReadStop>
    ensures { result ≡ beside held answer }
{
    match answer {
        Ok(found) => Ok((held, found)),
        Err(why) => Err(why),
    }
}

/// The remaining tokens of a text.
#[derive(Drop)]
pub(crate) struct Ahead<'a> {
    text: &'a [u8],
    tokens: &'a [Token],
}

impl<'a> Model for Ahead<'a> {
    ghost use Rattle.std.specs.Prelude.{List};
    ghost use Rattle.sql_rules.specs.Symbols.{Symbol, symbols};

    ghost Value = { List Symbol };

    ghost view = { λ a. symbols a.text.now a.tokens.now };
}

impl<'a> Ahead<'a> {
    /// All tokens of a text.
    pub(crate) fn new(text: &'a [u8], tokens: &'a [Token]) -> Ahead<'a>
        ensures { result ≡ symbols text.now tokens.now }
    {
        Ahead { text, tokens }
    }

    /// A copy of this view of the tokens.
    pub(crate) fn again(&self) -> Ahead<'a>
        ensures { result ≡ self.now }
    {
        Ahead {
            text: self.text,
            tokens: self.tokens,
        }
    }

    /// The number of remaining tokens.
    pub(crate) fn len(&self) -> usize
        ensures { result ≡ length self.now }
    {
        self.tokens.len()
    }

    /// Whether no token is left.
    pub(crate) fn is_empty(&self) -> bool
        ensures { IsTrue result ↔ (self.now ≡ []) }
    {
        self.tokens.is_empty()
    }

    /// The rest after a keyword, if the keyword is first.
    pub(crate) fn after_key(&self, keyword: Keyword) -> Option<Ahead<'a>>
        requires { keyword_number keyword < 23 }
        ensures { Passes (OfKeyword keyword) (mark_at (OfKeyword keyword) self.now) result }
    {
        match self.tokens {
            [
                Token {
                    kind: TokenKind::Keyword(found),
                    ..
                },
                tokens @ ..,
            ] => {
                if is_same_keyword(keyword, *found) {
                    Some(Ahead {
                        text: self.text,
                        tokens,
                    })
                } else {
                    None
                }
            }
            _ => None,
        }
    }

    /// The rest after a sign, if the sign is first.
    pub(crate) fn after_sign(&self, sign: Sign) -> Option<Ahead<'a>>
        requires from { 32 ≤ sign_number sign }
        requires plus { sign_number sign ≢ 36 }
        requires minus { sign_number sign ≢ 37 }
        ensures { Passes (OfSign sign) (mark_at (OfSign sign) self.now) result }
    {
        match self.tokens {
            [
                Token {
                    kind: TokenKind::Sign(found),
                    ..
                },
                tokens @ ..,
            ] => {
                if is_same_sign(sign, *found) {
                    Some(Ahead {
                        text: self.text,
                        tokens,
                    })
                } else {
                    None
                }
            }
            _ => None,
        }
    }

    /// Whether a keyword is first, and the rest after it, or everything if it is not.
    pub(crate) fn maybe_key(&self, keyword: Keyword) -> (bool, Ahead<'a>)
        requires { keyword_number keyword < 23 }
        ensures { maybe_at (OfKeyword keyword) self.now ≡ result }
    {
        match self.after_key(keyword) {
            Some(rest) => (true, rest),
            None => (false, self.again()),
        }
    }

    /// Whether a sign is first, and the rest after it, or everything if it is not.
    pub(crate) fn maybe_sign(&self, sign: Sign) -> (bool, Ahead<'a>)
        requires from { 32 ≤ sign_number sign }
        requires plus { sign_number sign ≢ 36 }
        requires minus { sign_number sign ≢ 37 }
        ensures { maybe_at (OfSign sign) self.now ≡ result }
    {
        match self.after_sign(sign) {
            Some(rest) => (true, rest),
            None => (false, self.again()),
        }
    }
}
