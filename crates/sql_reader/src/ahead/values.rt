//! The single tokens that carry a value: a sign of a sum, a comparison operator, the name of an area function, a name,
//! an integer.
ghost use Rattle.std.specs.Prelude.{◌≡◌, ◌∷◌, List, slice_range, MatchOption};
ghost use Rattle.sql_rules.specs.Symbols.{Adds, Compares, Symbol, AreaName};
ghost use Rattle.sql_rules.specs.Symbols.{keyword_symbol, sign_symbol};
ghost use Rattle.sql_rules.specs.Readers.{Got, Stuck, adds_at, area_at, cmp_at, minus_at, name_at, number_at};
ghost use Rattle.sql_token.specs.declared.token.Span.{Span};
ghost use Rattle.sql_reader.specs.Answers.{Gives, rest_of, Shows};

use super::{Ahead, ReadStop};
use sql_token::{Int, Keyword, Sign, Span, Token, TokenKind};
use sql_tree::{AreaKind, Cmp, Name};
use sqlite_items::Items;
use std::alloc::Global;
use std::cmp::min;

// The bytes of a span. A span that ends after the text is cut there, so that nothing depends on its end.
fn bytes_of(text: &[u8], span: Span) -> &[u8]
    ensures { result.now ≡ slice_range text.now span.from span.to }
{
    let to = min(span.to as usize, text.len());
    let from = min(span.from as usize, to);
    &text[from..to]
}

// For a plus or a minus, whether it is a minus.
fn adds_of(sign: Sign) -> Option<bool>
    ensures { MatchOption result ((ts : List Symbol) → adds_at (sign_symbol sign ∷ ts) ≡ Stuck)
        (λ minus. sign_symbol sign ≡ Adds minus) }
{
    match sign {
        Sign::Plus => Some(false),
        Sign::Minus => Some(true),
        _ => None,
    }
}

// The comparison operator that a sign is.
fn cmp_of(sign: Sign) -> Option<Cmp>
    ensures { MatchOption result ((ts : List Symbol) → cmp_at (sign_symbol sign ∷ ts) ≡ Stuck)
        (λ cmp. sign_symbol sign ≡ Compares cmp) }
{
    match sign {
        Sign::Equal => Some(Cmp::Equal),
        Sign::Differs => Some(Cmp::Differs),
        Sign::Less => Some(Cmp::Less),
        Sign::AtMost => Some(Cmp::AtMost),
        Sign::More => Some(Cmp::More),
        Sign::AtLeast => Some(Cmp::AtLeast),
        _ => None,
    }
}

// The area function that a keyword names.
fn area_of(keyword: Keyword) -> Option<AreaKind>
    ensures { MatchOption result
        ((span : Span) → (ts : List Symbol) → area_at (keyword_symbol keyword span ∷ ts) ≡ Stuck)
        (λ kind. (span : Span) → keyword_symbol keyword span ≡ AreaName kind span) }
{
    match keyword {
        Keyword::AreaBand => Some(AreaKind::Band),
        Keyword::AreaCap => Some(AreaKind::Cap),
        Keyword::AreaBox => Some(AreaKind::Boxed),
        _ => None,
    }
}

impl<'a> Ahead<'a> {
    /// For a plus or minus that is first, whether it is a minus.
    pub(crate) fn adds(&self) -> Option<(bool, Ahead<'a>)>
        ensures { Shows (adds_at self.now) result }
    {
        match self.tokens {
            [
                Token {
                    kind: TokenKind::Sign(sign),
                    ..
                },
                tokens @ ..,
            ] => {
                let minus = adds_of(*sign)?;
                Some((
                    minus,
                    Ahead {
                        text: self.text,
                        tokens,
                    },
                ))
            }
            _ => None,
        }
    }

    /// Whether a minus is first, and the rest after it, or everything if it is not.
    pub(crate) fn maybe_minus(&self) -> (bool, Ahead<'a>)
        ensures { minus_at self.now ≡ result }
    {
        match self.adds() {
            Some((true, rest)) => (true, rest),
            _ => (false, self.again()),
        }
    }

    /// The comparison operator that is first.
    pub(crate) fn cmp(&self) -> Option<(Cmp, Ahead<'a>)>
        ensures { Shows (cmp_at self.now) result }
    {
        match self.tokens {
            [
                Token {
                    kind: TokenKind::Sign(sign),
                    ..
                },
                tokens @ ..,
            ] => {
                let cmp = cmp_of(*sign)?;
                Some((
                    cmp,
                    Ahead {
                        text: self.text,
                        tokens,
                    },
                ))
            }
            _ => None,
        }
    }

    /// The area function whose name is first, with the span of the name.
    pub(crate) fn area(&self) -> Option<((AreaKind, Span), Ahead<'a>)>
        ensures { MatchOption result (area_at self.now ≡ Stuck)
            (λ x. area_at self.now ≡ Got (record { kind = x.0.0; span = x.0.1 }) x.1) }
    {
        match self.tokens {
            [
                Token {
                    kind: TokenKind::Keyword(keyword),
                    span,
                },
                tokens @ ..,
            ] => {
                let kind = area_of(*keyword)?;
                Some((
                    (kind, *span),
                    Ahead {
                        text: self.text,
                        tokens,
                    },
                ))
            }
            _ => None,
        }
    }

    /// A copy of the name that is first.
    pub(crate) fn name(&self, alloc: Global) -> Result<(Name, Ahead<'a>), ReadStop>
        ensures { Gives (name_at self.now) result }
    {
        match self.tokens {
            [
                Token {
                    kind: TokenKind::Name,
                    span,
                },
                tokens @ ..,
            ] => {
                let text = Items::from_slice(alloc, bytes_of(self.text, *span))?;
                Ok((
                    Name { text, span: *span },
                    Ahead {
                        text: self.text,
                        tokens,
                    },
                ))
            }
            _ => Err(ReadStop::Syntax),
        }
    }

    /// The rest after the name that is first, without copying the name.
    pub(crate) fn after_name(&self) -> Option<Ahead<'a>>
        ensures { rest_of (name_at self.now) ≡ result }
    {
        match self.tokens {
            [
                Token {
                    kind: TokenKind::Name,
                    ..
                },
                tokens @ ..,
            ] => Some(Ahead {
                text: self.text,
                tokens,
            }),
            _ => None,
        }
    }

    /// The integer that is first.
    pub(crate) fn number(&self) -> Option<(Int, Ahead<'a>)>
        ensures { Shows (number_at self.now) result }
    {
        match self.tokens {
            [
                Token {
                    kind: TokenKind::Int(n),
                    ..
                },
                tokens @ ..,
            ] => Some((
                *n,
                Ahead {
                    text: self.text,
                    tokens,
                },
            )),
            _ => None,
        }
    }
}
