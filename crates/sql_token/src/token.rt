//! A token: its kind and its span.

use crate::int::Int;
use crate::keyword::Keyword;
use crate::sign::Sign;

/// A part of a text: the bytes from `from` up to, not including, `to`. Both are offsets from 0.
#[derive(Clone, Copy, Debug, PartialEq, Eq)]
pub struct Span {
    pub from: u32,
    pub to: u32,
}

/// The kind of a token.
#[derive(Clone, Copy, Debug, PartialEq, Eq)]
pub enum TokenKind {
    /// A reserved word, in capitals or small letters.
    Keyword(Keyword),
    /// Any other word. Its text is that of the token's span.
    Name,
    /// A whole number from 0 to 2^63 - 1.
    Int(Int),
    /// A sign.
    Sign(Sign),
}

/// A token of a text.
#[derive(Clone, Copy, Debug, PartialEq, Eq)]
pub struct Token {
    pub kind: TokenKind,
    pub span: Span,
}

/// Why a text has no list of tokens. A place is an offset in bytes from 0.
#[derive(Clone, Copy, Debug, PartialEq, Eq)]
pub enum TokenStop {
    /// A byte that begins no token and is no blank.
    BadByte { place: u32 },
    /// The first digit of an integer above 2^63 - 1.
    Literal { place: u32 },
    /// More than 2,048 tokens.
    TooMany,
    /// The first bracket with which 33 are open.
    Depth { place: u32 },
    /// Out of memory.
    Memory,
}
