//! The token at the start of a text.
ghost use Rattle.std.specs.Prelude.{◌≡◌, ◌+◌, ◌≤◌, ◌<◌, Ok, length, true, pos};
ghost use Rattle.std.specs.List.{list_all};
ghost use Rattle.text_rules.specs.Numbers.{is_digit, value_after};
ghost use Rattle.text_rules.specs.declared.limits.TheConstants.{QUERY_TEXT_MOST};
ghost use Rattle.sql_token.specs.Answers.{Gives};
ghost use Rattle.sql_token.specs.Bytes.{is_blank};
ghost use Rattle.sql_token.specs.Tokens.{token, word_at, int_at, small_int, sign_at, short_at, token_at};
ghost use Rattle.sql_token.specs.Signs.{short_sign};

use crate::byte::{begins_word, digits_len, is_digit, word_len};
use crate::int::Int;
use crate::keyword::keyword_of;
use crate::sign::{long_sign, short_sign};
use crate::token::{Span, Token, TokenKind, TokenStop};

// The token of this kind that begins at the position and has the given number of bytes.
fn token(kind: TokenKind, place: u32, bytes: usize) -> Token
    requires { place + bytes ≤ QUERY_TEXT_MOST }
    ensures { result ≡ token kind place bytes }
{
    Token {
        kind,
        span: Span {
            from: place,
            to: place + bytes as u32,
        },
    }
}

// The keyword or the name at the start of the text, which begins at the position.
fn word_at(place: u32, text: &[u8]) -> Token
    requires { place + length text.now ≤ QUERY_TEXT_MOST }
    ensures { result ≡ word_at place text.now }
{
    let bytes = word_len(text);
    let kind = match keyword_of(&text[..bytes]) {
        Some(keyword) => TokenKind::Keyword(keyword),
        None => TokenKind::Name,
    };
    token(kind, place, bytes)
}

// The number that digits write, if it is at most 2^63 - 1.
fn small_int(digits: &[u8]) -> Option<Int>
    requires { list_all is_digit digits.now ≡ true }
    ensures { result ≡ small_int (value_after 0 digits.now) }
{
    let mut n: u64 = 0;
    for b in digits {
        n = n.checked_mul(10)?.checked_add(u64::from(*b - b'0'))?;
    }
    Int::new(n)
}

// The integer at the start of the text, or the fault of one above 2^63 - 1.
#[tactic(auto, using(crate::proofs::Ints::all_digits))]
fn int_at(place: u32, text: &[u8]) -> Result<Token, TokenStop>
    requires { place + length text.now ≤ QUERY_TEXT_MOST }
    ensures { Gives (int_at place text.now) result }
{
    let bytes = digits_len(text);
    match small_int(&text[..bytes]) {
        Some(n) => Ok(token(TokenKind::Int(n), place, bytes)),
        None => Err(TokenStop::Literal { place }),
    }
}

// The sign of one byte, or the fault of a byte with which no token begins.
fn short_at(place: u32, byte: u8) -> Result<Token, TokenStop>
    requires { place < QUERY_TEXT_MOST }
    ensures { Gives (short_at place (short_sign byte)) result }
{
    match short_sign(byte) {
        Some(sign) => Ok(token(TokenKind::Sign(sign), place, 1)),
        None => Err(TokenStop::BadByte { place }),
    }
}

// The sign at the start of the text. One of two bytes takes precedence over one of its first byte.
fn sign_at(place: u32, text: &[u8]) -> Result<Token, TokenStop>
    requires some { 0 < length text.now }
    requires short { place + length text.now ≤ QUERY_TEXT_MOST }
    ensures { Gives (sign_at place text.now) result }
{
    if text.len() == 1 {
        return short_at(place, text[0]);
    }
    match long_sign(text[0], text[1]) {
        Some(sign) => Ok(token(TokenKind::Sign(sign), place, 2)),
        None => short_at(place, text[0]),
    }
}

/// The token that begins at a position, given the text from there on. Does not allocate.
pub(crate) fn token_at(place: u32, text: &[u8]) -> Result<Token, TokenStop>
    requires some { 0 < length text.now }
    requires short { place + length text.now ≤ QUERY_TEXT_MOST }
    ensures { Gives (token_at place text.now) result }
{
    if begins_word(text[0]) {
        Ok(word_at(place, text))
    } else if is_digit(text[0]) {
        int_at(place, text)
    } else {
        sign_at(place, text)
    }
}
