//! All tokens of a text.
ghost use Rattle.std.specs.Prelude.{◌≡◌, ◌≤◌, ◌<◌, length, slice_index, false};
ghost use Rattle.text_rules.specs.declared.limits.TheConstants.{QUERY_TEXT_MOST};
ghost use Rattle.sql_token.specs.Answers.{behind, Gives, GivesNext};
ghost use Rattle.sql_token.specs.Bytes.{is_blank};

use crate::byte::blanks_len;
use crate::front::token_at;
use crate::token::{Token, TokenStop};
use crate::tokens::Tokens;
use std::alloc::Global;

// The position of the first byte that is no blank, from a position on, or the end of the text.
fn after_blanks(text: &[u8], place: usize) -> usize
    requires { place ≤ length text.now }
    ensures same { behind text.now place ≡ behind text.now result }
    ensures from { place ≤ result }
    ensures within { result ≤ length text.now }
    ensures stops { result < length text.now → is_blank (slice_index text.now result) ≡ false }
{
    place + blanks_len(&text[place..])
}

// The next token from a position on.
fn next_token(text: &[u8], place: usize) -> Result<Option<Token>, TokenStop>
    requires short { length text.now ≤ QUERY_TEXT_MOST }
    requires within { place ≤ length text.now }
    ensures { GivesNext text.now place result }
{
    let from = after_blanks(text, place);
    if from == text.len() {
        return Ok(None);
    }
    match token_at(from as u32, &text[from..]) {
        Ok(token) => Ok(Some(token)),
        Err(why) => Err(why),
    }
}

/// All tokens of a text, or the first fault.
pub(crate) fn scan(alloc: Global, text: &[u8]) -> Result<Tokens, TokenStop>
    requires { length text.now ≤ QUERY_TEXT_MOST }
    ensures { Gives (behind text.now 0) result }
{
    let mut tokens = Tokens::new(alloc);
    let mut place = 0;
    while let Some(Token { kind, span }) = next_token(text, place)? {
        tokens.push(Token { kind, span })?;
        place = span.to as usize;
    }
    Ok(tokens)
}
