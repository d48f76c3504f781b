//! The number of open brackets at each token.
ghost use Rattle.std.specs.Prelude.{◌≡◌, ◌≤◌, true};
ghost use Rattle.sql_token.specs.declared.limits.TheConstants.{TOKENS_MOST};
ghost use Rattle.sql_token.specs.Tokens.{opens, closes, open_behind, too_deep};

use crate::limits::BRACKETS_MOST;
use crate::sign::Sign;
use crate::token::{Token, TokenKind};

// Whether the token is an opening bracket.
fn opens(token: &Token) -> bool
    ensures { result ≡ opens token.now.kind }
{
    matches!(token.kind, TokenKind::Sign(Sign::Open))
}

// Whether the token is a closing bracket.
fn closes(token: &Token) -> bool
    ensures { result ≡ closes token.now.kind }
{
    matches!(token.kind, TokenKind::Sign(Sign::Close))
}

// The number of open brackets after a token.
fn open_behind(depth: u32, token: &Token) -> u32
    requires { depth ≤ TOKENS_MOST }
    ensures { result ≡ open_behind depth token.now }
{
    if opens(token) {
        depth + 1
    } else if closes(token) {
        depth.saturating_sub(1)
    } else {
        depth
    }
}

/// The position of the first bracket with which 33 are open. Does not allocate.
#[tactic(auto, unfolding(crate::specs::Tokens::too_deep))]
pub(crate) fn too_deep(tokens: &[Token]) -> Option<u32>
    ensures { result ≡ too_deep 0 tokens.now }
{
    let mut depth = 0;
    for token in tokens {
        if opens(token) && depth >= BRACKETS_MOST {
            return Some(token.span.from);
        }
        depth = open_behind(depth, token);
    }
    None
}
