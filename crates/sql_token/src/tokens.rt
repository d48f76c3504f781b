//! The list of the tokens of a text.
ghost use Rattle.std.specs.Prelude.{◌≡◌, ◌≤◌, ◌∷◌, [], ◌++◌, length, IfOk, IfErr, OnOk, Ok};
ghost use Rattle.text_rules.specs.declared.limits.TheConstants.{QUERY_TEXT_MOST};
ghost use Rattle.sql_token.specs.Answers.{StopsBy};
ghost use Rattle.sql_token.specs.Tokens.{tokens_of};

use crate::depth::too_deep;
use crate::limits::TOKENS_MOST;
use crate::scan::scan;
use crate::token::{Token, TokenStop};
use std::alloc::Global;
use std::marker::Model;

/// Tokens in the order of their text.
#[derive(Drop)]
pub struct Tokens {
    list: Vec<Token>,
}

impl Model for Tokens {
    ghost use Rattle.std.specs.Prelude.{List};
    ghost use Rattle.sql_token.specs.declared.token.Token.{Token};

    ghost Value = { List Token };

    ghost view = { λ t. t.list.items };
}

impl Tokens {
    /// An empty list of tokens. Does not allocate.
    pub(crate) fn new(alloc: Global) -> Tokens
        ensures { result ≡ [] }
    {
        Tokens {
            list: Vec::new(alloc),
        }
    }

    /// Appends a token.
    pub(crate) fn push(&mut self, token: Token) -> Result<(), TokenStop>
        ensures ok { OnOk result (self.new ≡ self.old ++ token ∷ []) }
        ensures err { IfErr result (λ why. why ≡ TokenStop.Memory) }
    {
        let Token { kind, span } = token;
        match self.list.push(Token { kind, span }) {
            Ok(()) => Ok(()),
            Err(_) => Err(TokenStop::Memory),
        }
    }

    /// The tokens of a text of at most 16,384 bytes, or its first fault. Allocates memory. An allocation failure can
    /// take the place of any result.
    pub fn read(alloc: Global, text: &[u8]) -> Result<Tokens, TokenStop>
        requires { length text.now ≤ QUERY_TEXT_MOST }
        ensures tokens { IfOk result (λ tokens. tokens_of text.now ≡ Ok tokens) }
        ensures fault { IfErr result (StopsBy (tokens_of text.now)) }
    {
        let tokens = scan(alloc, text)?;
        if tokens.list.len() > TOKENS_MOST {
            return Err(TokenStop::TooMany);
        }
        match too_deep(tokens.as_slice()) {
            Some(place) => Err(TokenStop::Depth { place }),
            None => Ok(tokens),
        }
    }

    /// The tokens, as a slice. Does not allocate.
    pub fn as_slice(&self) -> &[Token]
        ensures { result.now ≡ self.now }
    {
        self.list.as_slice()
    }
}
