//! The tokens of SQL text.
//!
//! Callers see the tokens of a text as a list, each with its kind and its span (`specs/Tokens.antt`). Below:
//! `text_rules` for the numbers that digits write. There is no grammar here: any sequence of tokens is accepted.
#![tactic(auto)]

mod byte;
mod depth;
pub mod examples;
mod front;
mod int;
mod keyword;
pub mod laws;
pub mod limits;
mod scan;
mod sign;
mod token;
mod tokens;

pub use int::Int;
pub use keyword::Keyword;
pub use sign::Sign;
pub use token::{Span, Token, TokenKind, TokenStop};
pub use tokens::Tokens;
