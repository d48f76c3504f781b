//! The faults of the text of a query.

use thiserror::Error;

/// The first fault of a text that is no query. A place is an offset in bytes from 0. The order is: the first bad byte
/// or large integer, by its place; if there is none, too many tokens; then depth; then the grammar.
#[derive(Clone, Copy, Debug, PartialEq, Eq, Error)]
pub enum SqlFault {
    /// A byte that begins no token and is no blank.
    #[error("bad byte")]
    BadByte { place: u32 },
    /// The first digit of an integer above 2^63 - 1.
    #[error("number too large")]
    Literal { place: u32 },
    /// More than 2,048 tokens.
    #[error("too many tokens")]
    TooMany,
    /// The first `(` at which 33 brackets are open.
    #[error("brackets too deep")]
    Depth { place: u32 },
    /// The tokens are no query.
    #[error("not a query")]
    Syntax,
}
