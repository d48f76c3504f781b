//! A step of a script.

use sql_token::Span;

/// The action of a line of a script.
#[derive(Clone, Copy, Debug, PartialEq, Eq)]
pub enum Step {
    /// Starts the query of the line. Queries are numbered from 1, and the span is the line's, without its end.
    Query { number: u32, span: Span },
    /// Waits for the end of an earlier query.
    Wait { number: u32 },
    /// Cancels an earlier query.
    Cancel { number: u32 },
}
