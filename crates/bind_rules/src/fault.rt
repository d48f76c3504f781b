//! The faults of a query over a schema.

use sql_token::Span;
use thiserror::Error;

/// The first fault of a query over a schema. A span is a part of the query's text.
#[derive(Clone, Copy, Debug, PartialEq, Eq, Error)]
pub enum BindFault {
    /// A table that does not exist, a column that the schema does not have, or a qualifier that no table has.
    #[error("unknown name")]
    UnknownName { span: Span },
    /// A column or a star of a grouped query that the keys do not determine.
    #[error("not grouped")]
    NotGrouped { span: Span },
    /// Two tables that do not satisfy the rules of a join, or one table and a chord test.
    #[error("join form")]
    JoinForm,
    /// An area test at a position, or with arguments, that it cannot have.
    #[error("area form")]
    AreaForm { span: Span },
    /// An expression whose values could be above 2^100.
    #[error("expression too wide")]
    TooWide,
    /// An order key that is neither an alias nor a column to order by.
    #[error("unknown order key")]
    OrderName { span: Span },
}
