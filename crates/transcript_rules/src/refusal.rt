//! Why a query is refused.

use answer_rules::{Radius, TotalOut};
use bind_rules::BindFault;
use sql_rules::SqlFault;

/// Why a query is refused, in the order in which the reasons are checked.
#[derive(Clone, Copy, Debug, PartialEq, Eq)]
pub enum Refusal {
    /// Its text is no query.
    Sql(SqlFault),
    /// It does not fit the schema.
    Bind(BindFault),
    /// It is a join with a limit above what the overlap allows.
    Radius(Radius),
    /// A total of a group is out of range.
    Total(TotalOut),
}
