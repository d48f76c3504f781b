//! The understanding of a query's line: its tree, and its bound query over the schema.

ghost use Rattle.std.specs.Prelude.{◌≤◌, IfOk, length};
ghost use Rattle.text_rules.specs.declared.limits.TheConstants.{QUERY_TEXT_MOST};
ghost use Rattle.czar.specs.Understandings.{IsUnbound, IsUnderstanding, IsUnderstandingOf, IsUnread};

use sky_io::{Memory, Stop};
use sky_row::Schema;
use sql_bind::{BindFault, bind};
use sql_bound::Bound;
use sql_reader::{SqlFault, read};
use sql_tree::Query;
use std::alloc::Global;
use transcript_rules::Refusal;

/// The understanding of a query's line.
#[derive(Drop)]
pub enum Understanding {
    /// The line's tree, and its bound query.
    Known { tree: Query, bound: Bound },
    /// The reason for which there is none: the line is no query, or does not fit the schema.
    Unknown(Refusal),
}

/// Returns the understanding of a line of at most 16,384 bytes, over the schema. Allocates memory for the trees.
pub(crate) fn understand(
    alloc: Global,
    schema: &Schema,
    text: &[u8],
) -> Result<Understanding, Memory>
    requires { length text.now ≤ QUERY_TEXT_MOST }
    ensures { IfOk result (IsUnderstanding schema.now text.now) }
{
    match read(alloc, text) {
        Ok(tree) => bound_over(alloc, schema, tree),
        Err(stop) => unread(stop),
    }
}

/// Returns the understanding of the lines on which the reader stops with this error.
fn unread(stop: Stop<SqlFault>) -> Result<Understanding, Memory>
    ensures { IfOk result (IsUnread stop) }
{
    match stop {
        Stop::Bad(fault) => Ok(Understanding::Unknown(Refusal::Sql(fault))),
        Stop::Memory => Err(Memory),
    }
}

/// Returns the understanding of the lines with this tree.
fn bound_over(alloc: Global, schema: &Schema, tree: Query) -> Result<Understanding, Memory>
    ensures { IfOk result (IsUnderstandingOf schema.now tree) }
{
    match bind(alloc, &tree, schema) {
        Ok(bound) => Ok(Understanding::Known { tree, bound }),
        Err(stop) => {
            drop(tree);
            unbound(stop)
        }
    }
}

/// Returns the understanding of the lines on whose tree the binder stops with this error.
fn unbound(stop: Stop<BindFault>) -> Result<Understanding, Memory>
    ensures { IfOk result (IsUnbound stop) }
{
    match stop {
        Stop::Bad(fault) => Ok(Understanding::Unknown(Refusal::Bind(fault))),
        Stop::Memory => Err(Memory),
    }
}
