//! The step of a line, given the lines before it.
ghost use Rattle.std.specs.Prelude.{◌≡◌, ◌≤◌, ◌+◌, length};
ghost use Rattle.text_rules.specs.declared.limits.TheConstants.{TEXT_MOST};
ghost use Rattle.sky_text.specs.LineItems.{line_of};
ghost use Rattle.session_script.specs.Scripts.{asking, naming, span_at, step_of};

use crate::command::{Command, command_of};
use crate::fault::ScriptFault;
use crate::step::Step;
use sky_text::Line;
use sql_token::Span;
use text_rules::limits::{QUERIES_MOST, QUERY_TEXT_MOST};

// The step that names a query by its number, or a fault if there is no such query yet.
fn naming(
    queries: u32,
    line: &Line<'_>,
    number: u32,
    step: Step,
) -> Result<Option<Step>, ScriptFault>
    ensures { result ≡ naming queries (line_of line.now) number step }
{
    if 1 <= number && number <= queries {
        Ok(Some(step))
    } else {
        Err(ScriptFault::UnknownQuery {
            line: line.number,
            number,
        })
    }
}

// The span of the line in a script, if it begins at the position.
fn span_at(place: usize, line: &Line<'_>) -> Span
    requires { place + length line.now.text.now ≤ TEXT_MOST }
    ensures { result ≡ span_at place (line_of line.now) }
{
    Span {
        from: place as u32,
        to: (place + line.text.len()) as u32,
    }
}

// The step of the next query.
fn asking(queries: u32, place: usize, line: &Line<'_>) -> Result<Option<Step>, ScriptFault>
    requires { place + length line.now.text.now ≤ TEXT_MOST }
    ensures { result ≡ asking queries place (line_of line.now) }
{
    if queries < QUERIES_MOST {
        Ok(Some(Step::Query {
            number: queries + 1,
            span: span_at(place, line),
        }))
    } else {
        Err(ScriptFault::TooManyQueries { line: line.number })
    }
}

/// The step of a line that begins at a position, after lines with the given number of queries. It is `None` for a
/// comment line. Does not allocate.
pub(crate) fn step_of(
    queries: u32,
    place: usize,
    line: &Line<'_>,
) -> Result<Option<Step>, ScriptFault>
    requires { place + length line.now.text.now ≤ TEXT_MOST }
    ensures { result ≡ step_of queries place (line_of line.now) }
{
    if line.text.len() > QUERY_TEXT_MOST {
        return Err(ScriptFault::LineTooLong { line: line.number });
    }
    match command_of(line.text) {
        Command::Note => Ok(None),
        Command::Cancels(number) => naming(queries, line, number, Step::Cancel { number }),
        Command::Waits(number) => naming(queries, line, number, Step::Wait { number }),
        Command::Asks => asking(queries, place, line),
    }
}
