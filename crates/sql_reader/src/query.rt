//! Parses whole queries.
ghost use Rattle.std.specs.Prelude.{◌≡◌, ◌≤◌, length, IfOk, IfErr, Ok, Err, Some, None, if◌then◌else◌};
ghost use Rattle.sky_io.specs.Stops.{IfBad};
ghost use Rattle.text_rules.specs.declared.limits.TheConstants.{QUERY_TEXT_MOST};
ghost use Rattle.sql_rules.specs.Queries.{second_span};
ghost use Rattle.sql_rules.specs.Readers.{Got};
ghost use Rattle.sql_rules.specs.Trees.{from_at, front_at, query_at, query_of, query_with, tree_of, whole};
ghost use Rattle.sql_tree.specs.declared.query.Query.{Query};
ghost use Rattle.sql_reader.specs.Answers.{Gives};
ghost use Rattle.sql_reader.specs.Stops.{from_group_at, from_where_at, front_of, GivesBy, GivesQuery, MeansStop};

use crate::ahead::{Ahead, ReadStop, beside};
use crate::clauses::{group_clause, limit_clause, order_clause, second, table, where_clause};
use crate::items::items;
use sky_io::Stop;
use sql_rules::SqlFault;
use sql_token::{Keyword, Sign, Span, Token, TokenStop, Tokens};
use sql_tree::{Col, Cond, Query, Selection, TableRef};
use sqlite_items::Items;
use std::alloc::Global;

/// The part of a query before WHERE.
#[derive(Drop)]
pub(crate) struct Before {
    pub(crate) items: Selection,
    pub(crate) first: TableRef,
    pub(crate) second: Option<TableRef>,
}

// FROM and what follows it, up to WHERE.
#[tactic(auto, unfolding(sql_rules::specs::Trees::from_at))]
fn from<'a>(
    alloc: Global,
    ahead: &Ahead<'a>,
    items: Selection,
) -> Result<(Before, Ahead<'a>), ReadStop>
    ensures { GivesBy front_of (from_at items ahead.now) result }
{
    let Some(rest) = ahead.after_key(Keyword::From) else {
        drop(items);
        return Err(ReadStop::Syntax);
    };
    let (items, (first, rest)) = beside(items, table(alloc, &rest))?;
    let ((items, first), (second, rest)) = beside((items, first), second(alloc, &rest))?;
    Ok((
        Before {
            items,
            first,
            second,
        },
        rest,
    ))
}

// The part of a query before WHERE. A star has the given span.
#[tactic(auto, unfolding(sql_rules::specs::Trees::front_at))]
fn front<'a>(alloc: Global, ahead: &Ahead<'a>, star: Span) -> Result<(Before, Ahead<'a>), ReadStop>
    ensures { GivesBy front_of (front_at star ahead.now) result }
{
    let Some(rest) = ahead.after_key(Keyword::Select) else {
        return Err(ReadStop::Syntax);
    };
    let (items, rest) = items(alloc, &rest, star)?;
    from(alloc, &rest, items)
}

// The query with the given parts before ORDER BY, and the rest of the tokens.
fn query_with<'a>(
    alloc: Global,
    ahead: &Ahead<'a>,
    before: Before,
    cond: Option<Cond>,
    group: Items<Col>,
) -> Result<(Query, Ahead<'a>), ReadStop>
    ensures { Gives (query_with (front_of before) cond group ahead.now) result }
{
    let held = (before, cond, group);
    let (held, (order, rest)) = beside(held, order_clause(alloc, ahead))?;
    let Some((limit, rest)) = limit_clause(&rest) else {
        drop((held, order));
        return Err(ReadStop::Syntax);
    };
    let (before, cond, group) = held;
    let Before {
        items,
        first,
        second,
    } = before;
    let query = Query {
        items,
        first,
        second,
        cond,
        group,
        order,
        limit,
    };
    Ok((query, rest))
}

// GROUP BY and what follows it, up to the semicolon.
fn from_group<'a>(
    alloc: Global,
    ahead: &Ahead<'a>,
    before: Before,
    cond: Option<Cond>,
) -> Result<(Query, Ahead<'a>), ReadStop>
    ensures { Gives (from_group_at (front_of before) cond ahead.now) result }
{
    match group_clause(alloc, ahead) {
        Ok((group, rest)) => query_with(alloc, &rest, before, cond, group),
        Err(why) => {
            drop((before, cond));
            Err(why)
        }
    }
}

// WHERE and what follows it, up to the semicolon.
fn from_where<'a>(
    alloc: Global,
    ahead: &Ahead<'a>,
    before: Before,
) -> Result<(Query, Ahead<'a>), ReadStop>
    ensures { Gives (from_where_at (front_of before) ahead.now) result }
{
    match where_clause(alloc, ahead) {
        Ok((cond, rest)) => from_group(alloc, &rest, before, cond),
        Err(why) => {
            drop(before);
            Err(why)
        }
    }
}

// A query, up to its semicolon. A star has the given span.
#[tactic(auto, unfolding(sql_rules::specs::Trees::query_at))]
fn query_at<'a>(
    alloc: Global,
    ahead: &Ahead<'a>,
    star: Span,
) -> Result<(Query, Ahead<'a>), ReadStop>
    ensures { Gives (query_at star ahead.now) result }
{
    let (before, rest) = front(alloc, ahead, star)?;
    from_where(alloc, &rest, before)
}

// Whether nothing but a semicolon is left.
fn is_end(ahead: &Ahead<'_>) -> bool
    ensures { (query : Query) → whole (Got query ahead.now) ≡ if result then Some query else None }
{
    let (semicolon, rest) = ahead.maybe_sign(Sign::Semicolon);
    rest.is_empty()
}

// The span of the second token.
fn second_span(tokens: &[Token]) -> Span
    ensures { result ≡ second_span tokens.now }
{
    match tokens {
        [_, second, ..] => second.span,
        _ => Span { from: 0, to: 0 },
    }
}

// The query that all tokens of a text spell.
#[tactic(auto, unfolding(sql_rules::specs::Trees::query_of))]
fn query_of(alloc: Global, text: &[u8], tokens: &[Token]) -> Result<Query, ReadStop>
    ensures { GivesQuery (query_of text.now tokens.now) result }
{
    let ahead = Ahead::new(text, tokens);
    let (query, rest) = query_at(alloc, &ahead, second_span(tokens))?;
    if is_end(&rest) {
        Ok(query)
    } else {
        drop(query);
        Err(ReadStop::Syntax)
    }
}

// The fault of a query whose text has no list of tokens.
fn stop_of(stop: TokenStop) -> Stop<SqlFault>
    ensures { MeansStop stop result }
{
    match stop {
        TokenStop::BadByte { place } => Stop::Bad(SqlFault::BadByte { place }),
        TokenStop::Literal { place } => Stop::Bad(SqlFault::Literal { place }),
        TokenStop::TooMany => Stop::Bad(SqlFault::TooMany),
        TokenStop::Depth { place } => Stop::Bad(SqlFault::Depth { place }),
        TokenStop::Memory => Stop::Memory,
    }
}

/// The one tree of a text of at most 16,384 bytes, or its first fault. Allocates memory for the tree and its names; the
/// text is not kept. An allocation failure can take the place of any result.
#[tactic(auto, unfolding(sql_rules::specs::Trees::tree_of))]
pub fn read(alloc: Global, text: &[u8]) -> Result<Query, Stop<SqlFault>>
    requires { length text.now ≤ QUERY_TEXT_MOST }
    ensures ok { IfOk result (λ query. tree_of text.now ≡ Ok query) }
    ensures bad { IfErr result (λ stop. IfBad stop (λ fault. tree_of text.now ≡ Err fault)) }
{
    match Tokens::read(alloc, text) {
        Err(stop) => Err(stop_of(stop)),
        Ok(tokens) => match query_of(alloc, text, tokens.as_slice()) {
            Ok(query) => Ok(query),
            Err(ReadStop::Memory) => Err(Stop::Memory),
            Err(ReadStop::Syntax) => Err(Stop::Bad(SqlFault::Syntax)),
        },
    }
}
