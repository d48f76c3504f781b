//! Parses tables, and the clauses from WHERE on. One function reads one rule of the grammar.
ghost use Rattle.std.specs.Prelude.{◌≡◌, ◌-◌};
ghost use Rattle.sql_rules.specs.declared.limits.TheConstants.{GROUP_COLUMNS_MOST};
ghost use Rattle.sql_rules.specs.Symbols.{OfSign};
ghost use Rattle.sql_rules.specs.Readers.{many, mark_at};
ghost use Rattle.sql_rules.specs.ReadExprs.{col_at};
ghost use Rattle.sql_rules.specs.ReadQueries.{alias_at, cols_at, group_at, limit_at, order_at, second_at};
ghost use Rattle.sql_rules.specs.ReadQueries.{sorted_at, table_at, way_at, where_at};
ghost use Rattle.sql_token.specs.declared.sign.Sign.TheVariants as sign;
ghost use Rattle.sql_reader.specs.Answers.{Gives, Shows};

use crate::ahead::{Ahead, ReadStop};
use crate::conds::cond;
use crate::exprs::col;
use sql_rules::limits::{GROUP_COLUMNS_MOST, LEVELS_MOST};
use sql_token::{Int, Keyword, Sign};
use sql_tree::{Col, Cond, Name, OrderBy, TableRef};
use sqlite_items::Items;
use std::alloc::Global;

// The alias of a table, if there is one.
#[tactic(auto, unfolding(sql_rules::specs::ReadQueries::alias_at))]
fn alias<'a>(alloc: Global, ahead: &Ahead<'a>) -> Result<(Option<Name>, Ahead<'a>), ReadStop>
    ensures { Gives (alias_at ahead.now) result }
{
    if let Some(rest) = ahead.after_key(Keyword::As) {
        let (alias, rest) = rest.name(alloc)?;
        return Ok((Some(alias), rest));
    }
    match ahead.name(alloc) {
        Ok((alias, rest)) => Ok((Some(alias), rest)),
        Err(ReadStop::Memory) => Err(ReadStop::Memory),
        Err(ReadStop::Syntax) => Ok((None, ahead.again())),
    }
}

/// A table, and its alias.
#[tactic(auto, unfolding(sql_rules::specs::ReadQueries::table_at))]
pub(crate) fn table<'a>(alloc: Global, ahead: &Ahead<'a>) -> Result<(TableRef, Ahead<'a>), ReadStop>
    ensures { Gives (table_at ahead.now) result }
{
    let (name, rest) = ahead.name(alloc)?;
    let (alias, rest) = alias(alloc, &rest)?;
    Ok((TableRef { name, alias }, rest))
}

/// The second table, if a comma is first.
#[tactic(auto, unfolding(sql_rules::specs::ReadQueries::second_at))]
pub(crate) fn second<'a>(
    alloc: Global,
    ahead: &Ahead<'a>,
) -> Result<(Option<TableRef>, Ahead<'a>), ReadStop>
    ensures { Gives (second_at ahead.now) result }
{
    match ahead.after_sign(Sign::Comma) {
        None => Ok((None, ahead.again())),
        Some(rest) => {
            let (table, rest) = table(alloc, &rest)?;
            Ok((Some(table), rest))
        }
    }
}

/// The condition, if WHERE is first.
#[tactic(auto, unfolding(sql_rules::specs::ReadQueries::where_at))]
pub(crate) fn where_clause<'a>(
    alloc: Global,
    ahead: &Ahead<'a>,
) -> Result<(Option<Cond>, Ahead<'a>), ReadStop>
    ensures { Gives (where_at ahead.now) result }
{
    match ahead.after_key(Keyword::Where) {
        None => Ok((None, ahead.again())),
        Some(rest) => {
            let (cond, rest) = cond(alloc, &rest, LEVELS_MOST)?;
            Ok((Some(cond.into_inner()), rest))
        }
    }
}

// The columns after commas, at most as many as GROUP BY may have after its first.
fn more_cols<'a>(alloc: Global, ahead: &Ahead<'a>) -> Result<(Items<Col>, Ahead<'a>), ReadStop>
    ensures { Gives (many (mark_at (OfSign sign.Comma)) (λ _. col_at) (GROUP_COLUMNS_MOST - 1)
        ahead.now) result }
{
    let mut found = Items::new(alloc);
    let mut rest = ahead.again();
    for turn in 0..GROUP_COLUMNS_MOST - 1 {
        match rest.after_sign(Sign::Comma) {
            None => return Ok((found, rest)),
            Some(next) => {
                let (item, next) = col(alloc, &next)?;
                found.push(item)?;
                rest = next;
            }
        }
    }
    Ok((found, rest))
}

// One to four columns.
#[tactic(auto, unfolding(sql_rules::specs::ReadQueries::cols_at))]
fn cols<'a>(alloc: Global, ahead: &Ahead<'a>) -> Result<(Items<Col>, Ahead<'a>), ReadStop>
    ensures { Gives (cols_at ahead.now) result }
{
    let (first, rest) = col(alloc, ahead)?;
    let (more, rest) = more_cols(alloc, &rest)?;
    let mut found = Items::new(alloc);
    found.push(first)?;
    found.append(more)?;
    Ok((found, rest))
}

/// The columns to group by, or none if GROUP is not first.
#[tactic(auto, unfolding(sql_rules::specs::ReadQueries::group_at))]
pub(crate) fn group_clause<'a>(
    alloc: Global,
    ahead: &Ahead<'a>,
) -> Result<(Items<Col>, Ahead<'a>), ReadStop>
    ensures { Gives (group_at ahead.now) result }
{
    match ahead.after_key(Keyword::Group) {
        None => Ok((Items::new(alloc), ahead.again())),
        Some(rest) => match rest.after_key(Keyword::By) {
            Some(rest) => cols(alloc, &rest),
            None => Err(ReadStop::Syntax),
        },
    }
}

// Whether the order is descending.
#[tactic(auto, unfolding(sql_rules::specs::ReadQueries::way_at))]
fn way<'a>(ahead: &Ahead<'a>) -> Option<(bool, Ahead<'a>)>
    ensures { Shows (way_at ahead.now) result }
{
    match ahead.after_key(Keyword::Desc) {
        Some(rest) => Some((true, rest)),
        None => {
            let (asc, rest) = ahead.maybe_key(Keyword::Asc);
            Some((false, rest))
        }
    }
}

// The order key, and whether the order is descending.
#[tactic(auto, unfolding(sql_rules::specs::ReadQueries::sorted_at))]
fn sorted<'a>(alloc: Global, ahead: &Ahead<'a>) -> Result<(Option<OrderBy>, Ahead<'a>), ReadStop>
    ensures { Gives (sorted_at ahead.now) result }
{
    let (key, rest) = col(alloc, ahead)?;
    match way(&rest) {
        Some((down, rest)) => Ok((Some(OrderBy { key, down }), rest)),
        None => {
            drop(key);
            Err(ReadStop::Syntax)
        }
    }
}

/// The order, if ORDER is first.
#[tactic(auto, unfolding(sql_rules::specs::ReadQueries::order_at))]
pub(crate) fn order_clause<'a>(
    alloc: Global,
    ahead: &Ahead<'a>,
) -> Result<(Option<OrderBy>, Ahead<'a>), ReadStop>
    ensures { Gives (order_at ahead.now) result }
{
    match ahead.after_key(Keyword::Order) {
        None => Ok((None, ahead.again())),
        Some(rest) => match rest.after_key(Keyword::By) {
            Some(rest) => sorted(alloc, &rest),
            None => Err(ReadStop::Syntax),
        },
    }
}

/// The most rows of the answer, if LIMIT is first.
#[tactic(auto, unfolding(sql_rules::specs::ReadQueries::limit_at))]
pub(crate) fn limit_clause<'a>(ahead: &Ahead<'a>) -> Option<(Option<Int>, Ahead<'a>)>
    ensures { Shows (limit_at ahead.now) result }
{
    match ahead.after_key(Keyword::Limit) {
        None => Some((None, ahead.again())),
        Some(rest) => {
            let (n, rest) = rest.number()?;
            Some((Some(n), rest))
        }
    }
}
