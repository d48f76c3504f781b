//! Parses the select list. One function reads one rule of the grammar.
ghost use Rattle.std.specs.Prelude.{◌≡◌};
ghost use Rattle.sql_rules.specs.Symbols.{OfSign};
ghost use Rattle.sql_rules.specs.Readers.{each, mark_at};
ghost use Rattle.sql_rules.specs.ReadQueries.{argument_at, as_at, counted_at, high_at, item_at, item_list_at};
ghost use Rattle.sql_rules.specs.ReadQueries.{items_at, kind_at, plain_at};
ghost use Rattle.sql_token.specs.declared.sign.Sign.TheVariants as sign;
ghost use Rattle.sql_reader.specs.Answers.{Gives};
ghost use Rattle.sql_reader.specs.Calls.{called_at, kind_by};

use crate::ahead::{Ahead, ReadStop, beside};
use crate::exprs::expr;
use sql_rules::limits::LEVELS_MOST;
use sql_token::{Keyword, Sign, Span};
use sql_tree::{Expr, Item, ItemKind, ItemList, Name, Selection};
use sqlite_items::Items;
use std::alloc::Global;

/// A function of an expression.
#[derive(Clone, Copy)]
pub(crate) enum Call {
    Count,
    Sum,
    Min,
    Max,
    Avg,
}

// The function of an expression, as an item.
fn kind_by(call: Call, e: Expr) -> ItemKind
    ensures { result ≡ kind_by call e }
{
    match call {
        Call::Count => ItemKind::CountOf(e),
        Call::Sum => ItemKind::Sum(e),
        Call::Min => ItemKind::Min(e),
        Call::Max => ItemKind::Max(e),
        Call::Avg => ItemKind::Avg(e),
    }
}

// The expression after an opening bracket, and the closing bracket.
#[tactic(auto, unfolding(sql_rules::specs::ReadQueries::argument_at))]
fn argument<'a>(
    alloc: Global,
    ahead: &Ahead<'a>,
    call: Call,
) -> Result<(ItemKind, Ahead<'a>), ReadStop>
    ensures { Gives (argument_at (kind_by call) ahead.now) result }
{
    let (e, rest) = expr(alloc, ahead, LEVELS_MOST)?;
    match rest.after_sign(Sign::Close) {
        Some(rest) => Ok((kind_by(call, e), rest)),
        None => {
            drop(e);
            Err(ReadStop::Syntax)
        }
    }
}

// The rest of an item after COUNT and its opening bracket.
#[tactic(auto, unfolding(sql_rules::specs::ReadQueries::counted_at))]
fn counted<'a>(alloc: Global, ahead: &Ahead<'a>) -> Result<(ItemKind, Ahead<'a>), ReadStop>
    ensures { Gives (counted_at ahead.now) result }
{
    let Some(rest) = ahead.after_sign(Sign::Star) else {
        return argument(alloc, ahead, Call::Count);
    };
    match rest.after_sign(Sign::Close) {
        Some(rest) => Ok((ItemKind::Count, rest)),
        None => Err(ReadStop::Syntax),
    }
}

// The rest of an item after COUNT.
fn count<'a>(alloc: Global, ahead: &Ahead<'a>) -> Result<(ItemKind, Ahead<'a>), ReadStop>
    ensures { Gives (called_at counted_at ahead.now) result }
{
    match ahead.after_sign(Sign::Open) {
        Some(inside) => counted(alloc, &inside),
        None => Err(ReadStop::Syntax),
    }
}

// The rest of an item after the name of another function.
fn called<'a>(
    alloc: Global,
    ahead: &Ahead<'a>,
    call: Call,
) -> Result<(ItemKind, Ahead<'a>), ReadStop>
    ensures { Gives (called_at (argument_at (kind_by call)) ahead.now) result }
{
    match ahead.after_sign(Sign::Open) {
        Some(inside) => argument(alloc, &inside, call),
        None => Err(ReadStop::Syntax),
    }
}

// An expression, as an item.
#[tactic(auto, unfolding(sql_rules::specs::ReadQueries::plain_at))]
fn plain<'a>(alloc: Global, ahead: &Ahead<'a>) -> Result<(ItemKind, Ahead<'a>), ReadStop>
    ensures { Gives (plain_at ahead.now) result }
{
    let (e, rest) = expr(alloc, ahead, LEVELS_MOST)?;
    Ok((ItemKind::Plain(e), rest))
}

// MAX or AVG of an expression, or an expression.
#[tactic(auto, unfolding(sql_rules::specs::ReadQueries::high_at))]
fn high<'a>(alloc: Global, ahead: &Ahead<'a>) -> Result<(ItemKind, Ahead<'a>), ReadStop>
    ensures { Gives (high_at ahead.now) result }
{
    if let Some(rest) = ahead.after_key(Keyword::Max) {
        return called(alloc, &rest, Call::Max);
    }
    match ahead.after_key(Keyword::Avg) {
        Some(rest) => called(alloc, &rest, Call::Avg),
        None => plain(alloc, ahead),
    }
}

// An expression, or an aggregate function.
#[tactic(auto, unfolding(sql_rules::specs::ReadQueries::kind_at))]
fn kind<'a>(alloc: Global, ahead: &Ahead<'a>) -> Result<(ItemKind, Ahead<'a>), ReadStop>
    ensures { Gives (kind_at ahead.now) result }
{
    if let Some(rest) = ahead.after_key(Keyword::Count) {
        return count(alloc, &rest);
    }
    if let Some(rest) = ahead.after_key(Keyword::Sum) {
        return called(alloc, &rest, Call::Sum);
    }
    match ahead.after_key(Keyword::Min) {
        Some(rest) => called(alloc, &rest, Call::Min),
        None => high(alloc, ahead),
    }
}

// The alias after AS, if AS is first.
#[tactic(auto, unfolding(sql_rules::specs::ReadQueries::as_at))]
fn alias_behind_as<'a>(
    alloc: Global,
    ahead: &Ahead<'a>,
) -> Result<(Option<Name>, Ahead<'a>), ReadStop>
    ensures { Gives (as_at ahead.now) result }
{
    match ahead.after_key(Keyword::As) {
        None => Ok((None, ahead.again())),
        Some(rest) => {
            let (alias, rest) = rest.name(alloc)?;
            Ok((Some(alias), rest))
        }
    }
}

// An item, and its alias.
#[tactic(auto, unfolding(sql_rules::specs::ReadQueries::item_at))]
fn item<'a>(alloc: Global, ahead: &Ahead<'a>) -> Result<(Item, Ahead<'a>), ReadStop>
    ensures { Gives (item_at ahead.now) result }
{
    let (what, rest) = kind(alloc, ahead)?;
    let (what, (alias, rest)) = beside(what, alias_behind_as(alloc, &rest))?;
    Ok((Item { what, alias }, rest))
}

// The items after commas.
fn more_items<'a>(alloc: Global, ahead: &Ahead<'a>) -> Result<(Items<Item>, Ahead<'a>), ReadStop>
    ensures { Gives (each (mark_at (OfSign sign.Comma)) (λ _. item_at) ahead.now) result }
{
    let mut found = Items::new(alloc);
    let mut rest = ahead.again();
    for turn in 0..ahead.len() {
        match rest.after_sign(Sign::Comma) {
            None => return Ok((found, rest)),
            Some(next) => {
                let (item, next) = item(alloc, &next)?;
                found.push(item)?;
                rest = next;
            }
        }
    }
    Ok((found, rest))
}

// A non-empty list of items.
#[tactic(auto, unfolding(sql_rules::specs::ReadQueries::item_list_at))]
fn item_list<'a>(alloc: Global, ahead: &Ahead<'a>) -> Result<(Selection, Ahead<'a>), ReadStop>
    ensures { Gives (item_list_at ahead.now) result }
{
    let (first, rest) = item(alloc, ahead)?;
    let (first, (rest, ahead)) = beside(first, more_items(alloc, &rest))?;
    Ok((Selection::List(ItemList { first, rest }), ahead))
}

/// A star with the given span, or items.
#[tactic(auto, unfolding(sql_rules::specs::ReadQueries::items_at))]
pub(crate) fn items<'a>(
    alloc: Global,
    ahead: &Ahead<'a>,
    star: Span,
) -> Result<(Selection, Ahead<'a>), ReadStop>
    ensures { Gives (items_at star ahead.now) result }
{
    match ahead.after_sign(Sign::Star) {
        Some(rest) => Ok((Selection::Star { span: star }, rest)),
        None => item_list(alloc, ahead),
    }
}
