//! Parses predicates without conditions inside. One function reads one rule of the grammar.
ghost use Rattle.std.specs.Prelude.{◌≡◌};
ghost use Rattle.sql_rules.specs.ReadExprs.{expr_at};
ghost use Rattle.sql_rules.specs.ReadConds.{area_with, between_with, chord_at, chord_behind, chord_by};
ghost use Rattle.sql_rules.specs.ReadConds.{null_at, range_with, said_with};
ghost use Rattle.sql_reader.specs.Answers.{Gives};
ghost use Rattle.sql_reader.specs.Preds.{valued_at};

use crate::ahead::{Ahead, ReadStop, beside};
use crate::exprs::{expr, ints};
use sql_token::{Keyword, Sign, Span};
use sql_tree::{AreaKind, Cmp, Expr, Name, Pred};
use std::alloc::Global;

// The rest of a predicate after BETWEEN.
#[tactic(auto, unfolding(sql_rules::specs::ReadConds::between_with))]
fn between<'a>(
    alloc: Global,
    ahead: &Ahead<'a>,
    value: Expr,
    not: bool,
    levels: u32,
) -> Result<(Pred, Ahead<'a>), ReadStop>
    ensures { Gives (between_with (expr_at levels) value not ahead.now) result }
{
    let (value, (low, rest)) = beside(value, expr(alloc, ahead, levels))?;
    let Some(rest) = rest.after_key(Keyword::And) else {
        drop((value, low));
        return Err(ReadStop::Syntax);
    };
    let ((value, low), (high, rest)) = beside((value, low), expr(alloc, &rest, levels))?;
    Ok((
        Pred::Between {
            not,
            value,
            low,
            high,
        },
        rest,
    ))
}

// The rest of a predicate after an expression and NOT, or after an expression if NOT is not there.
#[tactic(auto, unfolding(sql_rules::specs::ReadConds::range_with))]
fn range<'a>(
    alloc: Global,
    ahead: &Ahead<'a>,
    value: Expr,
    not: bool,
    levels: u32,
) -> Result<(Pred, Ahead<'a>), ReadStop>
    ensures { Gives (range_with (expr_at levels) value not ahead.now) result }
{
    match ahead.after_key(Keyword::Between) {
        Some(rest) => between(alloc, &rest, value, not, levels),
        None => match ahead.after_key(Keyword::In) {
            Some(rest) => {
                let (value, (list, rest)) = beside(value, ints(alloc, &rest))?;
                Ok((Pred::Among { not, value, list }, rest))
            }
            None => {
                drop(value);
                Err(ReadStop::Syntax)
            }
        },
    }
}

// The rest of a predicate after IS.
#[tactic(auto, unfolding(sql_rules::specs::ReadConds::null_at))]
fn null<'a>(ahead: &Ahead<'a>, value: Expr) -> Result<(Pred, Ahead<'a>), ReadStop>
    ensures { Gives (null_at value ahead.now) result }
{
    let (not, rest) = ahead.maybe_key(Keyword::Not);
    match rest.after_key(Keyword::Null) {
        Some(rest) => Ok((Pred::IsNull { not, value }, rest)),
        None => {
            drop(value);
            Err(ReadStop::Syntax)
        }
    }
}

// The rest of a predicate after its first expression. Its brackets have at most the given number of levels of nesting.
#[tactic(auto, unfolding(sql_rules::specs::ReadConds::said_with))]
fn said<'a>(
    alloc: Global,
    ahead: &Ahead<'a>,
    value: Expr,
    levels: u32,
) -> Result<(Pred, Ahead<'a>), ReadStop>
    ensures { Gives (said_with (expr_at levels) value ahead.now) result }
{
    match ahead.cmp() {
        Some((op, rest)) => {
            let (left, (right, rest)) = beside(value, expr(alloc, &rest, levels))?;
            Ok((Pred::Compare { left, op, right }, rest))
        }
        None => match ahead.after_key(Keyword::Is) {
            Some(rest) => null(&rest, value),
            None => {
                let (not, rest) = ahead.maybe_key(Keyword::Not);
                range(alloc, &rest, value, not, levels)
            }
        },
    }
}

/// An expression with at most the given number of levels of nesting, and the rest of its predicate.
pub(crate) fn valued<'a>(
    alloc: Global,
    ahead: &Ahead<'a>,
    levels: u32,
) -> Result<(Pred, Ahead<'a>), ReadStop>
    ensures { Gives (valued_at (expr_at levels) ahead.now) result }
{
    let (value, rest) = expr(alloc, ahead, levels)?;
    said(alloc, &rest, value, levels)
}

/// The rest of an area test after the name of its function.
#[tactic(auto, unfolding(sql_rules::specs::ReadConds::area_with))]
pub(crate) fn area<'a>(
    alloc: Global,
    ahead: &Ahead<'a>,
    kind: AreaKind,
    span: Span,
) -> Result<(Pred, Ahead<'a>), ReadStop>
    ensures { Gives (area_with (record { kind = kind; span = span }) ahead.now) result }
{
    let (args, rest) = ints(alloc, ahead)?;
    Ok((Pred::Area { kind, span, args }, rest))
}

// The rest of a chord test after its comparison operator.
fn chord_by<'a>(
    ahead: &Ahead<'a>,
    left: Name,
    right: Name,
    op: Cmp,
) -> Result<(Pred, Ahead<'a>), ReadStop>
    ensures { Gives (chord_by left right op ahead.now) result }
{
    let strict = match op {
        Cmp::AtMost => false,
        Cmp::Less => true,
        _ => return Err(ReadStop::Syntax),
    };
    match ahead.number() {
        Some((n, rest)) => Ok((
            Pred::Chord {
                left,
                right,
                strict,
                n,
            },
            rest,
        )),
        None => Err(ReadStop::Syntax),
    }
}

// The rest of a chord test after its first name.
#[tactic(auto, unfolding(sql_rules::specs::ReadConds::chord_behind))]
fn chord_behind<'a>(
    alloc: Global,
    ahead: &Ahead<'a>,
    left: Name,
) -> Result<(Pred, Ahead<'a>), ReadStop>
    ensures { Gives (chord_behind left ahead.now) result }
{
    let Some(rest) = ahead.after_sign(Sign::Comma) else {
        return Err(ReadStop::Syntax);
    };
    let (right, rest) = rest.name(alloc)?;
    let Some(rest) = rest.after_sign(Sign::Close) else {
        return Err(ReadStop::Syntax);
    };
    match rest.cmp() {
        Some((op, rest)) => chord_by(&rest, left, right, op),
        None => Err(ReadStop::Syntax),
    }
}

/// The rest of a chord test after CHORD2.
#[tactic(auto, unfolding(sql_rules::specs::ReadConds::chord_at))]
pub(crate) fn chord<'a>(alloc: Global, ahead: &Ahead<'a>) -> Result<(Pred, Ahead<'a>), ReadStop>
    ensures { Gives (chord_at ahead.now) result }
{
    let Some(rest) = ahead.after_sign(Sign::Open) else {
        return Err(ReadStop::Syntax);
    };
    let (left, rest) = rest.name(alloc)?;
    chord_behind(alloc, &rest, left)
}
