//! Parses conditions. One function reads one rule of the grammar.
ghost use Rattle.std.specs.Prelude.{◌≡◌, ◌<◌, ◌-◌};
ghost use Rattle.sql_rules.specs.Symbols.{OfKeyword};
ghost use Rattle.sql_rules.specs.Readers.{each, mark_at};
ghost use Rattle.sql_rules.specs.ReadExprs.{expr_at};
ghost use Rattle.sql_rules.specs.ReadConds.{any_with, cond_at, conj_with, group_with, neg_with};
ghost use Rattle.sql_rules.specs.ReadConds.{other_with, pred_with};
ghost use Rattle.sql_token.specs.declared.keyword.Keyword.TheVariants as keyword;
ghost use Rattle.sql_reader.specs.Answers.{Gives};

use crate::ahead::{Ahead, ReadStop, beside};
use crate::preds::{area, chord, valued};
use crate::skip::skip_expr;
use sql_token::{Keyword, Sign};
use sql_tree::{Cond, Conj, Neg, Pred};
use sqlite_items::{Boxed, Items};
use std::alloc::Global;

/// A condition with at most the given number of levels of nesting.
#[cycle(cond)]
#[tactic(auto, using(crate::proofs::Steps::cond_level, crate::proofs::Steps::cond_none))]
pub(crate) fn cond<'a>(
    alloc: Global,
    ahead: &Ahead<'a>,
    levels: u32,
) -> Result<(Boxed<Cond>, Ahead<'a>), ReadStop>
    ensures { Gives (cond_at levels ahead.now) result }
{
    if levels == 0 {
        return Err(ReadStop::Syntax);
    }
    any(alloc, ahead, levels)
}

// Conjunctions joined by OR.
#[cycle(cond)]
#[tactic(auto, unfolding(sql_rules::specs::ReadConds::any_with))]
fn any<'a>(
    alloc: Global,
    ahead: &Ahead<'a>,
    levels: u32,
) -> Result<(Boxed<Cond>, Ahead<'a>), ReadStop>
    requires { 0 < levels }
    ensures { Gives (any_with (expr_at levels) (cond_at (levels - 1)) ahead.now) result }
{
    let (first, rest) = conj(alloc, ahead, levels)?;
    let (first, (rest, ahead)) = beside(first, more_conjs(alloc, &rest, levels))?;
    Ok((Boxed::new(alloc, Cond { first, rest })?, ahead))
}

// The later conjunctions of a condition.
#[cycle(cond)]
fn more_conjs<'a>(
    alloc: Global,
    ahead: &Ahead<'a>,
    levels: u32,
) -> Result<(Items<Conj>, Ahead<'a>), ReadStop>
    requires { 0 < levels }
    ensures { Gives (each (mark_at (OfKeyword keyword.Or))
        (λ _. conj_with (expr_at levels) (cond_at (levels - 1))) ahead.now) result }
{
    let mut found = Items::new(alloc);
    let mut rest = ahead.again();
    for turn in 0..ahead.len() {
        match rest.after_key(Keyword::Or) {
            None => return Ok((found, rest)),
            Some(next) => {
                let (item, next) = conj(alloc, &next, levels)?;
                found.push(item)?;
                rest = next;
            }
        }
    }
    Ok((found, rest))
}

// Predicates joined by AND.
#[cycle(cond)]
#[tactic(auto, unfolding(sql_rules::specs::ReadConds::conj_with))]
fn conj<'a>(alloc: Global, ahead: &Ahead<'a>, levels: u32) -> Result<(Conj, Ahead<'a>), ReadStop>
    requires { 0 < levels }
    ensures { Gives (conj_with (expr_at levels) (cond_at (levels - 1)) ahead.now) result }
{
    let (first, rest) = neg(alloc, ahead, levels)?;
    let (first, (rest, ahead)) = beside(first, more_negs(alloc, &rest, levels))?;
    Ok((Conj { first, rest }, ahead))
}

// The later predicates of a conjunction.
#[cycle(cond)]
fn more_negs<'a>(
    alloc: Global,
    ahead: &Ahead<'a>,
    levels: u32,
) -> Result<(Items<Neg>, Ahead<'a>), ReadStop>
    requires { 0 < levels }
    ensures { Gives (each (mark_at (OfKeyword keyword.And))
        (λ _. neg_with (expr_at levels) (cond_at (levels - 1))) ahead.now) result }
{
    let mut found = Items::new(alloc);
    let mut rest = ahead.again();
    for turn in 0..ahead.len() {
        match rest.after_key(Keyword::And) {
            None => return Ok((found, rest)),
            Some(next) => {
                let (item, next) = neg(alloc, &next, levels)?;
                found.push(item)?;
                rest = next;
            }
        }
    }
    Ok((found, rest))
}

// A predicate, and the NOT before it.
#[cycle(cond)]
#[tactic(auto, unfolding(sql_rules::specs::ReadConds::neg_with))]
fn neg<'a>(alloc: Global, ahead: &Ahead<'a>, levels: u32) -> Result<(Neg, Ahead<'a>), ReadStop>
    requires { 0 < levels }
    ensures { Gives (neg_with (expr_at levels) (cond_at (levels - 1)) ahead.now) result }
{
    let (not, rest) = ahead.maybe_key(Keyword::Not);
    match pred(alloc, &rest, levels) {
        Ok((pred, rest)) => Ok((Neg { not, pred }, rest)),
        Err(why) => Err(why),
    }
}

// An expression and the rest of its predicate, or another predicate if no expression is first.
#[cycle(cond)]
#[tactic(auto, using(crate::proofs::Skips::pred_valued, crate::proofs::Skips::pred_other))]
fn pred<'a>(alloc: Global, ahead: &Ahead<'a>, levels: u32) -> Result<(Pred, Ahead<'a>), ReadStop>
    requires { 0 < levels }
    ensures { Gives (pred_with (expr_at levels) (cond_at (levels - 1)) ahead.now) result }
{
    match skip_expr(ahead, levels) {
        Some(behind) => valued(alloc, ahead, levels),
        None => other(alloc, ahead, levels),
    }
}

// An area test, a chord test, or a condition in brackets.
#[cycle(cond)]
#[tactic(auto, unfolding(sql_rules::specs::ReadConds::other_with))]
fn other<'a>(alloc: Global, ahead: &Ahead<'a>, levels: u32) -> Result<(Pred, Ahead<'a>), ReadStop>
    requires { 0 < levels }
    ensures { Gives (other_with (cond_at (levels - 1)) ahead.now) result }
{
    if let Some((word, rest)) = ahead.area() {
        return area(alloc, &rest, word.0, word.1);
    }
    if let Some(rest) = ahead.after_key(Keyword::Chord2) {
        return chord(alloc, &rest);
    }
    match ahead.after_sign(Sign::Open) {
        Some(inside) => group(alloc, &inside, levels),
        None => Err(ReadStop::Syntax),
    }
}

// A condition after its opening bracket, and the closing bracket.
#[cycle(cond)]
#[tactic(auto, unfolding(sql_rules::specs::ReadConds::group_with))]
fn group<'a>(alloc: Global, ahead: &Ahead<'a>, levels: u32) -> Result<(Pred, Ahead<'a>), ReadStop>
    requires { 0 < levels }
    ensures { Gives (group_with (cond_at (levels - 1)) ahead.now) result }
{
    let (inner, rest) = cond(alloc, ahead, levels - 1)?;
    match rest.after_sign(Sign::Close) {
        None => Err(ReadStop::Syntax),
        Some(rest) => Ok((Pred::Bracket(inner), rest)),
    }
}
