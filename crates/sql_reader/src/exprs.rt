//! Parses expressions, and integers in brackets. One function reads one rule of the grammar.
ghost use Rattle.std.specs.Prelude.{◌≡◌, Bool};
ghost use Rattle.sql_rules.specs.Symbols.{OfSign};
ghost use Rattle.sql_rules.specs.Readers.{adds_at, each, mark_at};
ghost use Rattle.sql_rules.specs.ReadExprs.{atom_with, bracket_with, col_at, expr_at, factor_with};
ghost use Rattle.sql_rules.specs.ReadExprs.{int_at, ints_at, more_ints_at, prod_with, signed_with, sum_with};
ghost use Rattle.sql_token.specs.declared.sign.Sign.TheVariants as sign;
ghost use Rattle.sql_reader.specs.Answers.{Gives, Shows};

use crate::ahead::{Ahead, ReadStop, beside};
use sql_token::Sign;
use sql_tree::{Atom, Col, Expr, Factor, IntList, Prod, Signed, SignedInt};
use sqlite_items::{Boxed, Items};
use std::alloc::Global;

/// A column.
#[tactic(auto, unfolding(sql_rules::specs::ReadExprs::col_at))]
pub(crate) fn col<'a>(alloc: Global, ahead: &Ahead<'a>) -> Result<(Col, Ahead<'a>), ReadStop>
    ensures { Gives (col_at ahead.now) result }
{
    let (first, rest) = ahead.name(alloc)?;
    match rest.after_sign(Sign::Dot) {
        None => Ok((
            Col {
                table: None,
                name: first,
            },
            rest,
        )),
        Some(rest) => {
            let (name, rest) = rest.name(alloc)?;
            Ok((
                Col {
                    table: Some(first),
                    name,
                },
                rest,
            ))
        }
    }
}

/// An expression with at most the given number of levels of nesting.
#[cycle(expr)]
#[tactic(auto, using(crate::proofs::Steps::expr_level, crate::proofs::Steps::expr_none))]
pub(crate) fn expr<'a>(
    alloc: Global,
    ahead: &Ahead<'a>,
    levels: u32,
) -> Result<(Expr, Ahead<'a>), ReadStop>
    ensures { Gives (expr_at levels ahead.now) result }
{
    if levels == 0 {
        return Err(ReadStop::Syntax);
    }
    sum(alloc, ahead, levels - 1)
}

// A sum of products, in whose brackets the given number of further levels may nest.
#[cycle(expr)]
#[tactic(auto, unfolding(sql_rules::specs::ReadExprs::sum_with))]
fn sum<'a>(alloc: Global, ahead: &Ahead<'a>, inner: u32) -> Result<(Expr, Ahead<'a>), ReadStop>
    ensures { Gives (sum_with (expr_at inner) ahead.now) result }
{
    let (first, rest) = prod(alloc, ahead, inner)?;
    let (first, (rest, ahead)) = beside(first, more_prods(alloc, &rest, inner))?;
    Ok((Expr { first, rest }, ahead))
}

// The later products of a sum.
#[cycle(expr)]
fn more_prods<'a>(
    alloc: Global,
    ahead: &Ahead<'a>,
    inner: u32,
) -> Result<(Items<Signed>, Ahead<'a>), ReadStop>
    ensures { Gives (each adds_at (signed_with (expr_at inner)) ahead.now) result }
{
    let mut found = Items::new(alloc);
    let mut rest = ahead.again();
    for turn in 0..ahead.len() {
        match rest.adds() {
            None => return Ok((found, rest)),
            Some((minus, next)) => {
                let (item, next) = signed(alloc, &next, minus, inner)?;
                found.push(item)?;
                rest = next;
            }
        }
    }
    Ok((found, rest))
}

// The product after a plus or a minus.
#[cycle(expr)]
#[tactic(auto, unfolding(sql_rules::specs::ReadExprs::signed_with))]
fn signed<'a>(
    alloc: Global,
    ahead: &Ahead<'a>,
    minus: bool,
    inner: u32,
) -> Result<(Signed, Ahead<'a>), ReadStop>
    ensures { Gives (signed_with (expr_at inner) minus ahead.now) result }
{
    let (prod, rest) = prod(alloc, ahead, inner)?;
    Ok((Signed { minus, prod }, rest))
}

// A product of factors.
#[cycle(expr)]
#[tactic(auto, unfolding(sql_rules::specs::ReadExprs::prod_with))]
fn prod<'a>(alloc: Global, ahead: &Ahead<'a>, inner: u32) -> Result<(Prod, Ahead<'a>), ReadStop>
    ensures { Gives (prod_with (expr_at inner) ahead.now) result }
{
    let (first, rest) = factor(alloc, ahead, inner)?;
    let (first, (rest, ahead)) = beside(first, more_factors(alloc, &rest, inner))?;
    Ok((Prod { first, rest }, ahead))
}

// The later factors of a product.
#[cycle(expr)]
fn more_factors<'a>(
    alloc: Global,
    ahead: &Ahead<'a>,
    inner: u32,
) -> Result<(Items<Factor>, Ahead<'a>), ReadStop>
    ensures { Gives (each (mark_at (OfSign sign.Star)) (λ _. factor_with (expr_at inner)) ahead.now)
        result }
{
    let mut found = Items::new(alloc);
    let mut rest = ahead.again();
    for turn in 0..ahead.len() {
        match rest.after_sign(Sign::Star) {
            None => return Ok((found, rest)),
            Some(next) => {
                let (item, next) = factor(alloc, &next, inner)?;
                found.push(item)?;
                rest = next;
            }
        }
    }
    Ok((found, rest))
}

// An atom, and the minus before it, if any.
#[cycle(expr)]
#[tactic(auto, unfolding(sql_rules::specs::ReadExprs::factor_with))]
fn factor<'a>(alloc: Global, ahead: &Ahead<'a>, inner: u32) -> Result<(Factor, Ahead<'a>), ReadStop>
    ensures { Gives (factor_with (expr_at inner) ahead.now) result }
{
    let (minus, rest) = ahead.maybe_minus();
    let (atom, rest) = atom(alloc, &rest, inner)?;
    Ok((Factor { minus, atom }, rest))
}

// An integer, a column, or an expression in brackets.
#[cycle(expr)]
#[tactic(auto, unfolding(sql_rules::specs::ReadExprs::atom_with))]
fn atom<'a>(alloc: Global, ahead: &Ahead<'a>, inner: u32) -> Result<(Atom, Ahead<'a>), ReadStop>
    ensures { Gives (atom_with (expr_at inner) ahead.now) result }
{
    match ahead.after_sign(Sign::Open) {
        Some(inside) => bracket(alloc, &inside, inner),
        None => match ahead.number() {
            Some((n, rest)) => Ok((Atom::Int(n), rest)),
            None => {
                let (col, rest) = col(alloc, ahead)?;
                Ok((Atom::Col(col), rest))
            }
        },
    }
}

// An expression after its opening bracket, and the closing bracket.
#[cycle(expr)]
#[tactic(auto, unfolding(sql_rules::specs::ReadExprs::bracket_with))]
fn bracket<'a>(alloc: Global, ahead: &Ahead<'a>, inner: u32) -> Result<(Atom, Ahead<'a>), ReadStop>
    ensures { Gives (bracket_with (expr_at inner) ahead.now) result }
{
    let (e, rest) = expr(alloc, ahead, inner)?;
    match rest.after_sign(Sign::Close) {
        None => {
            drop(e);
            Err(ReadStop::Syntax)
        }
        Some(rest) => Ok((Atom::Bracket(Boxed::new(alloc, e)?), rest)),
    }
}

// An integer, and the minus before it, if any.
#[tactic(auto, unfolding(sql_rules::specs::ReadExprs::int_at))]
fn int<'a>(ahead: &Ahead<'a>) -> Option<(SignedInt, Ahead<'a>)>
    ensures { Shows (int_at ahead.now) result }
{
    let (minus, rest) = ahead.maybe_minus();
    let (size, rest) = rest.number()?;
    Some((SignedInt { minus, size }, rest))
}

// The integers after commas.
fn further_ints<'a>(
    alloc: Global,
    ahead: &Ahead<'a>,
) -> Result<(Items<SignedInt>, Ahead<'a>), ReadStop>
    ensures { Gives (each (mark_at (OfSign sign.Comma)) (λ _. int_at) ahead.now) result }
{
    let mut found = Items::new(alloc);
    let mut rest = ahead.again();
    for turn in 0..ahead.len() {
        match rest.after_sign(Sign::Comma) {
            None => return Ok((found, rest)),
            Some(next) => match int(&next) {
                None => return Err(ReadStop::Syntax),
                Some((item, next)) => {
                    found.push(item)?;
                    rest = next;
                }
            },
        }
    }
    Ok((found, rest))
}

// The integers after the first of a list, and the closing bracket.
#[tactic(auto, unfolding(sql_rules::specs::ReadExprs::more_ints_at))]
fn more_ints<'a>(
    alloc: Global,
    ahead: &Ahead<'a>,
    first: SignedInt,
) -> Result<(IntList, Ahead<'a>), ReadStop>
    ensures { Gives (more_ints_at first ahead.now) result }
{
    let (rest, ahead) = further_ints(alloc, ahead)?;
    match ahead.after_sign(Sign::Close) {
        None => Err(ReadStop::Syntax),
        Some(behind) => Ok((IntList { first, rest }, behind)),
    }
}

/// Integers in brackets.
#[tactic(auto, unfolding(sql_rules::specs::ReadExprs::ints_at))]
pub(crate) fn ints<'a>(alloc: Global, ahead: &Ahead<'a>) -> Result<(IntList, Ahead<'a>), ReadStop>
    ensures { Gives (ints_at ahead.now) result }
{
    let Some(rest) = ahead.after_sign(Sign::Open) else {
        return Err(ReadStop::Syntax);
    };
    match int(&rest) {
        None => Err(ReadStop::Syntax),
        Some((first, rest)) => more_ints(alloc, &rest, first),
    }
}
