//! Skips an expression without building its tree.
//!
//! A bracket may open an expression or a condition, and only its end shows which. So its content is skipped first. To
//! build a tree and throw it away, at each of 32 nested brackets, would cost 32 trees.
ghost use Rattle.std.specs.Prelude.{◌≡◌};
ghost use Rattle.sql_rules.specs.Symbols.{OfSign};
ghost use Rattle.sql_rules.specs.Readers.{adds_at, each, mark_at};
ghost use Rattle.sql_rules.specs.ReadExprs.{atom_with, bracket_with, col_at, expr_at, factor_with};
ghost use Rattle.sql_rules.specs.ReadExprs.{prod_with, signed_with, sum_with};
ghost use Rattle.sql_token.specs.declared.sign.Sign.TheVariants as sign;
ghost use Rattle.sql_reader.specs.Answers.{rest_of};

use crate::ahead::Ahead;
use sql_token::Sign;

// The rest after a column.
#[tactic(auto, using(crate::proofs::Skips::col_none, crate::proofs::Skips::col_plain, crate::proofs::Skips::col_of_table))]
fn skip_col<'a>(ahead: &Ahead<'a>) -> Option<Ahead<'a>>
    ensures { rest_of (col_at ahead.now) ≡ result }
{
    let rest = ahead.after_name()?;
    match rest.after_sign(Sign::Dot) {
        None => Some(rest),
        Some(rest) => rest.after_name(),
    }
}

/// The rest after an expression with at most the given number of levels of nesting. Does not allocate.
#[cycle(skip)]
#[tactic(auto, using(crate::proofs::Steps::expr_level, crate::proofs::Steps::expr_none))]
pub(crate) fn skip_expr<'a>(ahead: &Ahead<'a>, levels: u32) -> Option<Ahead<'a>>
    ensures { rest_of (expr_at levels ahead.now) ≡ result }
{
    if levels == 0 {
        return None;
    }
    skip_sum(ahead, levels - 1)
}

// The rest after a sum of products.
#[cycle(skip)]
#[tactic(auto, using(crate::proofs::Skips::sum_none, crate::proofs::Skips::sum_some))]
fn skip_sum<'a>(ahead: &Ahead<'a>, inner: u32) -> Option<Ahead<'a>>
    ensures { rest_of (sum_with (expr_at inner) ahead.now) ≡ result }
{
    let rest = skip_prod(ahead, inner)?;
    skip_prods(&rest, inner)
}

// The rest after the later products of a sum.
#[cycle(skip)]
fn skip_prods<'a>(ahead: &Ahead<'a>, inner: u32) -> Option<Ahead<'a>>
    ensures { rest_of (each adds_at (signed_with (expr_at inner)) ahead.now) ≡ result }
{
    let mut rest = ahead.again();
    for turn in 0..ahead.len() {
        match rest.adds() {
            None => return Some(rest),
            Some((minus, next)) => {
                rest = skip_prod(&next, inner)?;
            }
        }
    }
    Some(rest)
}

// The rest after a product of factors.
#[cycle(skip)]
#[tactic(auto, using(crate::proofs::Skips::prod_none))]
fn skip_prod<'a>(ahead: &Ahead<'a>, inner: u32) -> Option<Ahead<'a>>
    ensures { rest_of (prod_with (expr_at inner) ahead.now) ≡ result }
{
    let rest = skip_factor(ahead, inner)?;
    skip_factors(&rest, inner)
}

// The rest after the later factors of a product.
#[cycle(skip)]
fn skip_factors<'a>(ahead: &Ahead<'a>, inner: u32) -> Option<Ahead<'a>>
    ensures { rest_of
        (each (mark_at (OfSign sign.Star)) (λ _. factor_with (expr_at inner)) ahead.now) ≡ result }
{
    let mut rest = ahead.again();
    for turn in 0..ahead.len() {
        match rest.after_sign(Sign::Star) {
            None => return Some(rest),
            Some(next) => {
                rest = skip_factor(&next, inner)?;
            }
        }
    }
    Some(rest)
}

// The rest after an atom, and the minus before it.
#[cycle(skip)]
fn skip_factor<'a>(ahead: &Ahead<'a>, inner: u32) -> Option<Ahead<'a>>
    ensures { rest_of (factor_with (expr_at inner) ahead.now) ≡ result }
{
    let (minus, rest) = ahead.maybe_minus();
    skip_atom(&rest, inner)
}

// The rest after an integer, a column, or an expression in brackets.
#[cycle(skip)]
#[tactic(auto, using(crate::proofs::Skips::atom_open, crate::proofs::Skips::atom_int, crate::proofs::Skips::atom_col))]
fn skip_atom<'a>(ahead: &Ahead<'a>, inner: u32) -> Option<Ahead<'a>>
    ensures { rest_of (atom_with (expr_at inner) ahead.now) ≡ result }
{
    match ahead.after_sign(Sign::Open) {
        Some(inside) => skip_bracket(&inside, inner),
        None => match ahead.number() {
            Some((n, rest)) => Some(rest),
            None => skip_col(ahead),
        },
    }
}

// The rest after the closing bracket of an expression.
#[cycle(skip)]
#[tactic(auto, using(crate::proofs::Skips::bracket_none))]
fn skip_bracket<'a>(ahead: &Ahead<'a>, inner: u32) -> Option<Ahead<'a>>
    ensures { rest_of (bracket_with (expr_at inner) ahead.now) ≡ result }
{
    let rest = skip_expr(ahead, inner)?;
    rest.after_sign(Sign::Close)
}
