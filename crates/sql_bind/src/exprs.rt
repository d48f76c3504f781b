//! Bound expressions, with columns in place of names. Each function binds one level of the tree.
ghost use Rattle.std.specs.Prelude.{◌≡◌, map, IfOk};
ghost use Rattle.bind_rules.specs.Bounds.{expr_by};
ghost use Rattle.sql_bind.specs.Layers.{bound_atom, bound_factor, bound_prod, bound_signed};

use bind_checks::Columns;
use sql_bound::{BoundAtom, BoundExpr, BoundFactor, BoundProd, BoundSigned};
use sql_tree::{Atom, Expr, Factor, Prod, Signed};
use sqlite_items::{Boxed, Items};
use std::alloc::{AllocError, Global};

/// Binds an expression. Allocates memory for it.
#[cycle(bind)]
#[tactic(auto, using(crate::proofs::ExprLayers::expr_parts))]
pub(crate) fn bound_expr<C: Columns>(
    alloc: Global,
    columns: &C,
    expr: &Expr,
) -> Result<BoundExpr, AllocError>
    ensures { IfOk result (λ bound. bound ≡ expr_by (C.means columns.now) expr.now) }
{
    let first = bound_prod(alloc, columns, &expr.first)?;
    let rest = bound_signeds(alloc, columns, expr.rest.as_slice())?;
    Ok(BoundExpr { first, rest })
}

// Binds the products of a sum after the first.
#[cycle(bind)]
#[tactic(auto, using(query_walks::proofs::Loops::map_more))]
fn bound_signeds<C: Columns>(
    alloc: Global,
    columns: &C,
    rest: &[Signed],
) -> Result<Items<BoundSigned>, AllocError>
    ensures { IfOk result (λ bound. bound ≡ map (bound_signed (C.means columns.now)) rest.now) }
{
    let mut found = Items::new(alloc);
    for signed in rest {
        found.push(bound_signed(alloc, columns, signed)?)?;
    }
    Ok(found)
}

// Binds one such product.
#[cycle(bind)]
#[tactic(auto, using(crate::proofs::ExprLayers::signed_parts))]
fn bound_signed<C: Columns>(
    alloc: Global,
    columns: &C,
    signed: &Signed,
) -> Result<BoundSigned, AllocError>
    ensures { IfOk result (λ bound. bound ≡ bound_signed (C.means columns.now) signed.now) }
{
    let prod = bound_prod(alloc, columns, &signed.prod)?;
    Ok(BoundSigned {
        minus: signed.minus,
        prod,
    })
}

// Binds a product.
#[cycle(bind)]
#[tactic(auto, using(crate::proofs::ExprLayers::prod_parts))]
fn bound_prod<C: Columns>(alloc: Global, columns: &C, prod: &Prod) -> Result<BoundProd, AllocError>
    ensures { IfOk result (λ bound. bound ≡ bound_prod (C.means columns.now) prod.now) }
{
    let first = bound_factor(alloc, columns, &prod.first)?;
    let rest = bound_factors(alloc, columns, prod.rest.as_slice())?;
    Ok(BoundProd { first, rest })
}

// Binds the factors of a product after the first.
#[cycle(bind)]
#[tactic(auto, using(query_walks::proofs::Loops::map_more))]
fn bound_factors<C: Columns>(
    alloc: Global,
    columns: &C,
    rest: &[Factor],
) -> Result<Items<BoundFactor>, AllocError>
    ensures { IfOk result (λ bound. bound ≡ map (bound_factor (C.means columns.now)) rest.now) }
{
    let mut found = Items::new(alloc);
    for factor in rest {
        found.push(bound_factor(alloc, columns, factor)?)?;
    }
    Ok(found)
}

// Binds a factor.
#[cycle(bind)]
#[tactic(auto, using(crate::proofs::ExprLayers::factor_parts))]
fn bound_factor<C: Columns>(
    alloc: Global,
    columns: &C,
    factor: &Factor,
) -> Result<BoundFactor, AllocError>
    ensures { IfOk result (λ bound. bound ≡ bound_factor (C.means columns.now) factor.now) }
{
    let atom = bound_atom(alloc, columns, &factor.atom)?;
    Ok(BoundFactor {
        minus: factor.minus,
        atom,
    })
}

// Binds an atom.
#[cycle(bind)]
#[tactic(auto, using(crate::proofs::ExprLayers::int_atom, crate::proofs::ExprLayers::col_atom, crate::proofs::ExprLayers::bracket_atom))]
fn bound_atom<C: Columns>(alloc: Global, columns: &C, atom: &Atom) -> Result<BoundAtom, AllocError>
    ensures { IfOk result (λ bound. bound ≡ bound_atom (C.means columns.now) atom.now) }
{
    match atom {
        Atom::Int(n) => Ok(BoundAtom::Int(*n)),
        Atom::Col(col) => Ok(BoundAtom::Col(columns.column(col))),
        Atom::Bracket(e) => bound_bracket(alloc, columns, e.get()),
    }
}

// Binds an expression in brackets.
#[cycle(bind)]
#[tactic(auto, using(crate::proofs::ExprLayers::bracket_atom))]
fn bound_bracket<C: Columns>(alloc: Global, columns: &C, e: &Expr) -> Result<BoundAtom, AllocError>
    ensures { IfOk result (λ bound. bound ≡ bound_atom (C.means columns.now) (Atom.Bracket e.now)) }
{
    let inner = bound_expr(alloc, columns, e)?;
    Ok(BoundAtom::Bracket(Boxed::new(alloc, inner)?))
}
