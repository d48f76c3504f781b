//! Copies of expressions. Each function copies one level of the tree, and its list first: if an allocation then fails,
//! the list is dropped as one.

ghost use Rattle.std.specs.Prelude.{◌≡◌, IfOk};
ghost use Rattle.answer_rules.specs.ChunkQueries.{of_col};
ghost use Rattle.sql_bound.specs.declared.expr.BoundAtom.TheVariants.{Bracket};

use sql_bound::{BoundAtom, BoundCol, BoundExpr, BoundFactor, BoundProd, BoundSigned};
use sqlite_items::{Boxed, Items};
use std::alloc::{AllocError, Global};

/// Copies an expression. Allocates memory for the copy.
#[cycle(copied)]
#[tactic(auto, using(crate::proofs::Layers::expr_again))]
pub(crate) fn copied_expr(alloc: Global, e: &BoundExpr) -> Result<BoundExpr, AllocError>
    ensures { IfOk result (λ copy. copy ≡ e.now) }
{
    let rest = copied_signeds(alloc, e.rest.as_slice())?;
    let first = copied_prod(alloc, &e.first)?;
    Ok(BoundExpr { first, rest })
}

// Copies the products of a sum after the first.
#[cycle(copied)]
#[tactic(auto, using(crate::proofs::Loops::one_more))]
fn copied_signeds(alloc: Global, rest: &[BoundSigned]) -> Result<Items<BoundSigned>, AllocError>
    ensures { IfOk result (λ copy. copy ≡ rest.now) }
{
    let mut found = Items::new(alloc);
    for signed in rest {
        found.push(copied_signed(alloc, signed)?)?;
    }
    Ok(found)
}

// Copies one such product.
#[cycle(copied)]
#[tactic(auto, using(crate::proofs::Layers::signed_again))]
fn copied_signed(alloc: Global, signed: &BoundSigned) -> Result<BoundSigned, AllocError>
    ensures { IfOk result (λ copy. copy ≡ signed.now) }
{
    let prod = copied_prod(alloc, &signed.prod)?;
    Ok(BoundSigned {
        minus: signed.minus,
        prod,
    })
}

// Copies a product.
#[cycle(copied)]
#[tactic(auto, using(crate::proofs::Layers::prod_again))]
fn copied_prod(alloc: Global, prod: &BoundProd) -> Result<BoundProd, AllocError>
    ensures { IfOk result (λ copy. copy ≡ prod.now) }
{
    let rest = copied_factors(alloc, prod.rest.as_slice())?;
    let first = copied_factor(alloc, &prod.first)?;
    Ok(BoundProd { first, rest })
}

// Copies the factors of a product after the first.
#[cycle(copied)]
#[tactic(auto, using(crate::proofs::Loops::one_more))]
fn copied_factors(alloc: Global, rest: &[BoundFactor]) -> Result<Items<BoundFactor>, AllocError>
    ensures { IfOk result (λ copy. copy ≡ rest.now) }
{
    let mut found = Items::new(alloc);
    for factor in rest {
        found.push(copied_factor(alloc, factor)?)?;
    }
    Ok(found)
}

// Copies a factor.
#[cycle(copied)]
#[tactic(auto, using(crate::proofs::Layers::factor_again))]
fn copied_factor(alloc: Global, factor: &BoundFactor) -> Result<BoundFactor, AllocError>
    ensures { IfOk result (λ copy. copy ≡ factor.now) }
{
    let atom = copied_atom(alloc, &factor.atom)?;
    Ok(BoundFactor {
        minus: factor.minus,
        atom,
    })
}

// Copies an atom.
#[cycle(copied)]
fn copied_atom(alloc: Global, atom: &BoundAtom) -> Result<BoundAtom, AllocError>
    ensures { IfOk result (λ copy. copy ≡ atom.now) }
{
    match atom {
        BoundAtom::Int(n) => Ok(BoundAtom::Int(*n)),
        BoundAtom::Col(col) => Ok(BoundAtom::Col(*col)),
        BoundAtom::Bracket(e) => copied_bracket(alloc, e.get()),
    }
}

// Copies an expression in brackets.
#[cycle(copied)]
fn copied_bracket(alloc: Global, e: &BoundExpr) -> Result<BoundAtom, AllocError>
    ensures { IfOk result (λ copy. copy ≡ Bracket e.now) }
{
    let inner = copied_expr(alloc, e)?;
    Ok(BoundAtom::Bracket(Boxed::new(alloc, inner)?))
}

/// Returns a column as an expression. Does not allocate.
#[tactic(auto, using(crate::proofs::Layers::col_alone))]
pub(crate) fn of_col(alloc: Global, col: BoundCol) -> BoundExpr
    ensures { result ≡ of_col col }
{
    let first = BoundFactor {
        minus: false,
        atom: BoundAtom::Col(col),
    };
    BoundExpr {
        first: BoundProd {
            first,
            rest: Items::new(alloc),
        },
        rest: Items::new(alloc),
    }
}
