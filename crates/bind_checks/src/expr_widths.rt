//! The largest size of the numbers of an expression, if none can be above 2^100.
ghost use Rattle.std.specs.Prelude.{◌≡◌, ◌+◌, ◌*◌, Some, map, nat_abs};
ghost use Rattle.bind_rules.specs.Widths.{is_too_wide, width_of};
ghost use Rattle.bind_checks.specs.Narrow.{atom_width, capped, factor_width, narrow, narrow_both, narrow_factor};
ghost use Rattle.bind_checks.specs.Narrow.{narrow_from_left, narrow_signed, prod_width, signed_width};

use crate::columns::Columns;
use sky_vector::limits::NUMBER_MOST;
use sql_tree::{Atom, Expr, Factor, Int, Prod, Signed};

/// Returns whether some number of the expression may be above 2^100 in size.
pub(crate) fn is_too_wide<C: Columns>(columns: &C, e: &Expr) -> bool
    ensures { result ≡ is_too_wide (C.size columns.now) e.now }
{
    match narrow_expr(columns, e) {
        Some(_) => false,
        None => true,
    }
}

// Returns the largest size of a number of the expression, if none can be above 2^100.
#[cycle(narrow)]
fn narrow_expr<C: Columns>(columns: &C, e: &Expr) -> Option<u128>
    ensures { result ≡ narrow (width_of (C.size columns.now) e.now) }
{
    match narrow_prod(columns, &e.first) {
        Some(width) => narrow_sum(columns, width, e.rest.as_slice()),
        None => None,
    }
}

// Adds the products of a sum after the first.
#[cycle(narrow)]
fn narrow_sum<C: Columns>(columns: &C, first: u128, rest: &[Signed]) -> Option<u128>
    ensures { result ≡
        narrow_from_left (λ a b. a + b) (Some first) (map (narrow_signed (C.size columns.now)) rest.now) }
{
    let mut sum = first;
    for signed in rest {
        match with_signed(columns, sum, signed) {
            Some(width) => sum = width,
            None => return None,
        }
    }
    Some(sum)
}

// Adds one such product.
#[cycle(narrow)]
fn with_signed<C: Columns>(columns: &C, sum: u128, signed: &Signed) -> Option<u128>
    ensures { result ≡
        narrow_both (λ a b. a + b) (Some sum) (narrow_signed (C.size columns.now) signed.now) }
{
    match narrow_prod(columns, &signed.prod) {
        Some(width) => capped_sum(sum, width),
        None => None,
    }
}

// Returns the largest size of a product.
#[cycle(narrow)]
fn narrow_prod<C: Columns>(columns: &C, prod: &Prod) -> Option<u128>
    ensures { result ≡ narrow (prod_width (C.size columns.now) prod.now) }
{
    match narrow_factor(columns, &prod.first) {
        Some(width) => narrow_product(columns, width, prod.rest.as_slice()),
        None => None,
    }
}

// Multiplies by the factors of a product after the first.
#[cycle(narrow)]
fn narrow_product<C: Columns>(columns: &C, first: u128, rest: &[Factor]) -> Option<u128>
    ensures { result ≡
        narrow_from_left (λ a b. a * b) (Some first) (map (narrow_factor (C.size columns.now)) rest.now) }
{
    let mut product = first;
    for factor in rest {
        match with_factor(columns, product, factor) {
            Some(width) => product = width,
            None => return None,
        }
    }
    Some(product)
}

// Multiplies by one such factor.
#[cycle(narrow)]
fn with_factor<C: Columns>(columns: &C, product: u128, factor: &Factor) -> Option<u128>
    ensures { result ≡
        narrow_both (λ a b. a * b) (Some product) (narrow_factor (C.size columns.now) factor.now) }
{
    match narrow_factor(columns, factor) {
        Some(width) => capped_product(product, width),
        None => None,
    }
}

// Returns the largest size of a factor, whatever its sign.
#[cycle(narrow)]
fn narrow_factor<C: Columns>(columns: &C, factor: &Factor) -> Option<u128>
    ensures { result ≡ narrow_factor (C.size columns.now) factor.now }
{
    narrow_atom(columns, &factor.atom)
}

// Returns the largest size of an int, a column, or an expression in brackets.
#[cycle(narrow)]
fn narrow_atom<C: Columns>(columns: &C, atom: &Atom) -> Option<u128>
    ensures { result ≡ narrow (atom_width (C.size columns.now) atom.now) }
{
    match atom {
        Atom::Int(n) => capped(size_of(n)),
        Atom::Col(col) => capped(columns.size(col)),
        Atom::Bracket(e) => narrow_expr(columns, e.get()),
    }
}

// Returns the size of an int.
fn size_of(n: &Int) -> u128
    ensures { result ≡ nat_abs n.now }
{
    u128::from(n.get().unsigned_abs())
}

// Returns the number, if it is at most 2^100.
#[tactic(auto, unfolding(crate::specs::Narrow::capped))]
fn capped(n: u128) -> Option<u128>
    ensures { result ≡ capped n }
{
    if n > NUMBER_MOST { None } else { Some(n) }
}

// Returns the sum, if it is at most 2^100.
#[tactic(auto, unfolding(crate::specs::Narrow::capped))]
fn capped_sum(a: u128, b: u128) -> Option<u128>
    ensures { result ≡ capped (a + b) }
{
    match a.checked_add(b) {
        Some(sum) => capped(sum),
        None => None,
    }
}

// Returns the product, if it is at most 2^100.
#[tactic(auto, unfolding(crate::specs::Narrow::capped))]
fn capped_product(a: u128, b: u128) -> Option<u128>
    ensures { result ≡ capped (a * b) }
{
    match a.checked_mul(b) {
        Some(product) => capped(product),
        None => None,
    }
}
