//! Compares expressions up to their spans.
ghost use Rattle.std.specs.Prelude.{◌≡◌, ◌↔◌, IsTrue, map};
ghost use Rattle.std.specs.Option.{option_map};
ghost use Rattle.sql_tree.specs.Bare.{bare_name, bare_col, bare_atom, bare_expr, bare_factor, bare_prod, bare_signed};

use crate::expr::{Atom, Expr, Factor, Prod, Signed};
use crate::name::{Col, Name};
use sql_token::Int;

pub(crate) fn same_int(a: &Int, b: &Int) -> bool
    ensures { IsTrue result ↔ (a.now ≡ b.now) }
{
    a.get() == b.get()
}

pub(crate) fn same_name(a: &Name, b: &Name) -> bool
    ensures { IsTrue result ↔ (bare_name a.now ≡ bare_name b.now) }
{
    a.text.as_slice() == b.text.as_slice()
}

pub(crate) fn same_names(a: &Option<Name>, b: &Option<Name>) -> bool
    ensures { IsTrue result ↔ (option_map bare_name a.now ≡ option_map bare_name b.now) }
{
    match (a, b) {
        (None, None) => true,
        (Some(a), Some(b)) => same_name(a, b),
        _ => false,
    }
}

pub(crate) fn same_col(a: &Col, b: &Col) -> bool
    ensures { IsTrue result ↔ (bare_col a.now ≡ bare_col b.now) }
{
    same_names(&a.table, &b.table) && same_name(&a.name, &b.name)
}

#[cycle(same)]
#[tactic(auto, using(crate::proofs::Parts::expr_whole, crate::proofs::Parts::expr_first, crate::proofs::Parts::expr_rest))]
pub(crate) fn same_expr(a: &Expr, b: &Expr) -> bool
    ensures { IsTrue result ↔ (bare_expr a.now ≡ bare_expr b.now) }
{
    same_prod(&a.first, &b.first) && same_signeds(a.rest.as_slice(), b.rest.as_slice())
}

#[cycle(same)]
#[tactic(auto, using(crate::proofs::Lists::same_lengths, crate::proofs::Lists::same_item, crate::proofs::Lists::one_more, crate::proofs::Lists::all_taken))]
fn same_signeds(a: &[Signed], b: &[Signed]) -> bool
    ensures { IsTrue result ↔ (map bare_signed a.now ≡ map bare_signed b.now) }
{
    if a.len() != b.len() {
        return false;
    }
    for at in 0..a.len() {
        if !same_signed(&a[at], &b[at]) {
            return false;
        }
    }
    true
}

#[cycle(same)]
#[tactic(auto, using(crate::proofs::Parts::signed_whole, crate::proofs::Parts::signed_minus, crate::proofs::Parts::signed_prod))]
fn same_signed(a: &Signed, b: &Signed) -> bool
    ensures { IsTrue result ↔ (bare_signed a.now ≡ bare_signed b.now) }
{
    a.minus == b.minus && same_prod(&a.prod, &b.prod)
}

#[cycle(same)]
#[tactic(auto, using(crate::proofs::Parts::prod_whole, crate::proofs::Parts::prod_first, crate::proofs::Parts::prod_rest))]
fn same_prod(a: &Prod, b: &Prod) -> bool
    ensures { IsTrue result ↔ (bare_prod a.now ≡ bare_prod b.now) }
{
    same_factor(&a.first, &b.first) && same_factors(a.rest.as_slice(), b.rest.as_slice())
}

#[cycle(same)]
#[tactic(auto, using(crate::proofs::Lists::same_lengths, crate::proofs::Lists::same_item, crate::proofs::Lists::one_more, crate::proofs::Lists::all_taken))]
fn same_factors(a: &[Factor], b: &[Factor]) -> bool
    ensures { IsTrue result ↔ (map bare_factor a.now ≡ map bare_factor b.now) }
{
    if a.len() != b.len() {
        return false;
    }
    for at in 0..a.len() {
        if !same_factor(&a[at], &b[at]) {
            return false;
        }
    }
    true
}

#[cycle(same)]
#[tactic(auto, using(crate::proofs::Parts::factor_whole, crate::proofs::Parts::factor_minus, crate::proofs::Parts::factor_atom))]
fn same_factor(a: &Factor, b: &Factor) -> bool
    ensures { IsTrue result ↔ (bare_factor a.now ≡ bare_factor b.now) }
{
    a.minus == b.minus && same_atom(&a.atom, &b.atom)
}

#[cycle(same)]
#[tactic(auto, using(crate::proofs::Parts::atom_whole, crate::proofs::Parts::atom_open))]
fn same_atom(a: &Atom, b: &Atom) -> bool
    ensures { IsTrue result ↔ (bare_atom a.now ≡ bare_atom b.now) }
{
    match (a, b) {
        (Atom::Int(a), Atom::Int(b)) => same_int(a, b),
        (Atom::Col(a), Atom::Col(b)) => same_col(a, b),
        (Atom::Bracket(a), Atom::Bracket(b)) => same_expr(a.get(), b.get()),
        _ => false,
    }
}
