//! The value of an expression. Each function computes one level of the tree, and each intermediate number is within
//! ±2^100.

ghost use Rattle.std.specs.Prelude.{◌≡◌, IsTrue};
ghost use Rattle.expr_eval.specs.Picks.{AreOfOneTable, AreRows, IsSoundTerm, is_there, pick_of, value_on};
ghost use Rattle.value_rules.specs.Sound.{is_sound_expr};
ghost use Rattle.value_rules.specs.Terms.{term_of, term_of_atom, term_of_factor, term_of_prod};
ghost use Rattle.value_rules.specs.Values.{value_of};

use crate::column::{cell, know};
use crate::number::{added, multiplied, number, signed, wide};
use sky_row::Row;
use sky_vector::Num;
use sql_bound::{BoundAtom, BoundExpr, BoundFactor, BoundProd};

/// Returns the value of the expression on the row, or on the pair of rows; `None` is NULL. If a column of the second
/// row is named, the second row is there; it has as many values as the first. Does not allocate.
pub fn value(e: &BoundExpr, first: &Row, second: Option<&Row>) -> Option<Num>
    requires wide { AreOfOneTable (pick_of first.now second) }
    requires sound { IsTrue (is_sound_expr (is_there (pick_of first.now second)) e.now) }
    ensures { result ≡ value_of e.now (pick_of first.now second.entry) }
{
    know(first, second);
    number(sum(e, first, second))
}

/// Returns the value of a sum, from the left.
#[cycle(worth)]
pub(crate) fn sum(e: &BoundExpr, first: &Row, second: Option<&Row>) -> Option<i128>
    requires rows { AreRows (pick_of first.now second) }
    requires sound { IsSoundTerm (pick_of first.now second) (term_of e.now) }
    ensures { result ≡ value_on (pick_of first.now second.entry) (term_of e.now) }
{
    let mut sum = product(&e.first, first, second);
    let rest = e.rest.as_slice();
    for next in rest {
        let part = product(&next.prod, first, second);
        sum = added(sum, next.minus, part);
    }
    sum
}

// Returns the value of a product, from the left.
#[cycle(worth)]
fn product(p: &BoundProd, first: &Row, second: Option<&Row>) -> Option<i128>
    requires rows { AreRows (pick_of first.now second) }
    requires sound { IsSoundTerm (pick_of first.now second) (term_of_prod p.now) }
    ensures { result ≡ value_on (pick_of first.now second.entry) (term_of_prod p.now) }
{
    let mut product = factor(&p.first, first, second);
    let rest = p.rest.as_slice();
    for next in rest {
        let part = factor(next, first, second);
        product = multiplied(product, part);
    }
    product
}

// Returns the value of a factor.
#[cycle(worth)]
fn factor(f: &BoundFactor, first: &Row, second: Option<&Row>) -> Option<i128>
    requires rows { AreRows (pick_of first.now second) }
    requires sound { IsSoundTerm (pick_of first.now second) (term_of_factor f.now) }
    ensures { result ≡ value_on (pick_of first.now second.entry) (term_of_factor f.now) }
{
    let size = atom(&f.atom, first, second);
    signed(f.minus, size)
}

// Returns the value of an atom.
#[cycle(worth)]
fn atom(a: &BoundAtom, first: &Row, second: Option<&Row>) -> Option<i128>
    requires rows { AreRows (pick_of first.now second) }
    requires sound { IsSoundTerm (pick_of first.now second) (term_of_atom a.now) }
    ensures { result ≡ value_on (pick_of first.now second.entry) (term_of_atom a.now) }
{
    match a {
        BoundAtom::Int(n) => Some(i128::from(n.get())),
        BoundAtom::Col(col) => wide(cell(col, first, second)),
        BoundAtom::Bracket(e) => sum(e.get(), first, second),
    }
}
