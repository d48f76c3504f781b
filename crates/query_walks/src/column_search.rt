//! Search for the first column of an expression that passes a test.
ghost use Rattle.std.specs.Prelude.{◌≡◌, Bool, [], ◌∷◌, map};
ghost use Rattle.sql_tree.specs.Spans.{col_span};
ghost use Rattle.sql_tree.specs.declared.name.Col.{Col};
ghost use Rattle.text_rules.specs.Readings.{joined};
ghost use Rattle.bind_rules.specs.Mentions.{columns_of};
ghost use Rattle.query_walks.specs.Firsts.{atom_columns, factor_columns, first_place, prod_columns, signed_columns};

use sql_token::Span;
use sql_tree::{Atom, Col, Expr, Factor, Prod, Signed};

/// A test of columns.
pub trait ColumnTest {
    /// The columns that pass.
    ghost passes: { Self → Col → Bool };

    /// Returns whether the column passes.
    fn passes(&self, col: &Col) -> bool
        ensures { result ≡ passes self.now col.now };
}

/// Returns the span of the first column of an expression that passes the test.
#[cycle(first)]
pub fn first_column<T: ColumnTest>(test: &T, e: &Expr) -> Option<Span>
    ensures { result ≡ first_place col_span (T.passes test.now) (columns_of e.now) }
{
    match first_in_prod(test, &e.first) {
        Some(span) => Some(span),
        None => first_in_signeds(test, e.rest.as_slice()),
    }
}

// Searches the products of a sum after the first.
#[cycle(first)]
fn first_in_signeds<T: ColumnTest>(test: &T, rest: &[Signed]) -> Option<Span>
    ensures { result ≡
        first_place col_span (T.passes test.now) (joined (map signed_columns rest.now)) }
{
    for signed in rest {
        match first_in_signed(test, signed) {
            Some(span) => return Some(span),
            None => {}
        }
    }
    None
}

// Searches one such product.
#[cycle(first)]
fn first_in_signed<T: ColumnTest>(test: &T, signed: &Signed) -> Option<Span>
    ensures { result ≡ first_place col_span (T.passes test.now) (signed_columns signed.now) }
{
    first_in_prod(test, &signed.prod)
}

// Searches a product.
#[cycle(first)]
fn first_in_prod<T: ColumnTest>(test: &T, prod: &Prod) -> Option<Span>
    ensures { result ≡ first_place col_span (T.passes test.now) (prod_columns prod.now) }
{
    match first_in_factor(test, &prod.first) {
        Some(span) => Some(span),
        None => first_in_factors(test, prod.rest.as_slice()),
    }
}

// Searches the factors of a product after the first.
#[cycle(first)]
fn first_in_factors<T: ColumnTest>(test: &T, rest: &[Factor]) -> Option<Span>
    ensures { result ≡
        first_place col_span (T.passes test.now) (joined (map factor_columns rest.now)) }
{
    for factor in rest {
        match first_in_factor(test, factor) {
            Some(span) => return Some(span),
            None => {}
        }
    }
    None
}

// Searches a factor, whatever its sign.
#[cycle(first)]
fn first_in_factor<T: ColumnTest>(test: &T, factor: &Factor) -> Option<Span>
    ensures { result ≡ first_place col_span (T.passes test.now) (factor_columns factor.now) }
{
    first_in_atom(test, &factor.atom)
}

// Searches an int, a column, or an expression in brackets.
#[cycle(first)]
fn first_in_atom<T: ColumnTest>(test: &T, atom: &Atom) -> Option<Span>
    ensures { result ≡ first_place col_span (T.passes test.now) (atom_columns atom.now) }
{
    match atom {
        Atom::Int(_) => None,
        Atom::Col(col) => place_if(test, col),
        Atom::Bracket(e) => first_column(test, e.get()),
    }
}

// Returns the span of the column, if it passes the test.
#[tactic(auto, unfolding(crate::specs::Firsts::first_place))]
fn place_if<T: ColumnTest>(test: &T, col: &Col) -> Option<Span>
    ensures { result ≡ first_place col_span (T.passes test.now) (col.now ∷ []) }
{
    if test.passes(col) {
        Some(col.span())
    } else {
        None
    }
}

/// Returns the span of the first of these columns that passes the test.
pub fn first_of_columns<T: ColumnTest>(test: &T, cols: &[Col]) -> Option<Span>
    ensures { result ≡ first_place col_span (T.passes test.now) cols.now }
{
    for col in cols {
        match place_if(test, col) {
            Some(span) => return Some(span),
            None => {}
        }
    }
    None
}
