//! The value of an expression on the key of a group, in which each column is one of the key's.

ghost use Rattle.std.specs.Prelude.{◌≡◌, length};
ghost use Rattle.value_rules.specs.Keys.{key_cell};
ghost use Rattle.value_rules.specs.Ranges.{IsInRangeAt};
ghost use Rattle.value_rules.specs.Sound.{same_col};
ghost use Rattle.value_rules.specs.Terms.{term_of, term_of_atom, term_of_factor, term_of_prod};
ghost use Rattle.value_rules.specs.Values.{value_at};

use crate::number::{added, multiplied, number, signed, wide};
use sky_vector::Num;
use sql_bound::{BoundAtom, BoundCol, BoundExpr, BoundFactor, BoundProd, ColList};

/// Returns the value of the expression on the key of a group by these columns; `None` is NULL, as is a column that is
/// none of them. The key has a value or NULL for each. Does not allocate.
pub fn value_on_key(e: &BoundExpr, keys: &ColList, key: &[Option<i64>]) -> Option<Num>
    requires long { length key.now ≡ length keys.now }
    requires range { IsInRangeAt (key_cell keys.now key.now) (term_of e.now) }
    ensures { result ≡ value_at (key_cell keys.now key.now) (term_of e.now) }
{
    number(key_sum(e, keys.as_slice(), key))
}

/// Returns whether the two are the same column.
fn is_same(a: &BoundCol, b: &BoundCol) -> bool
    ensures { result ≡ same_col a.now b.now }
{
    a.second == b.second && a.col == b.col
}

/// Returns the value of a column: that of the first key column that is the same.
fn key_cell(col: &BoundCol, keys: &[BoundCol], key: &[Option<i64>]) -> Option<i64>
    requires { length key.now ≡ length keys.now }
    ensures { result ≡ key_cell keys.now key.now col.now }
{
    for place in 0..keys.len() {
        if is_same(&keys[place], col) {
            return key[place];
        }
    }
    None
}

/// Returns the value of a sum, from the left.
#[cycle(key_worth)]
fn key_sum(e: &BoundExpr, keys: &[BoundCol], key: &[Option<i64>]) -> Option<i128>
    requires long { length key.now ≡ length keys.now }
    requires range { IsInRangeAt (key_cell keys.now key.now) (term_of e.now) }
    ensures { result ≡ value_at (key_cell keys.now key.now) (term_of e.now) }
{
    let mut sum = key_product(&e.first, keys, key);
    let rest = e.rest.as_slice();
    for next in rest {
        let part = key_product(&next.prod, keys, key);
        sum = added(sum, next.minus, part);
    }
    sum
}

// Returns the value of a product, from the left.
#[cycle(key_worth)]
fn key_product(p: &BoundProd, keys: &[BoundCol], key: &[Option<i64>]) -> Option<i128>
    requires long { length key.now ≡ length keys.now }
    requires range { IsInRangeAt (key_cell keys.now key.now) (term_of_prod p.now) }
    ensures { result ≡ value_at (key_cell keys.now key.now) (term_of_prod p.now) }
{
    let mut product = key_factor(&p.first, keys, key);
    let rest = p.rest.as_slice();
    for next in rest {
        let part = key_factor(next, keys, key);
        product = multiplied(product, part);
    }
    product
}

// Returns the value of a factor.
#[cycle(key_worth)]
fn key_factor(f: &BoundFactor, keys: &[BoundCol], key: &[Option<i64>]) -> Option<i128>
    requires long { length key.now ≡ length keys.now }
    requires range { IsInRangeAt (key_cell keys.now key.now) (term_of_factor f.now) }
    ensures { result ≡ value_at (key_cell keys.now key.now) (term_of_factor f.now) }
{
    let size = key_atom(&f.atom, keys, key);
    signed(f.minus, size)
}

// Returns the value of an atom.
#[cycle(key_worth)]
fn key_atom(a: &BoundAtom, keys: &[BoundCol], key: &[Option<i64>]) -> Option<i128>
    requires long { length key.now ≡ length keys.now }
    requires range { IsInRangeAt (key_cell keys.now key.now) (term_of_atom a.now) }
    ensures { result ≡ value_at (key_cell keys.now key.now) (term_of_atom a.now) }
{
    match a {
        BoundAtom::Int(n) => Some(i128::from(n.get())),
        BoundAtom::Col(col) => wide(key_cell(col, keys, key)),
        BoundAtom::Bracket(e) => key_sum(e.get(), keys, key),
    }
}
