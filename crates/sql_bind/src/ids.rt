//! The id tests of WHERE: `objectId = n` and `objectId IN (..)`, on the first table's id, at the top. Which columns are
//! that id is a test of columns.
ghost use Rattle.std.specs.Prelude.{◌≡◌, ◌∷◌, ◌++◌, [], true, IfOk, IsOkAnd, IsTrue, option_to_list};
ghost use Rattle.std.specs.List.{flat_map};
ghost use Rattle.bind_rules.specs.IdTests.{ids_by, int_of, is_lone_column, lone_of};
ghost use Rattle.bind_rules.specs.Tops.{Equals, Listed, top_tests};
ghost use Rattle.query_walks.specs.Gathering.{test_of};
ghost use Rattle.sql_bind.specs.LoneParts.{lone_of_atom, lone_of_factor, lone_of_prod};

use crate::ints::values_of;
use bind_checks::{ColumnTest, Gather, TestRef, walk};
use sql_bound::{IdTests, Ids};
use sql_tree::{Atom, Expr, Factor, IntList, Prod, Query};
use sqlite_items::Items;
use std::alloc::{AllocError, Global};

// Returns whether the atom is a column that passes the test.
#[tactic(auto, using(crate::proofs::LoneLaws::int_alone, crate::proofs::LoneLaws::col_alone, crate::proofs::LoneLaws::bracket_alone))]
fn is_column_atom<T: ColumnTest>(id: &T, atom: &Atom) -> bool
    ensures { result ≡ is_lone_column (T.passes id.now) (lone_of_atom atom.now) }
{
    match atom {
        Atom::Col(col) => id.passes(col),
        Atom::Int(_) => false,
        Atom::Bracket(_) => false,
    }
}

// Returns whether the factor is a column that passes the test.
#[tactic(auto, using(crate::proofs::LoneLaws::factor_alone))]
fn is_column_factor<T: ColumnTest>(id: &T, factor: &Factor) -> bool
    ensures { result ≡ is_lone_column (T.passes id.now) (lone_of_factor factor.now) }
{
    !factor.minus && is_column_atom(id, &factor.atom)
}

// Returns whether the product is a column that passes the test.
#[tactic(auto, using(crate::proofs::LoneLaws::prod_alone, crate::proofs::LoneLaws::prod_of_more))]
fn is_column_prod<T: ColumnTest>(id: &T, prod: &Prod) -> bool
    ensures { result ≡ is_lone_column (T.passes id.now) (lone_of_prod prod.now) }
{
    prod.rest.is_empty() && is_column_factor(id, &prod.first)
}

/// Returns whether the expression is a column that passes the test, without brackets and minus. Does not allocate.
#[tactic(auto, using(crate::proofs::LoneLaws::expr_alone, crate::proofs::LoneLaws::expr_of_more))]
pub fn is_lone_column<T: ColumnTest>(id: &T, e: &Expr) -> bool
    ensures { result ≡ is_lone_column (T.passes id.now) (lone_of e.now) }
{
    e.rest.is_empty() && is_column_prod(id, &e.first)
}

// Returns the int, if the atom is one.
fn atom_int(atom: &Atom) -> Option<i64>
    ensures { option_to_list result ≡ int_of (lone_of_atom atom.now) }
{
    match atom {
        Atom::Int(n) => Some(n.get()),
        Atom::Col(_) => None,
        Atom::Bracket(_) => None,
    }
}

// Returns the int, if the factor is one.
#[tactic(auto, using(crate::proofs::LoneLaws::factor_alone))]
fn factor_int(factor: &Factor) -> Option<i64>
    ensures { option_to_list result ≡ int_of (lone_of_factor factor.now) }
{
    if factor.minus {
        None
    } else {
        atom_int(&factor.atom)
    }
}

// Returns the int, if the product is one.
#[tactic(auto, using(crate::proofs::LoneLaws::prod_alone, crate::proofs::LoneLaws::prod_of_more))]
fn prod_int(prod: &Prod) -> Option<i64>
    ensures { option_to_list result ≡ int_of (lone_of_prod prod.now) }
{
    if prod.rest.is_empty() {
        factor_int(&prod.first)
    } else {
        None
    }
}

// Returns the int, if the expression is one without brackets and minus.
#[tactic(auto, using(crate::proofs::LoneLaws::expr_alone, crate::proofs::LoneLaws::expr_of_more))]
fn int_of(e: &Expr) -> Option<i64>
    ensures { option_to_list result ≡ int_of (lone_of e.now) }
{
    if e.rest.is_empty() {
        prod_int(&e.first)
    } else {
        None
    }
}

// Appends the id of an equation, if it is an id test, and returns whether there was memory for it.
fn push_one<T: ColumnTest>(
    ids: &mut IdTests,
    alloc: Global,
    id: &T,
    left: &Expr,
    right: &Expr,
) -> bool
    ensures { IsTrue result →
        ids.new ≡ ids.old ++ ids_by (T.passes id.now) (Equals left.now right.now) }
{
    match int_of(right) {
        Some(n) => !is_lone_column(id, left) || push_id(ids, alloc, n),
        None => true,
    }
}

// Appends one id, and returns whether there was memory for it.
fn push_id(ids: &mut IdTests, alloc: Global, n: i64) -> bool
    ensures { IsTrue result → ids.new ≡ ids.old ++ (n ∷ []) ∷ [] }
{
    match Items::from_slice(alloc, &[n]) {
        Ok(one) => ids.push(one).is_ok(),
        Err(_) => false,
    }
}

// Appends the ids of a list, and returns whether there was memory for them.
fn push_listed<T: ColumnTest>(
    ids: &mut IdTests,
    alloc: Global,
    id: &T,
    value: &Expr,
    list: &IntList,
) -> bool
    ensures { IsTrue result →
        ids.new ≡ ids.old ++ ids_by (T.passes id.now) (Listed value.now list.now) }
{
    !is_lone_column(id, value) || push_list(ids, values_of(alloc, list))
}

// Appends a list of ids, and returns whether there was memory for it.
fn push_list(ids: &mut IdTests, list: Result<Ids, AllocError>) -> bool
    ensures { IsTrue result → IsOkAnd list (λ l. ids.new ≡ ids.old ++ l ∷ []) }
{
    match list {
        Ok(list) => ids.push(list).is_ok(),
        Err(_) => false,
    }
}

// Appends the ids of a test at the top, and returns whether there was memory for them.
fn push_test<T: ColumnTest>(ids: &mut IdTests, alloc: Global, id: &T, test: &TestRef<'_>) -> bool
    ensures { IsTrue result →
        ids.new ≡ ids.old ++ ids_by (T.passes id.now) (test_of test.now) }
{
    match test {
        TestRef::Equals { left, right } => push_one(ids, alloc, id, left, right),
        TestRef::Listed { value, list } => push_listed(ids, alloc, id, value, list),
        _ => true,
    }
}

// Id tests in their order, and whether none was lost because an allocation failed.
#[derive(Drop)]
struct IdList<'a, T> {
    alloc: Global,
    id: &'a T,
    ids: IdTests,
    is_whole: bool,
}

impl<'a, T: ColumnTest> Gather for IdList<'a, T> {
    ghost use Rattle.std.specs.Prelude.{◌++◌};
    ghost use Rattle.bind_rules.specs.IdTests.{ids_by};
    ghost use Rattle.query_walks.specs.Behind.{top_only};

    ghost kept = { λ s. s.is_whole };

    ghost after = { λ s f. record s {
      ids = s.ids ++ top_only (ids_by (T.passes s.id.now)) f;
    } };

    fn look(&mut self, test: &TestRef<'_>, top: bool) {
        if self.is_whole && top {
            self.is_whole = push_test(&mut self.ids, self.alloc, self.id, test);
        }
    }
}

/// Returns the id tests of a query, in the order of the text. Allocates memory for them.
pub(crate) fn ids_of<T: ColumnTest>(
    alloc: Global,
    id: &T,
    query: &Query,
) -> Result<IdTests, AllocError>
    ensures { IfOk result (λ ids. ids ≡
        flat_map (ids_by (T.passes id.now)) (top_tests query.now.cond)) }
{
    let mut list = IdList {
        alloc,
        id,
        ids: Items::new(alloc),
        is_whole: true,
    };
    walk(&mut list, &query.cond);
    let IdList { ids, is_whole, .. } = list;
    if is_whole { Ok(ids) } else { Err(AllocError) }
}
