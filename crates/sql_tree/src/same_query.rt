//! Compares queries up to their spans and the sign of a zero in a list of integers.
ghost use Rattle.std.specs.Prelude.{◌≡◌, ◌↔◌, IsTrue, map};
ghost use Rattle.std.specs.Option.{option_map};
ghost use Rattle.sql_tree.specs.Bare.{bare, bare_col, bare_cond, bare_item, bare_items, bare_kind, bare_order, bare_table};

use crate::cond::Cond;
use crate::name::Col;
use crate::query::{Item, ItemKind, ItemList, OrderBy, Query, Selection, TableRef};
use crate::same_cond::same_cond;
use crate::same_expr::{same_col, same_expr, same_int, same_name, same_names};
use sql_token::Int;

fn same_kind(a: &ItemKind, b: &ItemKind) -> bool
    ensures { IsTrue result ↔ (bare_kind a.now ≡ bare_kind b.now) }
{
    match (a, b) {
        (ItemKind::Plain(a), ItemKind::Plain(b))
        | (ItemKind::CountOf(a), ItemKind::CountOf(b))
        | (ItemKind::Sum(a), ItemKind::Sum(b))
        | (ItemKind::Min(a), ItemKind::Min(b))
        | (ItemKind::Max(a), ItemKind::Max(b))
        | (ItemKind::Avg(a), ItemKind::Avg(b)) => same_expr(a, b),
        (ItemKind::Count, ItemKind::Count) => true,
        _ => false,
    }
}

fn same_item(a: &Item, b: &Item) -> bool
    ensures { IsTrue result ↔ (bare_item a.now ≡ bare_item b.now) }
{
    same_kind(&a.what, &b.what) && same_names(&a.alias, &b.alias)
}

#[tactic(auto, using(crate::proofs::Lists::same_lengths, crate::proofs::Lists::same_item, crate::proofs::Lists::one_more, crate::proofs::Lists::all_taken))]
fn same_more_items(a: &[Item], b: &[Item]) -> bool
    ensures { IsTrue result ↔ (map bare_item a.now ≡ map bare_item b.now) }
{
    if a.len() != b.len() {
        return false;
    }
    for at in 0..a.len() {
        if !same_item(&a[at], &b[at]) {
            return false;
        }
    }
    true
}

fn same_list(a: &ItemList, b: &ItemList) -> bool
    ensures { IsTrue result ↔ ((bare_item a.now.first ≡ bare_item b.now.first)
        × (map bare_item a.now.rest ≡ map bare_item b.now.rest)) }
{
    same_item(&a.first, &b.first) && same_more_items(a.rest.as_slice(), b.rest.as_slice())
}

fn same_items(a: &Selection, b: &Selection) -> bool
    ensures { IsTrue result ↔ (bare_items a.now ≡ bare_items b.now) }
{
    match (a, b) {
        (Selection::Star { .. }, Selection::Star { .. }) => true,
        (Selection::List(a), Selection::List(b)) => same_list(a, b),
        _ => false,
    }
}

fn same_table(a: &TableRef, b: &TableRef) -> bool
    ensures { IsTrue result ↔ (bare_table a.now ≡ bare_table b.now) }
{
    same_name(&a.name, &b.name) && same_names(&a.alias, &b.alias)
}

fn same_second(a: &Option<TableRef>, b: &Option<TableRef>) -> bool
    ensures { IsTrue result ↔ (option_map bare_table a.now ≡ option_map bare_table b.now) }
{
    match (a, b) {
        (None, None) => true,
        (Some(a), Some(b)) => same_table(a, b),
        _ => false,
    }
}

fn same_where(a: &Option<Cond>, b: &Option<Cond>) -> bool
    ensures { IsTrue result ↔ (option_map bare_cond a.now ≡ option_map bare_cond b.now) }
{
    match (a, b) {
        (None, None) => true,
        (Some(a), Some(b)) => same_cond(a, b),
        _ => false,
    }
}

#[tactic(auto, using(crate::proofs::Lists::same_lengths, crate::proofs::Lists::same_item, crate::proofs::Lists::one_more, crate::proofs::Lists::all_taken))]
fn same_group(a: &[Col], b: &[Col]) -> bool
    ensures { IsTrue result ↔ (map bare_col a.now ≡ map bare_col b.now) }
{
    if a.len() != b.len() {
        return false;
    }
    for at in 0..a.len() {
        if !same_col(&a[at], &b[at]) {
            return false;
        }
    }
    true
}

fn same_sorted(a: &OrderBy, b: &OrderBy) -> bool
    ensures { IsTrue result ↔ (bare_order a.now ≡ bare_order b.now) }
{
    same_col(&a.key, &b.key) && a.down == b.down
}

fn same_order(a: &Option<OrderBy>, b: &Option<OrderBy>) -> bool
    ensures { IsTrue result ↔ (option_map bare_order a.now ≡ option_map bare_order b.now) }
{
    match (a, b) {
        (None, None) => true,
        (Some(a), Some(b)) => same_sorted(a, b),
        _ => false,
    }
}

fn same_limit(a: &Option<Int>, b: &Option<Int>) -> bool
    ensures { IsTrue result ↔ (a.now ≡ b.now) }
{
    match (a, b) {
        (None, None) => true,
        (Some(a), Some(b)) => same_int(a, b),
        _ => false,
    }
}

fn same_front(a: &Query, b: &Query) -> bool
    ensures { IsTrue result ↔ ((bare_items a.now.items ≡ bare_items b.now.items)
        × (bare_table a.now.first ≡ bare_table b.now.first)
        × (option_map bare_table a.now.second ≡ option_map bare_table b.now.second)) }
{
    same_items(&a.items, &b.items)
        && same_table(&a.first, &b.first)
        && same_second(&a.second, &b.second)
}

fn same_end(a: &Query, b: &Query) -> bool
    ensures { IsTrue result ↔ ((map bare_col a.now.group ≡ map bare_col b.now.group)
        × (option_map bare_order a.now.order ≡ option_map bare_order b.now.order)
        × (a.now.limit ≡ b.now.limit)) }
{
    same_group(a.group.as_slice(), b.group.as_slice())
        && same_order(&a.order, &b.order)
        && same_limit(&a.limit, &b.limit)
}

/// Whether two trees are the same up to their spans and the sign of a zero in a list of integers. Does not allocate.
#[tactic(auto, unfolding(crate::specs::Bare::bare))]
pub fn same(a: &Query, b: &Query) -> bool
    ensures { IsTrue result ↔ (bare a.now ≡ bare b.now) }
{
    same_front(a, b) && same_where(&a.cond, &b.cond) && same_end(a, b)
}
