//! The join condition of a query: the one conjunct of WHERE that equates the ids of its two tables.
ghost use Rattle.std.specs.Prelude.{◌≡◌, ◌&&◌};
ghost use Rattle.query_walks.specs.Gathering.{test_of};
ghost use Rattle.child_bind.specs.Joins.{one_more};
ghost use Rattle.child_bind_rules.specs.JoinCondition.{equates, has_join_condition, is_id_of, is_join_condition, is_same_name};

use bind_checks::{ColumnTest, Gather, TestRef, walk};
use sql_bind::is_lone_column;
use sql_tree::{Col, Expr, Name, Query};

/// Returns whether both names are there and have the same text.
pub(crate) fn is_same_name(a: &Option<Name>, b: &Option<Name>) -> bool
    ensures { result ≡ is_same_name a.now b.now }
{
    match (a, b) {
        (Some(a), Some(b)) => a.text.as_slice() == b.text.as_slice(),
        _ => false,
    }
}

/// The test of a column that it is written as the objectId of the table with this alias.
#[derive(Drop)]
pub(crate) struct IdOf<'a> {
    pub(crate) alias: &'a Option<Name>,
}

impl<'a> ColumnTest for IdOf<'a> {
    ghost passes = { λ t. is_id_of t.alias.now };

    fn passes(&self, col: &Col) -> bool {
        is_same_name(&col.table, self.alias) && col.name.text.as_slice() == b"objectId".as_slice()
    }
}

// Returns whether one side is the objectId of one table, and the other side that of the other.
fn equates(left: &Expr, right: &Expr, a: &Option<Name>, b: &Option<Name>) -> bool
    ensures { result ≡ equates a.now b.now left.now right.now }
{
    is_lone_column(&IdOf { alias: a }, left) && is_lone_column(&IdOf { alias: b }, right)
}

// Returns whether the test is a join condition of the tables with these aliases.
fn is_join_condition(test: &TestRef<'_>, o: &Option<Name>, s: &Option<Name>) -> bool
    ensures { result ≡ is_join_condition o.now s.now (test_of test.now) }
{
    match test {
        TestRef::Equals { left, right } => {
            equates(left, right, o, s) || equates(left, right, s, o)
        }
        _ => false,
    }
}

// The join conditions met so far.
#[derive(Clone, Copy)]
enum Joins {
    /// There is none.
    Nowhere,
    /// There is one.
    Once,
    /// There is more than one.
    Again,
}

// Returns the join conditions met, with one more.
fn one_more(joins: Joins) -> Joins
    ensures { result ≡ one_more joins }
{
    match joins {
        Joins::Nowhere => Joins::Once,
        Joins::Once => Joins::Again,
        Joins::Again => Joins::Again,
    }
}

// The join conditions met at the top of WHERE, and the two aliases.
#[derive(Drop)]
struct JoinsMet<'a> {
    o: &'a Option<Name>,
    s: &'a Option<Name>,
    joins: Joins,
}

impl<'a> Gather for JoinsMet<'a> {
    ghost use Rattle.std.specs.Prelude.{true};
    ghost use Rattle.query_walks.specs.Behind.{top_only};
    ghost use Rattle.child_bind.specs.Joins.{joins_met};
    ghost use Rattle.child_bind_rules.specs.JoinCondition.{join_condition_by};

    ghost kept = { λ _. true };

    ghost after = { λ m f. record m { joins = joins_met m.joins (top_only (join_condition_by m.o.now m.s.now) f) } };

    fn look(&mut self, test: &TestRef<'_>, top: bool) {
        if top && is_join_condition(test, self.o, self.s) {
            self.joins = one_more(self.joins);
        }
    }
}

/// Returns whether exactly one conjunct of WHERE is a join condition of the tables with these aliases. Does not allocate.
pub(crate) fn has_join_condition(query: &Query, o: &Option<Name>, s: &Option<Name>) -> bool
    ensures { result ≡ has_join_condition query.now o.now s.now }
{
    let mut met = JoinsMet {
        o,
        s,
        joins: Joins::Nowhere,
    };
    walk(&mut met, &query.cond);
    let JoinsMet { joins, .. } = met;
    match joins {
        Joins::Once => true,
        Joins::Nowhere => false,
        Joins::Again => false,
    }
}
