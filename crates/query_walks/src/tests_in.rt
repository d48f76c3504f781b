//! The tests of WHERE in the order of the text, each with whether it is a conjunct at the top. A visitor is called with
//! one test after another.
ghost use Rattle.std.specs.Prelude.{◌≡◌, ◌&&◌, Bool, [], ◌∷◌, map};
ghost use Rattle.std.specs.List.{flat_map};
ghost use Rattle.text_rules.specs.Readings.{joined};
ghost use Rattle.sql_tree.specs.declared.cond.Pred.TheOpen.{Pred-F};
ghost use Rattle.bind_rules.specs.Conjuncts.{conjuncts};
ghost use Rattle.bind_rules.specs.Tops.{Found, found_in, tests_in};
ghost use Rattle.query_walks.specs.Gathering.{Gathers, found_of, tests_of_conj, tests_of_neg, tests_of_pred};
ghost use Rattle.query_walks.specs.Walks.{kept_if, tests_at_pred, tests_of};

use sql_token::Span;
use sql_tree::{AreaKind, Cmp, Cond, Conj, Expr, Int, IntList, Name, Neg, Pred};

/// A test that matters beyond its truth value, to the checks or to the bound query.
#[derive(Drop)]
pub enum TestRef<'a> {
    Area {
        kind: AreaKind,
        span: Span,
        args: &'a IntList,
    },
    Chord {
        left: &'a Name,
        right: &'a Name,
        strict: bool,
        n: &'a Int,
    },
    /// An equation.
    Equals {
        left: &'a Expr,
        right: &'a Expr,
    },
    /// IN without NOT.
    Listed {
        value: &'a Expr,
        list: &'a IntList,
    },
}

/// A visitor that gathers something from tests, one after another.
pub trait Gather {
    /// Whether nothing was lost because an allocation failed.
    ghost kept: { Self → Bool };

    /// The state after one more test.
    ghost after: { Self → Found → Self };

    /// Visits one more test. `top` is whether it is a conjunct at the top.
    fn look(&mut self, test: &TestRef<'_>, top: bool)
        ensures { Gathers kept after self.old (found_of test.now top ∷ []) self.new };
}

/// Visits the tests of WHERE.
pub fn walk<G: Gather>(gather: &mut G, cond: &Option<Cond>)
    ensures { Gathers G.kept G.after gather.old (tests_in cond.now) gather.new }
{
    if let Some(cond) = cond {
        walk_top(gather, cond);
    }
}

// Visits the tests of a condition that is at the top.
fn walk_top<G: Gather>(gather: &mut G, cond: &Cond)
    ensures { Gathers G.kept G.after gather.old
        (flat_map found_in (conjuncts cond.now)) gather.new }
{
    walk_cond(gather, cond, true);
}

// Returns whether both hold.
fn is_both(a: bool, b: bool) -> bool
    ensures { result ≡ (a && b) }
{
    a && b
}

// Visits the tests of a condition, which is at the top or not.
#[cycle(walk)]
fn walk_cond<G: Gather>(gather: &mut G, cond: &Cond, top: bool)
    ensures { Gathers G.kept G.after gather.old (kept_if top (tests_of cond.now)) gather.new }
{
    let rest = cond.rest.as_slice();
    let top = is_both(top, rest.is_empty());
    walk_conj(gather, &cond.first, top);
    walk_conjs(gather, rest, top);
}

// Visits the conjunctions of a condition after the first.
#[cycle(walk)]
fn walk_conjs<G: Gather>(gather: &mut G, rest: &[Conj], top: bool)
    ensures { Gathers G.kept G.after gather.old
        (kept_if top (joined (map tests_of_conj rest.now))) gather.new }
{
    for conj in rest {
        walk_conj(gather, conj, top);
    }
}

// Visits a conjunction.
#[cycle(walk)]
fn walk_conj<G: Gather>(gather: &mut G, conj: &Conj, top: bool)
    ensures { Gathers G.kept G.after gather.old (kept_if top (tests_of_conj conj.now)) gather.new }
{
    walk_neg(gather, &conj.first, top);
    walk_negs(gather, conj.rest.as_slice(), top);
}

// Visits the predicates of a conjunction after the first.
#[cycle(walk)]
fn walk_negs<G: Gather>(gather: &mut G, rest: &[Neg], top: bool)
    ensures { Gathers G.kept G.after gather.old
        (kept_if top (joined (map tests_of_neg rest.now))) gather.new }
{
    for neg in rest {
        walk_neg(gather, neg, top);
    }
}

// Visits a predicate with or without NOT.
#[cycle(walk)]
fn walk_neg<G: Gather>(gather: &mut G, neg: &Neg, top: bool)
    ensures { Gathers G.kept G.after gather.old (kept_if top (tests_of_neg neg.now)) gather.new }
{
    walk_pred(gather, &neg.pred, is_both(top, !neg.not));
}

// Visits a predicate.
#[cycle(walk)]
fn walk_pred<G: Gather>(gather: &mut G, pred: &Pred, top: bool)
    ensures { Gathers G.kept G.after gather.old (kept_if top (tests_of_pred pred.now)) gather.new }
{
    match pred {
        Pred::Bracket(cond) => walk_cond(gather, cond.get(), top),
        Pred::Compare { left, op, right } => show_equation(gather, left, *op, right, top),
        Pred::Among { not, value, list } => show_list(gather, *not, value, list, top),
        Pred::Area { kind, span, args } => gather.look(
            &TestRef::Area {
                kind: *kind,
                span: *span,
                args,
            },
            top,
        ),
        Pred::Chord {
            left,
            right,
            strict,
            n,
        } => gather.look(
            &TestRef::Chord {
                left,
                right,
                strict: *strict,
                n,
            },
            top,
        ),
        Pred::Between { .. } => {}
        Pred::IsNull { .. } => {}
    }
}

// Visits a comparison, which is a test if it is an equation.
fn show_equation<G: Gather>(gather: &mut G, left: &Expr, op: Cmp, right: &Expr, top: bool)
    ensures { Gathers G.kept G.after gather.old
        (kept_if top (tests_at_pred (Pred-F.Compare left.now op right.now))) gather.new }
{
    match op {
        Cmp::Equal => gather.look(&TestRef::Equals { left, right }, top),
        _ => {}
    }
}

// Visits IN, which is a test if there is no NOT before it.
fn show_list<G: Gather>(gather: &mut G, not: bool, value: &Expr, list: &IntList, top: bool)
    ensures { Gathers G.kept G.after gather.old
        (kept_if top (tests_at_pred (Pred-F.Among not value.now list.now))) gather.new }
{
    if !not {
        gather.look(&TestRef::Listed { value, list }, top);
    }
}
