//! The join form: two aliases, one chord test at the top that names both, a qualifier at each column but the order key,
//! and neither an aggregate nor GROUP BY. A query of one table has no chord test.
ghost use Rattle.std.specs.Prelude.{◌≡◌, ◌&&◌, Bool, false, None, Some, if◌then◌else◌, not};
ghost use Rattle.std.specs.List.{list_all};
ghost use Rattle.std.specs.Str.{bytes_eq};
ghost use Rattle.bind_rules.specs.declared.fault.BindFault.TheVariants as fault;
ghost use Rattle.bind_rules.specs.Forms.{chord_by, chords_of, is_join_form, join_form, names_both, pairs_both};
ghost use Rattle.query_walks.specs.Gathering.{test_of};
ghost use Rattle.bind_checks.specs.LoneChord.{chords_met, is_lone, with_one};

use crate::grouping::is_grouped;
use crate::qualified::is_query_qualified;
use query_walks::{Gather, TestRef, walk};
use sql_tree::{Name, Query, TableRef};

// Returns whether both names have the same text.
fn is_same_name(a: &Name, b: &Name) -> bool
    ensures { result ≡ bytes_eq a.now.text b.now.text }
{
    a.text.as_slice() == b.text.as_slice()
}

// Returns whether the left name is the first of these aliases, and the right name the second.
fn is_pair(left: &Name, right: &Name, a: &Name, b: &Name) -> bool
    ensures { result ≡ (bytes_eq left.now.text a.now.text && bytes_eq right.now.text b.now.text) }
{
    is_same_name(left, a) && is_same_name(right, b)
}

// Returns whether the names are these two, in either order.
fn names_both(left: &Name, right: &Name, a: &Name, b: &Name) -> bool
    ensures { (top : Bool) → result ≡
        names_both a.now b.now (record { left = left.now; right = right.now; top = top }) }
{
    is_pair(left, right, a, b) || is_pair(left, right, b, a)
}

// Returns whether a chord test is at the top and names both aliases.
fn fits(left: &Name, right: &Name, top: bool, a: &Name, b: &Name) -> bool
    ensures { result ≡
        (top && names_both a.now b.now (record { left = left.now; right = right.now; top = top })) }
{
    top && names_both(left, right, a, b)
}

// The chord tests seen so far.
#[derive(Clone, Copy)]
enum Chords {
    /// There was none.
    Nowhere,
    /// There was one. The flag is true if it is at the top and names both aliases.
    Once(bool),
    /// There was more than one.
    Again,
}

// Returns the chord tests seen, with one more.
fn with_one(chords: Chords, fits: bool) -> Chords
    ensures { result ≡ with_one chords fits }
{
    match chords {
        Chords::Nowhere => Chords::Once(fits),
        Chords::Once(_) => Chords::Again,
        Chords::Again => Chords::Again,
    }
}

// The chord tests met so far, and the two aliases that a join's test has to name.
#[derive(Drop)]
struct ChordsMet<'a> {
    a: &'a Name,
    b: &'a Name,
    chords: Chords,
}

impl<'a> Gather for ChordsMet<'a> {
    ghost use Rattle.std.specs.Prelude.{true};
    ghost use Rattle.bind_rules.specs.Forms.{chord_by};
    ghost use Rattle.bind_checks.specs.LoneChord.{chords_met};

    ghost kept = { λ _. true };

    ghost after = { λ s f. record s { chords = chords_met s.a.now s.b.now s.chords (chord_by f.test f.top) } };

    fn look(&mut self, test: &TestRef<'_>, top: bool) {
        match test {
            TestRef::Chord { left, right, .. } => {
                self.chords = with_one(self.chords, fits(left, right, top, self.a, self.b));
            }
            _ => {}
        }
    }
}

// Whether a query has a chord test.
#[derive(Drop)]
struct AnyChord {
    is_there: bool,
}

impl Gather for AnyChord {
    ghost use Rattle.std.specs.Prelude.{true, ◌||◌};
    ghost use Rattle.bind_rules.specs.Forms.{chord_by};
    ghost use Rattle.bind_checks.specs.LoneChord.{has_chord};

    ghost kept = { λ _. true };

    ghost after = { λ s f. record { is_there = s.is_there || has_chord (chord_by f.test f.top) } };

    fn look(&mut self, test: &TestRef<'_>, _top: bool) {
        match test {
            TestRef::Chord { .. } => self.is_there = true,
            _ => {}
        }
    }
}

// Returns whether the query has one chord test, which is at the top and names both aliases.
fn has_lone_chord(query: &Query, a: &Name, b: &Name) -> bool
    ensures { result ≡ is_lone (chords_met a.now b.now Chords.Nowhere (chords_of query.now)) }
{
    let mut met = ChordsMet {
        a,
        b,
        chords: Chords::Nowhere,
    };
    walk(&mut met, &query.cond);
    let ChordsMet { chords, .. } = met;
    match chords {
        Chords::Once(fits) => fits,
        Chords::Nowhere => false,
        Chords::Again => false,
    }
}

// Returns whether both tables have an alias, the two differ, and there is one chord test, which is at the top and names
// both.
#[tactic(auto, using(crate::proofs::ChordLaws::pairs_lone))]
fn pairs_both(query: &Query, a: &Option<Name>, b: &Option<Name>) -> bool
    ensures { result ≡ pairs_both a.now b.now (chords_of query.now) }
{
    match (a, b) {
        (Some(a), Some(b)) => !is_same_name(a, b) && has_lone_chord(query, a, b),
        _ => false,
    }
}

/// Returns whether the query has no chord test. Does not allocate.
pub fn has_no_chord(query: &Query) -> bool
    ensures { result ≡ list_all (λ c. false) (chords_of query.now) }
{
    let mut any = AnyChord { is_there: false };
    walk(&mut any, &query.cond);
    !any.is_there
}

// Returns whether a query with this second table has the join form.
fn is_join_of(query: &Query, second: &TableRef) -> bool
    ensures { result ≡ is_join_form query.now (Some second.now) }
{
    pairs_both(query, &query.first.alias, &second.alias)
        && is_query_qualified(query)
        && !is_grouped(query)
}

/// Returns whether the query has the join form, or is no join and has no chord test. Does not allocate.
#[tactic(auto, unfolding(bind_rules::specs::Forms::join_form))]
pub(crate) fn has_join_form(query: &Query) -> bool
    ensures { join_form query.now ≡ (if result then None else Some fault.JoinForm) }
{
    match &query.second {
        Some(second) => is_join_of(query, second),
        None => has_no_chord(query),
    }
}
