//! The form of a query over objects and their sources.
ghost use Rattle.std.specs.Prelude.{◌≡◌, None, Some, if◌then◌else◌};
ghost use Rattle.bind_rules.specs.declared.fault.BindFault.TheVariants as fault;
ghost use Rattle.child_bind_rules.specs.JoinCondition.{are_joined, are_object_and_source, child_form, have_aliases};
ghost use Rattle.child_bind_rules.specs.JoinCondition.{is_child_form, is_listed, is_plain_list};
ghost use Rattle.child_bind_rules.specs.JoinCondition.{is_qualified_without_chords};

use crate::join_condition::{has_join_condition, is_same_name};
use crate::scope::{is_object_table, is_source_table};
use bind_checks::{has_no_chord, is_grouped, is_query_qualified};
use sql_tree::{Name, Query, Selection, TableRef};

// Returns whether both tables have an alias, and the two differ.
fn have_aliases(o: &Option<Name>, s: &Option<Name>) -> bool
    ensures { result ≡ have_aliases o.now s.now }
{
    o.is_some() && s.is_some() && !is_same_name(o, s)
}

// Returns whether these are the names of the object table and of the source table.
fn are_object_and_source(first: &[u8], second: &[u8]) -> bool
    ensures { result ≡ are_object_and_source first.now second.now }
{
    is_object_table(first) && is_source_table(second)
}

// Returns whether the tables are Object and Source, each with an alias of its own, and have one join condition.
fn are_joined(query: &Query, second: &TableRef) -> bool
    ensures { result ≡ are_joined query.now second.now }
{
    are_object_and_source(
        query.first.name.text.as_slice(),
        second.name.text.as_slice(),
    ) && have_aliases(&query.first.alias, &second.alias)
        && has_join_condition(query, &query.first.alias, &second.alias)
}

// Returns whether the items are listed, without a star.
fn is_listed(items: &Selection) -> bool
    ensures { result ≡ is_listed items.now }
{
    match items {
        Selection::Star { .. } => false,
        Selection::List(_) => true,
    }
}

// Returns whether the items are listed, and there is no aggregate and no GROUP BY.
fn is_plain_list(query: &Query) -> bool
    ensures { result ≡ is_plain_list query.now }
{
    is_listed(&query.items) && !is_grouped(query)
}

// Returns whether each column but the order key has a qualifier, and there is no chord test.
fn is_qualified_without_chords(query: &Query) -> bool
    ensures { result ≡ is_qualified_without_chords query.now }
{
    is_query_qualified(query) && has_no_chord(query)
}

// Returns whether a query with this second table has the form.
fn is_child_form(query: &Query, second: &TableRef) -> bool
    ensures { result ≡ is_child_form query.now (Some second.now) }
{
    are_joined(query, second) && is_plain_list(query) && is_qualified_without_chords(query)
}

/// Returns whether the query has the form of a query over objects and their sources. Does not allocate.
#[tactic(auto, unfolding(child_bind_rules::specs::JoinCondition::child_form))]
pub(crate) fn has_child_form(query: &Query) -> bool
    ensures { child_form query.now ≡ (if result then None else Some fault.JoinForm) }
{
    match &query.second {
        Some(second) => is_child_form(query, second),
        None => false,
    }
}
