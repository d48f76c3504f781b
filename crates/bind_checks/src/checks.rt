//! The six checks of a query in their order. Each function makes one check, and those after it.
ghost use Rattle.std.specs.Prelude.{◌≡◌};
ghost use Rattle.bind_rules.specs.Checks.{fault_by, order_by};
ghost use Rattle.bind_checks.specs.Faults.{fault_after_join, from_grouping, from_join, from_widths};

use crate::area_forms::first_bad_area;
use crate::columns::Columns;
use crate::forms::has_join_form;
use crate::grouping::first_ungrouped;
use crate::names::first_unknown;
use crate::order_key::bad_order_key;
use crate::widths::is_some_too_wide;
use bind_rules::BindFault;
use sql_tree::Query;

// Checks the order key.
fn from_order<C: Columns>(query: &Query, columns: &C) -> Option<BindFault>
    ensures { result ≡ order_by (C.known columns.now) query.now }
{
    match bad_order_key(query, columns) {
        Some(span) => Some(BindFault::OrderName { span }),
        None => None,
    }
}

// Checks the widths, then the order key.
#[tactic(auto, unfolding(crate::specs::Faults::from_widths))]
fn from_widths<C: Columns>(query: &Query, columns: &C) -> Option<BindFault>
    ensures { result ≡ from_widths (C.known columns.now) (C.size columns.now) query.now }
{
    if is_some_too_wide(query, columns) {
        Some(BindFault::TooWide)
    } else {
        from_order(query, columns)
    }
}

/// Returns the first fault of the area tests, the widths and the order key. Does not allocate.
#[tactic(auto, unfolding(crate::specs::Faults::fault_after_join))]
pub fn fault_after_join<C: Columns>(query: &Query, columns: &C) -> Option<BindFault>
    ensures { result ≡ fault_after_join (C.known columns.now) (C.size columns.now) query.now }
{
    match first_bad_area(query) {
        Some(span) => Some(BindFault::AreaForm { span }),
        None => from_widths(query, columns),
    }
}

// Checks the join form, then the area tests.
#[tactic(auto, unfolding(crate::specs::Faults::from_join))]
fn from_join<C: Columns>(query: &Query, columns: &C) -> Option<BindFault>
    ensures { result ≡ from_join (C.known columns.now) (C.size columns.now) query.now }
{
    if has_join_form(query) {
        fault_after_join(query, columns)
    } else {
        Some(BindFault::JoinForm)
    }
}

// Checks the grouping, then the join form.
#[tactic(auto, unfolding(crate::specs::Faults::from_grouping))]
fn from_grouping<C: Columns>(query: &Query, columns: &C) -> Option<BindFault>
    ensures { result ≡ from_grouping (C.known columns.now) (C.size columns.now) query.now }
{
    match first_ungrouped(query) {
        Some(span) => Some(BindFault::NotGrouped { span }),
        None => from_join(query, columns),
    }
}

/// Returns the first fault of a query, given what its names refer to. Does not allocate.
#[tactic(auto, unfolding(bind_rules::specs::Checks::fault_by, crate::specs::Faults::from_grouping, crate::specs::Faults::from_join, crate::specs::Faults::fault_after_join, crate::specs::Faults::from_widths))]
pub fn first_fault<C: Columns>(query: &Query, columns: &C) -> Option<BindFault>
    ensures { result ≡
        fault_by (C.known columns.now) (C.size columns.now) query.now }
{
    match first_unknown(query, columns) {
        Some(span) => Some(BindFault::UnknownName { span }),
        None => from_grouping(query, columns),
    }
}
