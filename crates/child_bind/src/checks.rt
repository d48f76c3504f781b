//! The five checks of a query over objects and their sources, in their order.
ghost use Rattle.std.specs.Prelude.{◌≡◌};
ghost use Rattle.std.specs.Option.{option_or};
ghost use Rattle.bind_checks.specs.Faults.{fault_after_join};
ghost use Rattle.child_bind_rules.specs.ChildChecks.{child_fault};
ghost use Rattle.child_bind_rules.specs.JoinCondition.{child_form};
ghost use Rattle.child_bind_rules.specs.PairColumns.{pair_names, pair_size, schemas_of};

use crate::form::has_child_form;
use crate::scope::ChildScope;
use bind_checks::{fault_after_join, first_unknown};
use bind_rules::BindFault;

// Checks the form of the join, then the area tests, the widths and the order key.
fn fault_after_names(scope: &ChildScope<'_>) -> Option<BindFault>
    ensures { result ≡ option_or (child_form scope.now.query.now) (fault_after_join
        (pair_names (schemas_of scope.now.objects.now scope.now.sources.now) scope.now.query.now)
        (pair_size (schemas_of scope.now.objects.now scope.now.sources.now) scope.now.query.now)
        scope.now.query.now) }
{
    if has_child_form(scope.query) {
        fault_after_join(scope.query, scope)
    } else {
        Some(BindFault::JoinForm)
    }
}

/// Returns the first fault of the query of this scope. Does not allocate.
#[tactic(auto, unfolding(child_bind_rules::specs::ChildChecks::child_fault, bind_checks::specs::Faults::fault_after_join, bind_checks::specs::Faults::from_widths))]
pub(crate) fn child_fault(scope: &ChildScope<'_>) -> Option<BindFault>
    ensures { result ≡ child_fault
        (schemas_of scope.now.objects.now scope.now.sources.now) scope.now.query.now }
{
    match first_unknown(scope.query, scope) {
        Some(span) => Some(BindFault::UnknownName { span }),
        None => fault_after_names(scope),
    }
}
