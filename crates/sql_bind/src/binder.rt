//! Binding a written query over a schema.
ghost use Rattle.std.specs.Prelude.{◌≡◌, IfOk, IfErr, Ok, Err};
ghost use Rattle.sky_io.specs.Stops.{IfBad};
ghost use Rattle.bind_rules.specs.Binding.{bound_of};
ghost use Rattle.bind_rules.specs.Checks.{bind_fault};

use crate::query::bound_query;
use crate::scope::Scope;
use bind_checks::first_fault;
use bind_rules::BindFault;
use sky_io::Stop;
use sky_row::Schema;
use sql_bound::Bound;
use sql_tree::Query;
use std::alloc::Global;

// Returns the first fault of a query over a schema.
fn object_fault(query: &Query, schema: &Schema) -> Option<BindFault>
    ensures { result ≡ bind_fault schema.now query.now }
{
    first_fault(query, &Scope { schema, query })
}

/// Returns the bound query of a query over a schema, or its first fault. An allocation failure may be returned in place
/// of a bound query, but not in place of a fault. Allocates memory for the bound query. Neither the query nor the
/// schema is kept.
#[tactic(auto, unfolding(bind_rules::specs::Binding::bound_of))]
pub fn bind(alloc: Global, query: &Query, schema: &Schema) -> Result<Bound, Stop<BindFault>>
    ensures ok { IfOk result (λ bound. bound_of schema.now query.now ≡ Ok bound) }
    ensures bad { IfErr result (λ stop.
        IfBad stop (λ fault. bound_of schema.now query.now ≡ Err fault)) }
    ensures judged { (fault : BindFault) → bound_of schema.now query.now ≡ Err fault
        → result ≡ Err (Stop.Bad fault) }
{
    match object_fault(query, schema) {
        Some(fault) => Err(Stop::Bad(fault)),
        None => Ok(bound_query(alloc, query, schema)?),
    }
}
