//! What a session attaches for the queries of a script.

ghost use Rattle.std.specs.Prelude.{◌≡◌, IfOk, map};
ghost use Rattle.query_ends.specs.Attached.{attached};

use crate::form::QueryForm;
use crate::plan::QueryPlan;
use scan_session::Planned;
use sky_io::Memory;
use std::alloc::Global;

/// Returns what is attached for a query: nothing if it is refused.
fn attached_by<Q, P, F: QueryForm<Q, P>>(
    alloc: Global,
    form: &F,
    plan: &QueryPlan<Q>,
) -> Result<Option<Planned<P>>, Memory>
    ensures { IfOk result (λ it. it ≡ attached F.first_piece plan.now) }
{
    match plan {
        QueryPlan::Planned {
            head: _,
            query,
            chunks,
        } => match chunks.copy(alloc) {
            Ok(chunks) => Ok(Some(Planned {
                chunks,
                empty: form.empty(query),
            })),
            Err(Memory) => Err(Memory),
        },
        QueryPlan::Refused(_) => Ok(None),
    }
}

/// Returns what is attached for each query of a script, in their order. Allocates memory.
pub fn all_attached<Q, P: Drop, F: QueryForm<Q, P>>(
    alloc: Global,
    form: &F,
    plans: &[QueryPlan<Q>],
) -> Result<Vec<Option<Planned<P>>>, Memory>
    ensures { IfOk result (λ all. all.items ≡ map (attached F.first_piece) plans.now) }
{
    let mut all = Vec::new(alloc);
    for plan in plans {
        all.push(attached_by(alloc, form, plan)?)?;
    }
    Ok(all)
}
