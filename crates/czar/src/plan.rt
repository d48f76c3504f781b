//! The plan of a query before it is run.
//!
//! Code that holds a tree when an arm ends early drops it by name. That is one call; what goes out of scope is dropped
//! part by part, and the function's proof is then many times as long.

ghost use Rattle.std.specs.Prelude.{◌≡◌, ◌+◌, ◌<◌, ◌≤◌, All, IfOk, None, OnOk, length, take};
ghost use Rattle.text_rules.specs.declared.limits.TheConstants.{QUERIES_MOST, QUERY_TEXT_MOST};
ghost use Rattle.sky_rules.specs.Partition.{chunk_count};
ghost use Rattle.answer_rules.specs.Plans.{plan_of, radius_refusal};
ghost use Rattle.session_script.specs.Scripts.{query_count};
ghost use Rattle.session_script.specs.Views.{query_lines};
ghost use Rattle.czar.specs.Plans.{ArePlans, IsCutOf, IsPlanBy, IsPlanOf, PlanFor};

use crate::understanding::{Understanding, understand};
use crate::world::World;
use answer_rules::Rewritten;
use area_analyser::{plan, radius_ok};
use chunk_rewriter::rewrite;
use query_ends::QueryPlan;
use scan_rules::ChunkSet;
use session_script::Script;
use session_script::laws::query_lines_are_query_texts;
use sky_io::Memory;
use sql_bound::Bound;
use sql_tree::Query;
use std::alloc::Global;
use transcript_rules::Refusal;

/// The plan of a query over the catalogue: what is run is its rewriting into a chunk query and a merge. A query is
/// refused if its text is no query, if it does not fit the schema, or if it is a join whose limit the overlap does not
/// allow.
pub type Plan = QueryPlan<Rewritten>;

/// Returns the plans of a script's queries, in their order; lines that wait or cancel are skipped. Allocates memory for
/// them. Nothing is run.
pub fn explain(alloc: Global, world: &World<'_>, script: &Script<'_>) -> Result<Vec<Plan>, Memory>
    ensures { IfOk result (λ plans.
        ArePlans world.now.plan world.now.rows (query_lines script.now) plans.items) }
{
    let mut plans = Vec::with_capacity(alloc, script.queries() as usize)?;
    for before in 0..script.queries() {
        push_plan(alloc, world, script, before, &mut plans)?;
    }
    Ok(plans)
}

/// Appends the plan of the query that follows `number` others.
fn push_plan(
    alloc: Global,
    world: &World<'_>,
    script: &Script<'_>,
    before: u32,
    plans: &mut Vec<Plan>,
) -> Result<(), Memory>
    requires there { before < query_count script.now.steps }
    requires few { before < QUERIES_MOST }
    requires plans { ArePlans world.now.plan world.now.rows
        (take before (query_lines script.now)) plans.old.items }
    ensures { OnOk result (ArePlans world.now.plan world.now.rows
        (take (before + 1) (query_lines script.now)) plans.new.items) }
{
    query_lines_are_query_texts();
    match plan_line(alloc, world, script.text_of(before + 1)) {
        Ok(plan) => Ok(plans.push(plan)?),
        Err(Memory) => Err(Memory),
    }
}

/// Returns the plan of the query with this line.
pub(crate) fn plan_line(alloc: Global, world: &World<'_>, text: &[u8]) -> Result<Plan, Memory>
    requires { length text.now ≤ QUERY_TEXT_MOST }
    ensures { IfOk result (PlanFor world.now.plan world.now.rows text.now) }
{
    match understand(alloc, world.rows().schema(), text) {
        Ok(understanding) => plan_understood(alloc, world, understanding),
        Err(Memory) => Err(Memory),
    }
}

/// Returns the plan of the queries with this understanding.
fn plan_understood(
    alloc: Global,
    world: &World<'_>,
    understanding: Understanding,
) -> Result<Plan, Memory>
    ensures { IfOk result (IsPlanBy world.now.plan world.now.rows understanding) }
{
    match understanding {
        Understanding::Unknown(why) => Ok(Plan::Refused(why)),
        Understanding::Known { tree, bound } => {
            let plan = plan_known(alloc, world, tree, &bound);
            drop(bound);
            plan
        }
    }
}

/// Returns the plan of the queries with this tree and this bound query.
fn plan_known(alloc: Global, world: &World<'_>, tree: Query, bound: &Bound) -> Result<Plan, Memory>
    ensures { IfOk result (IsPlanOf world.now.plan world.now.rows tree bound.now) }
{
    match chunks_of(alloc, world, bound) {
        Ok(chunks) => plan_over(alloc, world, tree, bound, chunks),
        Err(Memory) => {
            drop(tree);
            Err(Memory)
        }
    }
}

/// Returns the chunks that the query needs. Allocates memory.
pub fn chunks_of(alloc: Global, world: &World<'_>, bound: &Bound) -> Result<ChunkSet, Memory>
    ensures plan { IfOk result (λ chunks.
        chunks ≡ plan_of world.now.plan world.now.rows.objects bound.now) }
    ensures there { IfOk result (λ chunks. All (λ c. c < chunk_count world.now.plan) chunks) }
{
    let filled = world.store().filled();
    plan(alloc, bound, world.plan(), world.index(), filled)
}

/// Returns the plan of the queries that need these chunks: they are refused if the chunks' overlap does not allow them.
fn plan_over(
    alloc: Global,
    world: &World<'_>,
    tree: Query,
    bound: &Bound,
    chunks: ChunkSet,
) -> Result<Plan, Memory>
    requires plan { chunks ≡ plan_of world.now.plan world.now.rows.objects bound.now }
    requires there { All (λ c. c < chunk_count world.now.plan) chunks }
    ensures { IfOk result (IsPlanOf world.now.plan world.now.rows tree bound.now) }
{
    match radius_ok(bound, world.plan(), &chunks) {
        Ok(()) => cut_over(alloc, tree, bound, chunks),
        Err(far) => {
            drop((chunks, tree));
            Ok(Plan::Refused(Refusal::Radius(far)))
        }
    }
}

/// Returns the plan of the queries that can be run over these chunks.
fn cut_over(alloc: Global, tree: Query, bound: &Bound, chunks: ChunkSet) -> Result<Plan, Memory>
    ensures { IfOk result (IsCutOf tree bound.now chunks) }
{
    match rewrite(alloc, bound) {
        Ok(query) => Ok(Plan::Planned {
            head: tree,
            query,
            chunks,
        }),
        Err(Memory) => {
            drop(chunks);
            drop(tree);
            Err(Memory)
        }
    }
}
