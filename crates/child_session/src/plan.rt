//! The plan of a child query before it is run.
//!
//! Code that holds a tree when an arm ends early drops it by name, as in `czar::plan`.

ghost use Rattle.std.specs.Prelude.{◌≡◌, ◌+◌, ◌<◌, ◌≤◌, IfOk, OnOk, Ok, length, take};
ghost use Rattle.text_rules.specs.declared.limits.TheConstants.{QUERIES_MOST, QUERY_TEXT_MOST};
ghost use Rattle.session_script.specs.Scripts.{query_count};
ghost use Rattle.session_script.specs.Views.{query_lines};
ghost use Rattle.child_session.specs.ChildPlans.{AreChildPlans, ChildPlanFor, IsChildPlanBy, IsChildPlanOf};
ghost use Rattle.child_session.specs.ChildRefusals.{IsUnboundPlan, IsUnreadPlan};

use crate::world::ChildWorld;
use child_bind::bind_child;
use child_rules::ChildBound;
use czar::chunks_of;
use scan_rules::ChunkSet;
use session_script::Script;
use session_script::laws::query_lines_are_query_texts;
use sky_io::{Memory, Stop};
use sql_bind::BindFault;
use sql_reader::{SqlFault, read};
use sql_tree::Query;
use std::alloc::Global;
use transcript_rules::Refusal;

/// The plan of a child query, or the reason for which it is refused before it is run: the fault of its grammar, or else the
/// first fault of its binding over both tables.
#[derive(Drop)]
pub enum ChildPlan {
    /// The query's tree, the bound query over both tables, which is run, and the chunks that it needs.
    Planned {
        head: Query,
        bound: ChildBound,
        chunks: ChunkSet,
    },
    /// The reason for which it is refused.
    Refused(Refusal),
}

/// Returns the plans of a script's queries, in their order; lines that wait or cancel are skipped. Allocates memory for
/// them. Nothing is run.
pub fn child_plans(
    alloc: Global,
    world: &ChildWorld<'_>,
    script: &Script<'_>,
) -> Result<Vec<ChildPlan>, Memory>
    ensures { IfOk result (λ plans.
        AreChildPlans world.now (query_lines script.now) plans.items) }
{
    let mut plans = Vec::new(alloc);
    for before in 0..script.queries() {
        push_plan(alloc, world, script, before, &mut plans)?;
    }
    Ok(plans)
}

/// Appends the plan of the query that follows `before` others.
fn push_plan(
    alloc: Global,
    world: &ChildWorld<'_>,
    script: &Script<'_>,
    before: u32,
    plans: &mut Vec<ChildPlan>,
) -> Result<(), Memory>
    requires there { before < query_count script.now.steps }
    requires few { before < QUERIES_MOST }
    requires plans { AreChildPlans world.now (take before (query_lines script.now))
        plans.old.items }
    ensures { OnOk result (AreChildPlans world.now (take (before + 1) (query_lines script.now))
        plans.new.items) }
{
    query_lines_are_query_texts();
    match plan_line(alloc, world, script.text_of(before + 1)) {
        Ok(plan) => Ok(plans.push(plan)?),
        Err(Memory) => Err(Memory),
    }
}

/// Returns the plan of the query with this line.
fn plan_line(alloc: Global, world: &ChildWorld<'_>, text: &[u8]) -> Result<ChildPlan, Memory>
    requires { length text.now ≤ QUERY_TEXT_MOST }
    ensures { IfOk result (ChildPlanFor world.now text.now) }
{
    match read(alloc, text) {
        Ok(tree) => plan_tree(alloc, world, tree),
        Err(stop) => unread(stop),
    }
}

/// Returns the plan of the lines on which the reader stops with this error.
fn unread(stop: Stop<SqlFault>) -> Result<ChildPlan, Memory>
    ensures { IfOk result (IsUnreadPlan stop) }
{
    match stop {
        Stop::Bad(fault) => Ok(ChildPlan::Refused(Refusal::Sql(fault))),
        Stop::Memory => Err(Memory),
    }
}

/// Returns the plan of the lines with this tree.
fn plan_tree(alloc: Global, world: &ChildWorld<'_>, tree: Query) -> Result<ChildPlan, Memory>
    ensures { IfOk result (IsChildPlanOf world.now tree) }
{
    let objects = world.store().rows().schema();
    let store = world.sources();
    let sources = store.sources().schema();
    match bind_child(alloc, &tree, objects, sources) {
        Ok(bound) => plan_bound(alloc, world, tree, bound),
        Err(stop) => {
            drop(tree);
            unbound(stop)
        }
    }
}

/// Returns the plan of the lines on whose tree the binder stops with this error.
fn unbound(stop: Stop<BindFault>) -> Result<ChildPlan, Memory>
    ensures { IfOk result (IsUnboundPlan stop) }
{
    match stop {
        Stop::Bad(fault) => Ok(ChildPlan::Refused(Refusal::Bind(fault))),
        Stop::Memory => Err(Memory),
    }
}

/// Returns the plan of the query with this tree and this bound query.
fn plan_bound(
    alloc: Global,
    world: &ChildWorld<'_>,
    tree: Query,
    bound: ChildBound,
) -> Result<ChildPlan, Memory>
    ensures { IfOk result (IsChildPlanBy world.now tree bound) }
{
    match chunks_of(alloc, world.world(), &bound.bound) {
        Ok(chunks) => Ok(ChildPlan::Planned {
            head: tree,
            bound,
            chunks,
        }),
        Err(Memory) => {
            drop((tree, bound));
            Err(Memory)
        }
    }
}
