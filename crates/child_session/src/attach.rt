//! What a session attaches for the child queries of a script, and the board to which it attaches.

ghost use Rattle.std.specs.Prelude.{◌≡◌, ◌≤◌, ◌<◌, ◌+◌, All, IfOk, OnOk, length, map, option_map, take};
ghost use Rattle.scan_rules.specs.declared.limits.TheConstants.{QUERY_MOST};
ghost use Rattle.turn_lock.specs.Seats.{first_seat};
ghost use Rattle.session_script.specs.Views.{query_lines};
ghost use Rattle.child_session.specs.ChildAttached.{CanRunChild, child_base_of, child_board_of};
ghost use Rattle.child_session.specs.ChildAttached.{query_in_plan, query_values, with_child_if_planned};
ghost use Rattle.child_session.specs.ChildPlans.{AreChildPlans};
ghost use Rattle.child_session.specs.ChildQueryPlans.{child_plan_of, child_plans_of};

use crate::plan::ChildPlan;
use crate::session::ChildContext;
use crate::world::ChildWorld;
use child_piece::{ChildPiece, ChildRoot, copy_of_child};
use child_rules::ChildBound;
use child_transcripts::laws::bound_can_be_run;
use query_ends::QueryPlan;
use scan_board::{Board, Seat, SharedBoard};
use sky_io::{Gate, Memory};
use std::alloc::Global;
use std::sync::Wait;
use std::thread::Threads;

/// A board of child pieces, and the czar's participant of it.
type BoardAndSeat<'w> = (SharedBoard<ChildPiece<'w>>, Seat<Board<ChildPiece<'w>>>);

/// Returns the child query of a query, if it is planned.
fn query_of(plan: &QueryPlan<ChildBound>) -> Option<&ChildBound>
    ensures { option_map (λ query. query.now) result ≡ query_in_plan (child_plan_of plan.now) }
{
    match plan {
        QueryPlan::Planned { query, .. } => Some(query),
        QueryPlan::Refused(_) => None,
    }
}

/// Returns the child query of each query of a script, in their order, if it is planned. Allocates memory.
pub(crate) fn child_queries<'p>(
    alloc: Global,
    plans: &'p [QueryPlan<ChildBound>],
) -> Result<Vec<Option<&'p ChildBound>>, Memory>
    ensures { IfOk result (λ queries. query_values queries.items
        ≡ map query_in_plan (child_plans_of plans.now)) }
{
    let mut queries = Vec::new(alloc);
    for plan in plans {
        queries.push(query_of(plan))?;
    }
    Ok(queries)
}

/// Adds a copy of the query of this plan to the root, under this number, if the query is planned. Allocates memory for it.
fn push_query(
    alloc: Global,
    plan: &ChildPlan,
    q: u32,
    root: &mut ChildRoot<'_>,
) -> Result<(), Memory>
    requires above { All (λ e. e.0 < q) root.old.queries }
    requires from_1 { 1 ≤ q }
    requires to_255 { q ≤ QUERY_MOST }
    requires child { CanRunChild (query_in_plan plan.now) }
    ensures { OnOk result (root.new ≡ with_child_if_planned root.old q (query_in_plan plan.now)) }
{
    match plan {
        ChildPlan::Planned { bound, .. } => match copy_of_child(alloc, bound) {
            Ok(copy) => root.push(q, copy),
            Err(Memory) => Err(Memory),
        },
        ChildPlan::Refused(_) => Ok(()),
    }
}

/// Adds a copy of the query at an index, if it is planned, to the root of the queries before it. Allocates memory for it.
fn push_next(
    alloc: Global,
    world: &ChildWorld<'_>,
    plans: &[ChildPlan],
    place: usize,
    root: &mut ChildRoot<'_>,
) -> Result<(), Memory>
    requires few { length plans.now ≤ QUERY_MOST }
    requires there { place < length plans.now }
    requires child { All (λ plan. CanRunChild (query_in_plan plan)) plans.now }
    requires given { root.old ≡ child_base_of world.now (take place plans.now) }
    ensures { OnOk result (root.new ≡ child_base_of world.now (take (place + 1) plans.now)) }
{
    push_query(alloc, &plans[place], place as u32 + 1, root)
}

/// Returns the root of a session's pieces: both tables, and copies of the child queries with their numbers. A root owns
/// its queries, and contracts alone read them: a worker finds a child query in its engine. Allocates memory.
fn root_of<'w>(
    alloc: Global,
    world: &ChildWorld<'w>,
    plans: &[ChildPlan],
) -> Result<ChildRoot<'w>, Memory>
    requires few { length plans.now ≤ QUERY_MOST }
    requires child { All (λ plan. CanRunChild (query_in_plan plan)) plans.now }
    ensures { IfOk result (λ root. root ≡ child_base_of world.now plans.now) }
{
    let store = world.store();
    let mut root = ChildRoot::new(alloc, store.plan(), store.rows(), world.sources().sources());
    for place in 0..plans.len() {
        push_next(alloc, world, plans, place, &mut root)?;
    }
    Ok(root)
}

/// Creates a board over the chunks of the world for the queries with these plans, and the czar's participant. Allocates
/// memory.
pub fn board_for<'s, R: Threads + Wait + Sync, G: Gate + Sync>(
    session: &ChildContext<'s, '_, R, G>,
    plans: &[ChildPlan],
) -> Result<BoardAndSeat<'s>, Memory>
    requires plans { AreChildPlans session.now.world.now (query_lines session.now.script.now)
        plans.now }
    ensures { IfOk result (λ r. r.1
        ≡ first_seat r.0 (child_board_of session.now.world.now plans.now)) }
{
    bound_can_be_run();
    session.world.within_limits();
    let _ = session.script.queries();
    let root = root_of(session.alloc, session.world, plans)?;
    let board = Board::new(session.alloc, session.world.store().plan().chunks(), root)?;
    SharedBoard::new(session.alloc, board)
}
