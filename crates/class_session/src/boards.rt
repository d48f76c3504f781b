//! The boards of both classes for a script, and the class of each of its queries.
ghost use Rattle.std.specs.Prelude.{◌≡◌, [], IfOk, map};
ghost use Rattle.sky_rules.specs.Partition.{chunk_count};
ghost use Rattle.session_rules.specs.Numbers.{numbered_from};
ghost use Rattle.session_script.specs.Views.{query_lines};
ghost use Rattle.czar.specs.Attached.{base_over, chunk_query, numbered};
ghost use Rattle.czar.specs.Plans.{ArePlans};
ghost use Rattle.class_session.specs.ClassPlans.{IsFirstPair, class_for, classes_for};

use answer_rules::ChunkQuery;
use czar::{Plan, SessionContext, World, board_over, chunk_queries, within_limits};
use partial_merge::Piece;
use scan_board::Board;
use scan_classes::{Class, Classes, Pair};
use sky_io::{Gate, Memory};
use std::alloc::Global;
use std::sync::Wait;
use std::thread::Threads;

/// The class of a query with this plan. A query that is refused is attached to no board: it is counted as short.
fn class_by(plan: &Plan) -> Class
    ensures { result ≡ class_for plan.now }
{
    match plan {
        Plan::Planned { chunks, .. } => Class::of(chunks),
        Plan::Refused(_) => Class::Short,
    }
}

/// Returns the class of each query by its number, from 0, which no query has. Allocates memory.
pub(crate) fn classes_of(alloc: Global, plans: &[Plan]) -> Result<Vec<Class>, Memory>
    ensures { IfOk result (λ classes. classes.items ≡ classes_for plans.now) }
{
    let mut classes = Vec::new(alloc);
    classes.push(Class::Short)?;
    for plan in plans {
        classes.push(class_by(plan))?;
    }
    Ok(classes)
}

/// Creates the two boards for the queries with these plans, over the chunks of the world, and the czar's pair. Allocates
/// memory.
pub(crate) fn two_boards<'s, R: Threads + Wait + Sync, G: Gate + Sync>(
    session: &SessionContext<'s, '_, R, G>,
    plans: &[Plan],
) -> Result<(Classes<Piece<'s>>, Pair<Piece<'s>>), Memory>
    requires plans { ArePlans session.now.world.now.plan session.now.world.now.rows
        (query_lines session.now.script.now) plans.now }
    ensures { IfOk result (λ r.
        IsFirstPair session.now.world.now.plan session.now.world.now.rows plans.now r.0 r.1) }
{
    within_limits(session.world);
    let _ = session.script.queries();
    let asked = chunk_queries(session.alloc, plans)?;
    let short = board_over(session.alloc, session.world, asked.as_slice())?;
    let long = board_over(session.alloc, session.world, asked.as_slice())?;
    paired(
        session.alloc,
        session.world,
        plans,
        asked.as_slice(),
        short,
        long,
    )
}

/// Puts two boards for these chunk queries, which are those of the plans, under locks. Allocates memory. The plans and the
/// queries are read by contracts alone.
fn paired<'s>(
    alloc: Global,
    world: &World<'s>,
    plans: &[Plan],
    queries: &[(u32, &ChunkQuery)],
    short: Board<Piece<'s>>,
    long: Board<Piece<'s>>,
) -> Result<(Classes<Piece<'s>>, Pair<Piece<'s>>), Memory>
    requires queries { numbered queries.now ≡ numbered_from 1 (map chunk_query plans.now) }
    requires short { short ≡ record {
      root = base_over world.now.plan world.now.rows queries.now;
      ring = chunk_count world.now.plan;
      past = [];
    } }
    requires long { long ≡ record {
      root = base_over world.now.plan world.now.rows queries.now;
      ring = chunk_count world.now.plan;
      past = [];
    } }
    ensures { IfOk result (λ r.
        IsFirstPair world.now.plan world.now.rows plans.now r.0 r.1) }
{
    Classes::new(alloc, short, long)
}
