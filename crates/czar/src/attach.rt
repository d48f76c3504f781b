//! What a session attaches for the queries of a script, and the board to which it attaches.

ghost use Rattle.std.specs.Prelude.{◌≡◌, ◌≤◌, ◌++◌, ◌∷◌, [], IfOk, OnOk, length, map};
ghost use Rattle.sky_rules.specs.Partition.{chunk_count};
ghost use Rattle.scan_rules.specs.declared.limits.TheConstants.{QUERY_MOST};
ghost use Rattle.answer_rules.specs.Bases.{IsBase};
ghost use Rattle.session_rules.specs.Numbers.{numbered_from};
ghost use Rattle.turn_lock.specs.Seats.{first_seat};
ghost use Rattle.czar.specs.Attached.{attached, base_over, chunk_query, numbered};

use crate::form::ObjectForm;
use crate::plan::Plan;
use crate::world::World;
use answer_rules::ChunkQuery;
use partial_merge::{Piece, PieceRoot};
use scan_board::{Board, Seat, SharedBoard};
use scan_session::Planned;
use sky_io::Memory;
use std::alloc::Global;

/// Returns what is attached for each query of a script, in their order. Allocates memory.
pub fn all_attached<'w>(
    alloc: Global,
    plans: &[Plan],
) -> Result<Vec<Option<Planned<Piece<'w>>>>, Memory>
    ensures { IfOk result (λ all. all.items ≡ map attached plans.now) }
{
    query_ends::all_attached(alloc, &ObjectForm { alloc }, plans)
}

/// Appends the chunk query of the query with this number, if it is planned.
fn push_query<'p>(
    plan: &'p Plan,
    q: u32,
    queries: &mut Vec<(u32, &'p ChunkQuery)>,
) -> Result<(), Memory>
    ensures { OnOk result (numbered queries.new.items
        ≡ numbered queries.old.items ++ numbered_from q (chunk_query plan.now ∷ [])) }
{
    match plan {
        Plan::Planned { query, .. } => Ok(queries.push((q, &query.chunk))?),
        Plan::Refused(_) => Ok(()),
    }
}

/// Returns the chunk queries of the planned queries of a script, each with the number of its query, from 1. Allocates
/// memory.
pub fn chunk_queries<'p>(
    alloc: Global,
    plans: &'p [Plan],
) -> Result<Vec<(u32, &'p ChunkQuery)>, Memory>
    requires few { length plans.now ≤ QUERY_MOST }
    ensures { IfOk result (λ queries.
        numbered queries.items ≡ numbered_from 1 (map chunk_query plans.now)) }
{
    let mut queries = Vec::new(alloc);
    for place in 0..plans.len() {
        push_query(&plans[place], place as u32 + 1, &mut queries)?;
    }
    Ok(queries)
}

/// Returns the root of a session's pieces: the world, and the chunk queries with their numbers.
fn root_of<'w>(
    alloc: Global,
    world: &World<'w>,
    queries: &[(u32, &ChunkQuery)],
) -> Result<PieceRoot<'w>, Memory>
    requires base { IsBase (base_over world.now.plan world.now.rows queries.now) }
    ensures { IfOk result (λ root.
        root ≡ base_over world.now.plan world.now.rows queries.now) }
{
    let mut root = PieceRoot::new(alloc, world.plan(), world.rows());
    for asked in queries {
        root.push(asked.0, asked.1)?;
    }
    Ok(root)
}

/// Creates a board over the chunks of the world for these chunk queries. Allocates memory.
pub fn board_over<'w>(
    alloc: Global,
    world: &World<'w>,
    queries: &[(u32, &ChunkQuery)],
) -> Result<Board<Piece<'w>>, Memory>
    requires base { IsBase (base_over world.now.plan world.now.rows queries.now) }
    ensures { IfOk result (λ board. board ≡ record {
      root = base_over world.now.plan world.now.rows queries.now;
      ring = chunk_count world.now.plan;
      past = [];
    }) }
{
    let root = root_of(alloc, world, queries)?;
    Board::new(alloc, world.plan().chunks(), root)
}

/// Creates a board over the chunks of the world for these chunk queries, and the czar's participant.
pub(crate) fn seated<'w>(
    alloc: Global,
    world: &World<'w>,
    queries: &[(u32, &ChunkQuery)],
) -> Result<(SharedBoard<Piece<'w>>, Seat<Board<Piece<'w>>>), Memory>
    requires base { IsBase (base_over world.now.plan world.now.rows queries.now) }
    ensures { IfOk result (λ r. r.1 ≡ first_seat r.0 (record {
      root = base_over world.now.plan world.now.rows queries.now;
      ring = chunk_count world.now.plan;
    })) }
{
    let board = board_over(alloc, world, queries)?;
    SharedBoard::new(alloc, board)
}
