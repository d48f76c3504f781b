//! The engine of a session: it makes the piece of a query on a chunk.

ghost use Rattle.std.specs.Prelude.{◌≡◌, ◌+◌, ◌<◌, ◌∷◌, [], AllPairs, IfOk, Some, is_some, length, true};
ghost use Rattle.answer_rules.specs.Bases.{query_at};
ghost use Rattle.answer_rules.specs.Pieces.{PieceFor};
ghost use Rattle.answer_rules.specs.SoundChunks.{IsSoundChunk};
ghost use Rattle.czar.specs.Attached.{numbered};
ghost use Rattle.czar.specs.Running.{IsOpen};
ghost use Rattle.table_rules.specs.declared.limits.TheConstants.{FIRST_COLUMNS};

use answer_rules::ChunkQuery;
use chunk_scan::{Scratch, scan};
use chunk_store::Store;
use near_join::join;
use partial_merge::Piece;
use scan_board::Task;
use scan_worker::Engine;
use sky_io::Memory;
use sql_bound::Shape;
use std::alloc::Global;

/// The world of a session, and the chunk queries of its planned queries with their numbers, which ascend.
#[derive(Drop)]
pub struct ChunkEngine<'w, 's> {
    pub alloc: Global,
    pub world: &'w Store,
    pub queries: &'s [(u32, &'s ChunkQuery)],
}

/// Returns the chunk query of the query with this number, which has one.
fn query_with<'s>(queries: &[(u32, &'s ChunkQuery)], q: u32) -> &'s ChunkQuery
    requires ascend { AllPairs (λ a b. a.0 < b.0) (numbered queries.now) }
    requires known { is_some (query_at (numbered queries.now) q) ≡ true }
    ensures { query_at (numbered queries.now) q ≡ Some result.now }
{
    let place = queries.partition_point(|asked| asked.0 < q);
    queries[place].1
}

/// Returns the piece of one chunk: by a scan of its rows, or for pairs by a join.
fn piece_of<'w>(
    alloc: Global,
    world: &'w Store,
    query: &ChunkQuery,
    chunk: u32,
    scratch: &mut Scratch,
) -> Result<Piece<'w>, Memory>
    requires open { IsOpen world.now.plan world.now.rows query.now.shape chunk }
    requires sound { IsSoundChunk (FIRST_COLUMNS + length world.now.rows.names) query.now }
    ensures { IfOk result (PieceFor world.now.plan world.now.rows.objects query.now (chunk ∷ [])) }
{
    match &query.shape {
        Shape::Pairs { .. } => join(alloc, world, chunk, query),
        _ => scan(alloc, world, chunk, query, scratch),
    }
}

impl<'w, 's> Engine<Piece<'w>> for ChunkEngine<'w, 's> {
    ghost use Rattle.czar.specs.Attached.{base_over};

    type Scratch = Scratch;

    ghost root = { λ s. base_over s.world.now.plan s.world.now.rows s.queries.now };

    fn scratch(&self) -> Scratch {
        Scratch::new(self.alloc)
    }

    fn list(&self, alloc: Global, task: &Task) -> Result<Vec<Option<Piece<'w>>>, Memory> {
        let mut list = Vec::new(alloc);
        list.reserve(task.queries().len())?;
        Ok(list)
    }

    fn piece(&self, q: u32, chunk: u32, scratch: &mut Scratch) -> Result<Piece<'w>, Memory> {
        let query = query_with(self.queries, q);
        piece_of(self.alloc, self.world, query, chunk, scratch)
    }
}
