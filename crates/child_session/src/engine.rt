//! The engine of a session over a child table: it makes the piece of a query on a chunk.

ghost use Rattle.std.specs.Prelude.{◌≡◌, Some, is_some, true};
ghost use Rattle.session_rules.specs.Numbers.{numbered_at, numbered_from};
ghost use Rattle.child_session.specs.ChildAttached.{query_values};

use crate::world::ChildWorld;
use child_piece::ChildPiece;
use child_rules::ChildBound;
use child_scan::child_scan;
use scan_board::Task;
use scan_worker::Engine;
use sky_io::Memory;
use std::alloc::Global;

/// The world of a session, and the child queries of its queries by their numbers, from 1; None for one that is refused.
#[derive(Drop)]
pub(crate) struct ChildEngine<'w, 's> {
    pub(crate) alloc: Global,
    pub(crate) world: &'w ChildWorld<'w>,
    pub(crate) queries: &'s [Option<&'s ChildBound>],
}

/// Returns the child query of the query with this number, which has one.
fn query_with<'s>(queries: &[Option<&'s ChildBound>], q: u32) -> &'s ChildBound
    requires { is_some (numbered_at (numbered_from 1 (query_values queries.now)) q) ≡ true }
    ensures { numbered_at (numbered_from 1 (query_values queries.now)) q ≡ Some result.now }
{
    let place = q as usize - 1;
    let query = queries[place];
    match query {
        Some(query) => query,
        None => unreachable!(),
    }
}

impl<'w, 's> Engine<ChildPiece<'w>> for ChildEngine<'w, 's> {
    ghost use Rattle.child_session.specs.ChildAttached.{child_base, query_values};

    type Scratch = ();

    ghost root = { λ e. child_base e.world.now (query_values e.queries.now) };

    fn scratch(&self) {}

    fn list(&self, alloc: Global, task: &Task) -> Result<Vec<Option<ChildPiece<'w>>>, Memory> {
        let mut list = Vec::new(alloc);
        list.reserve(task.queries().len())?;
        Ok(list)
    }

    fn piece(&self, q: u32, chunk: u32, _scratch: &mut ()) -> Result<ChildPiece<'w>, Memory> {
        let query = query_with(self.queries, q);
        child_scan(
            self.alloc,
            self.world.store(),
            self.world.sources(),
            chunk,
            query,
        )
    }
}
