//! The world of a session: the store of a catalogue, and the index of its ids.

ghost use Rattle.std.specs.Prelude.{◌≡◌, IfOk};

use chunk_store::Store;
use object_index::Index;
use sky_io::Memory;
use sky_plan::SkyPlan;
use sky_row::Rows;
use std::alloc::Global;
use std::marker::Model;

/// The store of a catalogue, and the index of the ids of its rows. It is made once for a store, and serves each script
/// over it. Contracts see the plan of the sky and the rows.
#[derive(Drop)]
pub struct World<'w> {
    store: &'w Store,
    index: Index<'w>,
}

impl<'w> Model for World<'w> {
    ghost use Rattle.std.specs.Prelude.{◌≡◌};
    ghost use Rattle.chunk_store.specs.Survey.{Survey};

    ghost Value = { Survey };

    ghost view = { λ w. w.store.now };

    ghost invariant = { λ w. w.index ≡ record {
      plan = w.store.now.plan;
      rows = w.store.now.rows.objects;
    } };
}

impl<'w> World<'w> {
    /// Creates the world of a store. Allocates memory for the index of the ids.
    pub fn new(alloc: Global, store: &'w Store) -> Result<World<'w>, Memory>
        ensures { IfOk result (λ world. world ≡ store.now) }
    {
        let index = Index::build(alloc, store.plan(), store.rows())?;
        Ok(World { store, index })
    }

    /// Returns the store. Does not allocate.
    pub fn store(&self) -> &'w Store
        ensures { result.now ≡ self.now }
    {
        self.store
    }

    /// Returns the index of the ids. Does not allocate.
    pub fn index(&self) -> &Index<'w>
        ensures { result.now ≡ record { plan = self.now.plan; rows = self.now.rows.objects } }
    {
        &self.index
    }

    /// Returns the plan of the sky.
    pub(crate) fn plan(&self) -> &'w SkyPlan
        ensures { result.now ≡ self.now.plan }
    {
        self.store.plan()
    }

    /// Returns the rows.
    pub(crate) fn rows(&self) -> &'w Rows
        ensures { result.now ≡ self.now.rows }
    {
        self.store.rows()
    }
}
