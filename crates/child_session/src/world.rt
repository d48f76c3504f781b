//! The world of a session over a child table: the world of the objects, and the store of their sources.

ghost use Rattle.std.specs.Prelude.{◌≡◌};
ghost use Rattle.table_rules.specs.Objects.{IsCatalogue};
ghost use Rattle.sky_rules.specs.Limits.{IsSky};
ghost use Rattle.source_rules.specs.Sources.{IsSourceTable};

use chunk_store::Store;
use czar::{World, within_limits};
use source_store::SourceStore;
use std::marker::Model;

/// The world of a catalogue, and the store of sources that belongs to it. It serves each script over both tables.
/// Contracts see the plan of the sky, the catalogue and the source table.
#[derive(Drop)]
pub struct ChildWorld<'w> {
    world: &'w World<'w>,
    sources: &'w SourceStore<'w>,
}

impl<'w> Model for ChildWorld<'w> {
    ghost use Rattle.std.specs.Prelude.{◌≡◌};
    ghost use Rattle.child_session.specs.ChildSurvey.{ChildSurvey};

    ghost Value = { ChildSurvey };

    ghost view = { λ w. record { plan = w.world.now.plan; rows = w.world.now.rows; table = w.sources.now.table } };

    ghost invariant = { λ w. (w.sources.now.plan ≡ w.world.now.plan) × (w.sources.now.objects ≡ w.world.now.rows.objects) };
}

impl<'w> ChildWorld<'w> {
    /// Creates the world of both tables, from the world of the objects and the store of sources built over its store. Does
    /// not allocate.
    pub fn new(world: &'w World<'w>, sources: &'w SourceStore<'w>) -> ChildWorld<'w>
        requires plan { sources.now.plan ≡ world.now.plan }
        requires objects { sources.now.objects ≡ world.now.rows.objects }
        ensures { result ≡ record {
          plan = world.now.plan;
          rows = world.now.rows;
          table = sources.now.table;
        } }
    {
        ChildWorld { world, sources }
    }

    /// Returns the world of the objects. Does not allocate.
    pub fn world(&self) -> &'w World<'w>
        ensures plan { result.now.plan ≡ self.now.plan }
        ensures rows { result.now.rows ≡ self.now.rows }
    {
        self.world
    }

    /// Returns the store of the objects. Does not allocate.
    pub fn store(&self) -> &'w Store
        ensures plan { result.now.plan ≡ self.now.plan }
        ensures rows { result.now.rows ≡ self.now.rows }
    {
        self.world.store()
    }

    /// Returns the store of the sources. Does not allocate.
    pub fn sources(&self) -> &'w SourceStore<'w>
        ensures plan { result.now.plan ≡ self.now.plan }
        ensures objects { result.now.objects ≡ self.now.rows.objects }
        ensures table { result.now.table ≡ self.now.table }
    {
        self.sources
    }

    /// States that the plan and both tables are within the limits. Does not allocate.
    pub fn within_limits(&self)
        ensures sky { IsSky self.now.plan }
        ensures rows { IsCatalogue self.now.rows }
        ensures table { IsSourceTable self.now.table }
    {
        within_limits(self.world);
        let _ = self.sources.sources().len();
    }
}
