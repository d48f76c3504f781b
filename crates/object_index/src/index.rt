//! An index of the rows of a catalogue by their ids, which finds a row by the first ids of granules of rows.
ghost use Rattle.std.specs.Prelude.{◌≡◌, ◌<◌, false, get_or, length, IfNone, IfOk, IfSome, IsTrue};
ghost use Rattle.sky_rules.specs.Partition.{chunk_count};
ghost use Rattle.sky_rules.specs.Bounds.{in_chunk};
ghost use Rattle.sky_row.specs.Columns.{no_row};
ghost use Rattle.sky_plan.specs.Places.{IsOnlyChunk};
ghost use Rattle.table_rules.specs.Ordered.{has_id};
ghost use Rattle.object_index.specs.Indexes.{IsPlaceOf, IsRowOf};

use crate::granules::{first_rows, row_with};
use crate::place::Place;
use indexmap::IndexMap;
use sky_io::Memory;
use sky_plan::SkyPlan;
use sky_row::Rows;
use std::alloc::Global;
use std::marker::Model;

/// A plan of the sky and the rows of a catalogue, for lookups of the chunks and rows of ids.
#[derive(Drop)]
pub struct Index<'w> {
    plan: &'w SkyPlan,
    rows: &'w Rows,
    /// The id and the number of the first row of each granule of the rows, in their order.
    firsts: IndexMap<i64, u32>,
}

impl<'w> Model for Index<'w> {
    ghost use Rattle.std.specs.Prelude.{map};
    ghost use Rattle.object_index.specs.Indexes.{Indexed};
    ghost use Rattle.object_index.specs.Granules.{IsSparse};

    ghost Value = { Indexed };

    ghost view = { λ x. record { plan = x.plan.now; rows = x.rows.now.objects } };

    ghost invariant = { λ x. IsSparse (map (λ o. o.id) x.rows.now.objects) x.firsts.entries };
}

impl<'w> Index<'w> {
    /// Creates the index of the rows over the plan. Allocates memory for an entry a granule of rows, and reads no other
    /// row.
    pub fn build(alloc: Global, plan: &'w SkyPlan, rows: &'w Rows) -> Result<Index<'w>, Memory>
        ensures { IfOk result (λ index.
            index ≡ record { plan = plan.now; rows = rows.now.objects }) }
    {
        // the contract of `len` gives that the ids ascend
        let _count = rows.len();
        let firsts = first_rows(alloc, rows.ids())?;
        Ok(Index { plan, rows, firsts })
    }

    /// Returns the plan of the sky. Does not allocate.
    pub fn plan(&self) -> &SkyPlan
        ensures { result.now ≡ self.now.plan }
    {
        self.plan
    }

    /// Returns the chunk and the number of the row with the id, or `None` if no row has it. Does not allocate.
    pub fn place(&self, id: i64) -> Option<Place>
        ensures found { IfSome result (λ place.
            IsPlaceOf self.now.plan self.now.rows id place.chunk place.row) }
        ensures none { IfNone result (has_id self.now.rows id ≡ false) }
    {
        match self.row_of(id) {
            Some(row) => Some(self.place_of(row)),
            None => None,
        }
    }

    /// Returns the row with this number, and the chunk that contains it.
    fn place_of(&self, row: u32) -> Place
        requires { row < length self.now.rows }
        ensures row { result.row ≡ row }
        ensures there { result.chunk < chunk_count self.now.plan }
        ensures holds { IsTrue (in_chunk self.now.plan result.chunk
            (get_or self.now.rows row no_row).at) }
        ensures only { IsOnlyChunk self.now.plan result.chunk
            (get_or self.now.rows row no_row).at }
    {
        let at = self.rows.position(row);
        Place {
            chunk: self.plan.chunk_of(&at),
            row,
        }
    }

    /// Returns the number of the row with the id, or `None` if no row has it.
    fn row_of(&self, id: i64) -> Option<u32>
        ensures low { IfSome result (λ row. row < length self.now.rows) }
        ensures found { IfSome result (λ row.
            IsRowOf self.now.rows id row (get_or self.now.rows row no_row)) }
        ensures none { IfNone result (has_id self.now.rows id ≡ false) }
    {
        // the contract of `len` gives that the ids ascend
        let _count = self.rows.len();
        row_with(self.rows.ids(), &self.firsts, id)
    }
}
