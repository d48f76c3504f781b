//! The store: a plan of the sky, the rows, and which of them each chunk contains and needs.

ghost use Rattle.std.specs.Prelude.{◌≡◌, ◌<◌, ◌&&◌, not, true, get_or, All, AllPairs, IfOk, length, slice_get};
ghost use Rattle.sky_rules.specs.Limits.{IsSky};
ghost use Rattle.sky_rules.specs.Partition.{chunk_count, sub_count};
ghost use Rattle.sky_rules.specs.Bounds.{in_sub, near_sub};
ghost use Rattle.sky_plan.specs.Places.{SubHolds};
ghost use Rattle.sky_row.specs.Columns.{no_row};
ghost use Rattle.chunk_rules.specs.Filled.{filled_chunks, is_filled};
ghost use Rattle.chunk_rules.specs.Places.{passes, rows_at};
ghost use Rattle.chunk_store.specs.Places.{chunk_block, chunk_rows, full_overlap_rows, sub_lists, sub_overlap_rows, sub_rows};

use crate::blocks::{blocks_of, slot_of};
use crate::fill::{empty_parts, row_lists};
use crate::lists::{Lists, push_if};
use crate::merged::Merged;
use crate::subchunk::{is_in, is_near};
use column_block::Block;
use sky_io::Memory;
use sky_plan::SkyPlan;
use sky_row::Rows;
use std::alloc::Global;
use std::marker::Model;
use std::thread::Threads;

/// A survey's rows by chunk: for each chunk, the row numbers of its rows and of its full overlap. It also has the
/// chunks that have rows, and the columns of each of those. A row number is the row's number in the table, from 0.
#[derive(Drop)]
pub struct Store {
    plan: SkyPlan,
    rows: Rows,
    own: Lists,
    overlap: Lists,
    filled: Vec<u32>,
    /// The blocks of the filled chunks, in their order.
    blocks: Vec<Block>,
}

impl Model for Store {
    ghost use Rattle.chunk_store.specs.Survey.{Survey};
    ghost use Rattle.chunk_store.specs.Lists.{IsStored};

    ghost Value = { Survey };

    ghost view = { λ s. record { plan = s.plan; rows = s.rows } };

    ghost invariant = { λ s. IsStored s.plan s.rows s.own s.overlap s.filled.items s.blocks.items };
}

impl Store {
    /// Creates the store of a catalogue's rows under a plan, by the given number of threads, the calling one included.
    /// Allocates memory for a row number for each row and for each chunk that it is near, and for each column once
    /// more. If an allocation fails, plan and rows are dropped. A thread that cannot be started costs only time.
    pub fn build<R: Threads + Sync>(
        rt: &R,
        alloc: Global,
        threads: u32,
        plan: SkyPlan,
        rows: Rows,
    ) -> Result<Store, Memory>
        ensures { IfOk result (λ store. store ≡ record { plan = plan; rows = rows }) }
    {
        let (own, overlap) = row_lists(rt, alloc, threads, &plan, &rows)?;
        let filled = own.filled(alloc)?;
        let blocks = blocks_of(rt, alloc, threads, &rows, &own, filled.as_slice())?;
        Ok(Store {
            plan,
            rows,
            own,
            overlap,
            filled,
            blocks,
        })
    }

    /// Returns the plan of the sky. Does not allocate.
    pub fn plan(&self) -> &SkyPlan
        ensures { result.now ≡ self.now.plan }
    {
        &self.plan
    }

    /// Returns the rows, in ascending id. Does not allocate.
    pub fn rows(&self) -> &Rows
        ensures { result.now ≡ self.now.rows }
    {
        &self.rows
    }

    /// Returns the chunks that have rows, ascending. Does not allocate.
    pub fn filled(&self) -> &[u32]
        ensures value { result.now ≡ filled_chunks self.now.plan self.now.rows.objects }
        ensures there { All (λ chunk. chunk < chunk_count self.now.plan) result.now }
        ensures ascend { AllPairs (λ a b. a < b) result.now }
        ensures each { All (λ chunk.
            is_filled self.now.plan self.now.rows.objects chunk ≡ true) result.now }
    {
        self.filled_list()
    }

    /// Returns the stored list of the chunks that have rows.
    fn filled_list(&self) -> &[u32]
        ensures { result.now ≡ filled_chunks self.now.plan self.now.rows.objects }
    {
        self.filled.as_slice()
    }

    /// Returns the row numbers of a chunk's rows, ascending. Does not allocate.
    #[tactic(auto, using(crate::proofs::Ranges::places_there))]
    pub fn chunk(&self, chunk: u32) -> &[u32]
        requires { chunk < chunk_count self.now.plan }
        ensures value { result.now ≡ chunk_rows self.now.plan self.now.rows.objects chunk }
        ensures there { All (λ place. place < length self.now.rows.objects) result.now }
        ensures limits { IsSky self.now.plan }
    {
        self.own.of(chunk)
    }

    /// Returns the columns of a chunk's rows, in the order of their row numbers, if the chunk has rows. Does not
    /// allocate.
    #[tactic(auto, using(crate::proofs::ChunkBlocks::block_places))]
    pub fn block(&self, chunk: u32) -> &Block
        requires there { chunk < chunk_count self.now.plan }
        requires filled { is_filled self.now.plan self.now.rows.objects chunk ≡ true }
        ensures value { result.now ≡ chunk_block self.now.plan self.now.rows chunk }
        ensures places { result.now.objects ≡ rows_at self.now.rows.objects
            (chunk_rows self.now.plan self.now.rows.objects chunk) }
    {
        &self.blocks[self.slot(chunk)]
    }

    /// Returns the index, from 0, of a chunk among those that have rows.
    fn slot(&self, chunk: u32) -> usize
        requires there { chunk < chunk_count self.now.plan }
        requires filled { is_filled self.now.plan self.now.rows.objects chunk ≡ true }
        ensures there { result < length (filled_chunks self.now.plan self.now.rows.objects) }
        ensures is { get_or (filled_chunks self.now.plan self.now.rows.objects) result 0 ≡ chunk }
    {
        slot_of(self.filled(), chunk)
    }

    /// Returns the row numbers, ascending, of the rows in a chunk's near region that are not in it. Does not allocate.
    #[tactic(auto, using(crate::proofs::Ranges::places_there))]
    pub fn full_overlap(&self, chunk: u32) -> &[u32]
        requires { chunk < chunk_count self.now.plan }
        ensures value { result.now ≡ full_overlap_rows self.now.plan self.now.rows.objects chunk }
        ensures there { All (λ place. place < length self.now.rows.objects) result.now }
        ensures limits { IsSky self.now.plan }
    {
        self.overlap.of(chunk)
    }

    /// Returns the row numbers of a subchunk's rows, ascending. Allocates memory for them.
    pub fn sub(&self, alloc: Global, chunk: u32, sub: u32) -> Result<Vec<u32>, Memory>
        requires chunk { chunk < chunk_count self.now.plan }
        requires sub { sub < sub_count self.now.plan chunk }
        ensures value { IfOk result (λ places.
            places.items ≡ sub_rows self.now.plan self.now.rows.objects chunk sub) }
        ensures there { IfOk result (λ places.
            All (λ place. place < length self.now.rows.objects) places.items) }
    {
        let mut places = Vec::new(alloc);
        let own = self.chunk(chunk);
        for place in own {
            push_if(&mut places, self.holds(chunk, sub, *place), *place)?;
        }
        Ok(places)
    }

    /// Returns the row numbers of the rows of each of a chunk's subchunks, ascending, by the subchunks' numbers. The
    /// chunk's rows are traversed once. Allocates memory for a list for each subchunk, and for the row numbers.
    pub fn subs(&self, alloc: Global, chunk: u32) -> Result<Lists, Memory>
        requires { chunk < chunk_count self.now.plan }
        ensures value { IfOk result (λ subs.
            subs ≡ sub_lists self.now.plan self.now.rows.objects chunk) }
        ensures there { IfOk result (λ subs. All
            (λ places. All (λ place. place < length self.now.rows.objects) places) subs) }
    {
        let own = self.chunk(chunk);
        let mut subs = empty_parts(alloc, &self.plan, chunk)?;
        for place in own {
            subs.push(self.sub_at(*place), *place)?;
        }
        Ok(subs)
    }

    /// Returns the number of the subchunk that contains the row with this number, in the chunk that does.
    fn sub_at(&self, place: u32) -> u32
        requires { place < length self.now.rows.objects }
        ensures { SubHolds self.now.plan result (get_or self.now.rows.objects place no_row).at }
    {
        self.plan.sub_of(&self.rows.position(place))
    }

    /// Returns the row numbers of a subchunk's overlap, ascending. Its rows are in the subchunk's chunk or in that
    /// chunk's full overlap, and in the subchunk's near region but not in the subchunk. Allocates memory for them.
    pub fn sub_overlap(&self, alloc: Global, chunk: u32, sub: u32) -> Result<Vec<u32>, Memory>
        requires chunk { chunk < chunk_count self.now.plan }
        requires sub { sub < sub_count self.now.plan chunk }
        ensures value { IfOk result (λ places.
            places.items ≡ sub_overlap_rows self.now.plan self.now.rows.objects chunk sub) }
        ensures there { IfOk result (λ places.
            All (λ place. place < length self.now.rows.objects) places.items) }
    {
        let mut places = Vec::new(alloc);
        let mut near = Merged::new(self.chunk(chunk), self.full_overlap(chunk));
        while let Some(place) = near.next() {
            push_if(&mut places, self.is_beside(chunk, sub, place), place)?;
        }
        Ok(places)
    }

    /// Returns whether the subchunk contains the row with this number.
    fn holds(&self, chunk: u32, sub: u32, place: u32) -> bool
        requires chunk { chunk < chunk_count self.now.plan }
        requires sub { sub < sub_count self.now.plan chunk }
        requires place { place < length self.now.rows.objects }
        ensures { result ≡ passes (λ o. in_sub self.now.plan chunk sub o.at)
            (slice_get self.now.rows.objects place) }
    {
        is_in(&self.plan, chunk, sub, &self.rows.position(place))
    }

    /// Returns whether the row with this number is in the subchunk's near region and not in the subchunk.
    fn is_beside(&self, chunk: u32, sub: u32, place: u32) -> bool
        requires chunk { chunk < chunk_count self.now.plan }
        requires sub { sub < sub_count self.now.plan chunk }
        requires place { place < length self.now.rows.objects }
        ensures { result ≡ passes (λ o. near_sub self.now.plan chunk sub o.at
            && not (in_sub self.now.plan chunk sub o.at)) (slice_get self.now.rows.objects place) }
    {
        is_near(&self.plan, chunk, sub, &self.rows.position(place))
    }
}
