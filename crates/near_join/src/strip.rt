//! The sweep window: row numbers in ascending order of height, with the positions of the rows as three columns. A sweep
//! reads the columns sequentially, and reads a row of the table only if it is near enough.

ghost use Rattle.std.specs.Prelude.{◌≡◌, ◌<◌, All, IfOk, List, length, get_or, map, pos};
ghost use Rattle.sky_vector.specs.Points.{IsWithin};
ghost use Rattle.sky_vector.specs.Pos.{point};
ghost use Rattle.table_rules.specs.Objects.{Obj};
ghost use Rattle.sky_rules.specs.Partition.{chunk_count};
ghost use Rattle.near_join.specs.Strips.{IsChunkStrip, IsListed, IsWhole, row_in};

use crate::order::places_by_height;
use chunk_store::Store;
use sky_io::Memory;
use sky_row::{Rows, gather};
use sky_vector::Pos;
use std::alloc::Global;
use std::marker::Model;

/// Row numbers, with the components of the rows' positions as columns.
#[derive(Drop)]
pub(crate) struct Strip {
    places: Vec<u32>,
    xs: Vec<i32>,
    ys: Vec<i32>,
    zs: Vec<i32>,
}

impl Model for Strip {
    ghost use Rattle.near_join.specs.Strips.{StripView};

    ghost Value = { StripView };

    ghost view = { λ s. record { places = s.places.items; xs = s.xs.items; ys = s.ys.items; zs = s.zs.items } };
}

impl Strip {
    /// Returns the number of rows.
    pub(crate) fn len(&self) -> usize
        ensures { result ≡ length self.now.places }
    {
        self.places.len()
    }

    /// Returns the row number at this position of the sweep window, from 0.
    pub(crate) fn place(&self, i: usize) -> u32
        requires { i < length self.now.places }
        ensures { result ≡ get_or self.now.places i 0 }
    {
        self.places[i]
    }

    /// Returns the heights of the rows.
    pub(crate) fn zs(&self) -> &[i32]
        ensures { result.now ≡ self.now.zs }
    {
        self.zs.as_slice()
    }

    /// Returns the position in the sky of the row at this position of the sweep window, from 0.
    pub(crate) fn at(&self, i: usize) -> Pos
        requires whole { IsWhole self.now }
        requires there { i < length self.now.places }
        ensures { point result ≡ row_in self.now i }
    {
        point_of(
            part_at(self.xs.as_slice(), i),
            part_at(self.ys.as_slice(), i),
            part_at(self.zs.as_slice(), i),
        )
    }

    /// Returns the rows at these positions, in their order. Allocates memory for each column once.
    pub(crate) fn taken(&self, alloc: Global, numbers: &[u32]) -> Result<Strip, Memory>
        requires whole { IsWhole self.now }
        requires there { All (λ k. k < length self.now.places) numbers.now }
        ensures places { IfOk result (λ s.
            s.places ≡ map (λ k. get_or self.now.places k 0) numbers.now) }
        ensures listed { IfOk result (λ s. (objects : List Obj) → IsListed objects self.now
            → IsListed objects s) }
    {
        let places = gather(alloc, self.places.as_slice(), numbers)?;
        let xs = gather(alloc, self.xs.as_slice(), numbers)?;
        let ys = gather(alloc, self.ys.as_slice(), numbers)?;
        let zs = gather(alloc, self.zs.as_slice(), numbers)?;
        Ok(Strip { places, xs, ys, zs })
    }
}

/// Returns the component at an index.
fn part_at(parts: &[i32], i: usize) -> i32
    requires within { All IsWithin parts.now }
    requires there { i < length parts.now }
    ensures value { result ≡ get_or parts.now i (pos 0) }
    ensures within { IsWithin result }
{
    parts[i]
}

/// Returns the position with these components.
fn point_of(x: i32, y: i32, z: i32) -> Pos
    requires x { IsWithin x }
    requires y { IsWithin y }
    requires z { IsWithin z }
    ensures { point result ≡ record { x = x; y = y; z = z } }
{
    Pos {
        x: i64::from(x),
        y: i64::from(y),
        z: i64::from(z),
    }
}

/// Returns the rows of a chunk and of its full overlap, in ascending order of height. Allocates memory for them, 24
/// bytes a row.
pub(crate) fn chunk_strip(alloc: Global, store: &Store, chunk: u32) -> Result<Strip, Memory>
    requires { chunk < chunk_count store.now.plan }
    ensures { IfOk result (λ s.
        IsChunkStrip store.now.plan store.now.rows.objects chunk s) }
{
    let rows = store.rows();
    let _ = rows.len();
    let own = store.chunk(chunk);
    let overlap = store.full_overlap(chunk);
    let places = places_by_height(alloc, rows.zs(), own, overlap)?;
    gathered(alloc, rows, places)
}

/// Returns the sweep window of the rows with these numbers, in their order. Allocates memory for each column once.
fn gathered(alloc: Global, rows: &Rows, places: Vec<u32>) -> Result<Strip, Memory>
    requires { All (λ place. place < length rows.now.objects) places.items }
    ensures places { IfOk result (λ s. s.places ≡ places.items) }
    ensures listed { IfOk result (λ s. IsListed rows.now.objects s) }
{
    let xs = gather(alloc, rows.xs(), places.as_slice())?;
    let ys = gather(alloc, rows.ys(), places.as_slice())?;
    let zs = gather(alloc, rows.zs(), places.as_slice())?;
    Ok(Strip { places, xs, ys, zs })
}
