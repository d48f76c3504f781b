//! An ascending list of chunk numbers.
ghost use Rattle.std.specs.Prelude.{◌≡◌, ◌<◌, List, [], ◌∷◌, ◌++◌, AllPairs, IfOk, IfSome, None, OnErr};
ghost use Rattle.std.specs.List.{last_or};

use sky_io::Memory;
use std::alloc::Global;
use std::marker::Model;

/// A set of chunk numbers, from 0, as a strictly ascending list.
#[derive(Drop)]
pub struct ChunkSet {
    chunks: Vec<u32>,
}

impl Model for ChunkSet {
    ghost use Rattle.std.specs.Prelude.{ℕ, ◌<◌, List, AllPairs};

    ghost Value = { List ℕ };

    ghost view = { λ s. s.chunks.items };

    ghost invariant = { λ s. AllPairs (λ a b. a < b) s.chunks.items };
}

impl ChunkSet {
    /// A set without chunks. Does not allocate.
    pub fn new(alloc: Global) -> ChunkSet
        ensures { result ≡ [] }
    {
        ChunkSet {
            chunks: Vec::new(alloc),
        }
    }

    /// A copy of the set. Allocates memory.
    pub fn copy(&self, alloc: Global) -> Result<ChunkSet, Memory>
        ensures { IfOk result (λ copy. copy ≡ self.now) }
    {
        let mut chunks = Vec::new(alloc);
        chunks.extend_from_slice(self.chunks.as_slice())?;
        Ok(ChunkSet { chunks })
    }

    /// Appends a chunk above the last one. Allocates memory. After `Err` the set is unchanged.
    #[tactic(auto, using(crate::proofs::ChunkSets::ascending_push))]
    pub fn push(&mut self, c: u32) -> Result<(), Memory>
        requires above { IfSome (last_or None self.old) (λ last. last < c) }
        ensures appended { IfOk result (λ _. self.new ≡ self.old ++ c ∷ []) }
        ensures same { OnErr result (self.new ≡ self.old) }
    {
        Ok(self.chunks.push(c)?)
    }

    /// The chunks, in ascending order. Does not allocate.
    pub fn as_slice(&self) -> &[u32]
        ensures items { result.now ≡ self.now }
        ensures ascending { AllPairs (λ a b. a < b) result.now }
    {
        self.chunks.as_slice()
    }
}
