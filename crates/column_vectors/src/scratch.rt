//! Vectors that are reused: a vector that one node of a tree no longer needs is taken by the next one.
ghost use Rattle.std.specs.Prelude.{◌≡◌, ◌≤◌, [], IfOk, length, replicate, vec_capacity};

use sky_io::Memory;
use std::alloc::Global;

/// The vectors of an evaluation. It begins with none and keeps those that it allocated, for the next evaluation.
pub struct Scratch {
    pub(crate) narrow: Pool<i64>,
    pub(crate) wide: Pool<i128>,
    pub flags: Pool<bool>,
}

// A derived drop would be proved again in each crate that drops one.
impl Drop for Scratch {
    fn drop(self) {
        let Scratch {
            narrow,
            wide,
            flags,
        } = self;
    }
}

impl Scratch {
    /// Creates a scratch without vectors. Does not allocate.
    pub fn new(alloc: Global) -> Scratch {
        Scratch {
            narrow: Pool::new(alloc),
            wide: Pool::new(alloc),
            flags: Pool::new(alloc),
        }
    }
}

/// The free vectors of one element type.
#[derive(Drop)]
pub struct Pool<T> {
    alloc: Global,
    free: Vec<Vec<T>>,
}

impl<T: Copy> Pool<T> {
    /// Creates a pool without vectors. Does not allocate.
    pub fn new(alloc: Global) -> Pool<T> {
        Pool {
            alloc,
            free: Vec::new(alloc),
        }
    }

    /// Returns an empty vector with room for the given number of items: one that is free, or a new one. Allocates
    /// memory if no vector is free, or if the free one has less room.
    pub fn take(&mut self, count: usize) -> Result<Vec<T>, Memory>
        ensures empty { IfOk result (λ found. found.items ≡ []) }
        ensures room { IfOk result (λ found. count ≤ vec_capacity found) }
    {
        let mut found = self.free.pop().unwrap_or(Vec::new(self.alloc));
        found.clear();
        found.reserve(count)?;
        Ok(found)
    }

    /// Returns a vector with one item repeated `count` times.
    pub fn filled(&mut self, item: T, count: usize) -> Result<Vec<T>, Memory>
        ensures { IfOk result (λ found. found.items ≡ replicate count item) }
    {
        let mut found = self.take(count)?;
        found.resize(count, item)?;
        Ok(found)
    }

    /// Returns a vector of the given number of items, whatever they are: for what is written before it is read.
    pub fn sized(&mut self, item: T, count: usize) -> Result<Vec<T>, Memory>
        ensures { IfOk result (λ found. length found.items ≡ count) }
    {
        let mut found = self.free.pop().unwrap_or(Vec::new(self.alloc));
        found.resize(count, item)?;
        Ok(found)
    }

    /// Keeps a vector for its next use, whatever it holds. If there is no memory to keep it, it is dropped.
    pub fn give(&mut self, used: Vec<T>) {
        let _ = self.free.push(used);
    }
}
