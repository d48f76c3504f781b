//! A gate that records which worker passed it.
ghost use Rattle.std.specs.Prelude.{◌≡◌, ◌≤◌, None};

use crate::gate::Gate;
use arrayvec::ArrayVec;
use std::sync::{Mutex, Wait};

/// A gate that lets all pass, and records the worker and the chunk of its first 64 passes, in order.
#[derive(Drop)]
pub struct NoteGate {
    notes: Mutex<ArrayVec<(u32, u32), 64>>,
}

impl NoteGate {
    /// A gate that no worker has passed. Does not allocate.
    pub fn new() -> NoteGate {
        NoteGate {
            notes: Mutex::new(ArrayVec::new()),
        }
    }

    /// The worker and the chunk of a pass, counted from 0. It is `None` if there was no such pass or it was not
    /// recorded. Does not allocate.
    pub fn noted(&mut self, i: u32) -> Option<(u32, u32)>
        ensures late { 64 ≤ i → result ≡ None }
    {
        self.notes.get_mut().as_slice().get(i as usize).copied()
    }
}

impl Gate for NoteGate {
    fn pass<R: Wait>(&self, rt: &R, worker: u32, chunk: u32) {
        let mut notes = self.notes.lock(rt);
        if !notes.is_full() {
            notes.push((worker, chunk));
        }
    }
}
