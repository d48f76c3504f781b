//! A gate that lets workers pass in a given order.

use crate::gate::Gate;
use crate::pass_order::PassOrder;
use std::sync::atomic::{AtomicBool, Ordering};
use std::sync::{Mutex, Wait};
use std::thread;

/// A gate that holds each pass until its order lets it, one lock around a `PassOrder`. A held pass yields the processor
/// once a turn. When one has used up its turns, all pass from then on, so no test hangs.
#[derive(Drop)]
pub struct ListGate {
    passes: Mutex<PassOrder>,
    turns: u32,
    has_given_up: AtomicBool,
}

impl ListGate {
    /// A gate that no worker has passed. Does not allocate.
    pub fn new(order: Vec<u32>, turns: u32) -> ListGate {
        ListGate {
            passes: Mutex::new(PassOrder::new(order, turns)),
            turns,
            has_given_up: AtomicBool::new(false),
        }
    }

    /// Whether the turns of a held pass ran out.
    pub fn given_up(&self) -> bool {
        self.has_given_up.load(Ordering::SeqCst)
    }

    // Whether a worker that was held for some turns passes now.
    fn lets<R: Wait>(&self, rt: &R, worker: u32, held: u32) -> bool {
        let mut passes = self.passes.lock(rt);
        let lets = passes.lets(worker, held);
        if passes.given_up() {
            self.has_given_up.store(true, Ordering::SeqCst);
        }
        lets
    }
}

impl Gate for ListGate {
    fn pass<R: Wait>(&self, rt: &R, worker: u32, _chunk: u32) {
        for held in 0..self.turns {
            if self.lets(rt, worker, held) {
                return;
            }
            thread::yield_now();
        }
        self.lets(rt, worker, self.turns);
    }
}
