//! A gate that holds its passes until enough of them are in it at the same time.

use crate::gate::Gate;
use std::sync::Wait;
use std::sync::atomic::{AtomicBool, AtomicU32, Ordering};
use std::thread;

/// A gate that holds every pass until `at_once` passes have been in it at the same time, and lets all pass from then
/// on. A test sees by it that threads met. A held pass yields the processor at most `turns` times. When one has used up
/// its turns, all pass from then on, so no test hangs.
#[derive(Drop)]
pub struct StepGate {
    at_once: u32,
    turns: u32,
    standing: AtomicU32,
    has_met: AtomicBool,
    has_given_up: AtomicBool,
}

impl StepGate {
    /// A gate that no worker has passed. Does not allocate.
    pub fn new(at_once: u32, turns: u32) -> StepGate {
        StepGate {
            at_once,
            turns,
            standing: AtomicU32::new(0),
            has_met: AtomicBool::new(false),
            has_given_up: AtomicBool::new(false),
        }
    }

    /// Whether as many passes as it waits for have been in it at the same time.
    pub fn met(&self) -> bool {
        self.has_met.load(Ordering::SeqCst)
    }

    /// Whether the turns of a held pass ran out.
    pub fn given_up(&self) -> bool {
        self.has_given_up.load(Ordering::SeqCst)
    }

    // Whether all pass from now on.
    fn is_open(&self) -> bool {
        self.met() || self.given_up()
    }

    // Yields the processor until the gate is open or the turns have run out.
    fn hold(&self) {
        for _ in 0..self.turns {
            if self.is_open() {
                return;
            }
            thread::yield_now();
        }
        if !self.is_open() {
            self.has_given_up.store(true, Ordering::SeqCst);
        }
    }
}

impl Gate for StepGate {
    fn pass<R: Wait>(&self, _rt: &R, _worker: u32, _chunk: u32) {
        let others = self.standing.fetch_add(1, Ordering::SeqCst);
        if others.saturating_add(1) >= self.at_once {
            self.has_met.store(true, Ordering::SeqCst);
        }
        self.hold();
        self.standing.fetch_sub(1, Ordering::SeqCst);
    }
}
