//! A gate that a worker passes before it scans a chunk, so that a test can hold the worker there.
use std::sync::Wait;

/// The gate that a worker passes before it scans a chunk for a task.
pub trait Gate {
    /// Lets the worker pass to the chunk. Both are given by their numbers, from 0. May wait.
    fn pass<R: Wait>(&self, rt: &R, worker: u32, chunk: u32);
}

/// A gate that lets all pass.
#[derive(Clone, Copy, Debug, PartialEq, Eq)]
pub struct OpenGate;

impl Gate for OpenGate {
    fn pass<R: Wait>(&self, _rt: &R, _worker: u32, _chunk: u32) {}
}
