//! The gates of these tests as one type, so that the engine is compiled once for all of them.
use sky_io::{Gate, ListGate, NoteGate, StepGate};
use std::sync::Wait;

/// A gate that lets all pass, or one that a test inspects afterwards.
#[derive(Clone, Copy)]
pub(crate) enum TestGate<'g> {
    Open,
    Step(&'g StepGate),
    Note(&'g NoteGate),
    List(&'g ListGate),
}

impl Gate for TestGate<'_> {
    fn pass<R: Wait>(&self, rt: &R, worker: u32, chunk: u32) {
        match self {
            TestGate::Open => {}
            TestGate::Step(gate) => gate.pass(rt, worker, chunk),
            TestGate::Note(gate) => gate.pass(rt, worker, chunk),
            TestGate::List(gate) => gate.pass(rt, worker, chunk),
        }
    }
}
