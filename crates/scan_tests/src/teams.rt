//! That a worker that finds nothing to take makes pieces of another's task: two pieces of one task are made at one
//! time. If the queries on the chunk were taken apart, two tasks may have met: such a session shows nothing and is run
//! again.
ghost use Rattle.std.specs.Prelude.{◌≡◌};

use crate::sessions::{Marker, Marks, marker_of, session};
use scan_board::Task;
use scan_worker::Engine;
use sky_io::{Memory, NoteGate};
use std::alloc::Global;
use std::sync::Wait;
use std::sync::atomic::{AtomicBool, AtomicU64, Ordering};
use std::test::Fail;
use std::thread;
use std::thread::Threads;

/// Marks chunks, and stays with a piece on chunk 0 until another is made there too, or for the given number
/// of turns.
#[derive(Drop)]
struct Meeting {
    marker: Marker,
    inside: AtomicU64,
    met: AtomicBool,
}

impl Meeting {
    // Whether two were inside at one time.
    fn is_met(&self) -> bool {
        for _ in 0..1_000_000u32 {
            if self.inside.load(Ordering::SeqCst) > 1 || self.met.load(Ordering::SeqCst) {
                return true;
            }
            thread::yield_now();
        }
        false
    }

    // Goes in, and comes out again.
    fn meet(&self) {
        self.inside.fetch_add(1, Ordering::SeqCst);
        if self.is_met() {
            self.met.store(true, Ordering::SeqCst);
        }
        self.inside.fetch_sub(1, Ordering::SeqCst);
    }
}

impl Engine<Marks> for Meeting {
    type Scratch = ();

    ghost root = { λ engine. engine.marker.root };

    fn scratch(&self) {}

    fn list(&self, alloc: Global, task: &Task) -> Result<Vec<Option<Marks>>, Memory> {
        self.marker.list(alloc, task)
    }

    fn piece(&self, q: u32, chunk: u32, scratch: &mut ()) -> Result<Marks, Memory> {
        if chunk == 0 {
            self.meet();
        }
        self.marker.piece(q, chunk, scratch)
    }
}

// Whether the queries on chunk 0 were taken together: only one of the first passes was before work on it.
fn is_one_task(gate: &mut NoteGate) -> bool {
    let mut passes = 0u32;
    for pass in 0..4 {
        if matches!(gate.noted(pass), Some((_, 0))) {
            passes = passes.wrapping_add(1);
        }
    }
    passes == 1
}

// Whether two pieces on chunk 0 were made at one time in a session with one worker, or None if the three queries on it
// were taken apart.
fn met_in_one_task<R: Threads + Wait + Sync>(alloc: Global, rt: &R) -> Result<Option<bool>, Fail> {
    let meeting = Meeting {
        marker: marker_of(alloc, 0),
        inside: AtomicU64::new(0),
        met: AtomicBool::new(false),
    };
    let mut gate = NoteGate::new();
    let wants = [Some((5, 6)), Some((0, 1)), Some((0, 1)), Some((0, 1))];
    let ends = session(alloc, rt, &meeting, &gate, b"q\nq\nq\nq\n", &wants, 1)?;
    if ends.as_slice() != b"AAAA".as_slice() {
        return Err(Fail::new("another end"));
    }
    if is_one_task(&mut gate) {
        Ok(Some(meeting.met.load(Ordering::SeqCst)))
    } else {
        Ok(None)
    }
}

#[test]
fn two_make_pieces_of_one_task_at_one_time(rt: HostRuntime) -> Result<(), Fail> {
    for _ in 0..100 {
        if let Some(met) = met_in_one_task(rt.alloc(), &rt)? {
            assert!(rt; met);
            return Ok(());
        }
    }
    panic!(rt; "the queries were taken apart each time")
}
