//! Whole sessions over short scripts: that workers run at one time, and that a query that is out of memory is spent
//! alone. A query's work on a chunk is a mark of both, so each piece shows whose it is and what it was made of.
ghost use Rattle.std.specs.Prelude.{◌≡◌, ◌<◌, ◌≤◌, [], All, IfOk, IfSome, length, vec_len};
ghost use Rattle.session_rules.specs.declared.limits.TheConstants.{WORKERS_MOST};

use scan_board::{SharedBoard, Task};
use scan_core::{Board, ChunkSet, Work};
use scan_session::{End, Planned, Scan, drive};
use scan_worker::Engine;
use session_script::Script;
use sky_io::{Gate, ListGate, Memory, OpenGate, StepGate};
use std::alloc::Global;
use std::marker::Model;
use std::sync::Wait;
use std::test::Fail;
use std::thread::Threads;

/// A mark for each chunk that a query's work was done on, in the order in which they came.
#[derive(Drop)]
pub(crate) struct Marks {
    marks: Vec<u32>,
}

impl Model for Marks {
    ghost use Rattle.std.specs.Prelude.{ℕ, List};

    ghost Value = { List ℕ };

    ghost view = { λ m. m.marks.items };
}

impl Work for Marks {
    ghost use Rattle.std.specs.Prelude.{◌≡◌, ◌<◌, length};

    type Root = u8;

    ghost stands = { λ root q chunks marks. length marks ≡ length chunks };

    ghost asks = { λ root q chunk. chunk < 8 };

    fn absorb(&mut self, other: Marks) -> Result<(), Memory> {
        Ok(self.marks.extend_from_slice(other.marks.as_slice())?)
    }
}

// The mark of a query and a chunk of a ring of 8.
fn mark(q: u32, chunk: u32) -> u32 {
    q.saturating_mul(8).saturating_add(chunk)
}

/// Marks chunks, and has no memory for the queries of one number.
#[derive(Drop)]
pub(crate) struct Marker {
    alloc: Global,
    root: u8,
    starved: u32,
}

impl Engine<Marks> for Marker {
    type Scratch = ();

    ghost root = { λ engine. engine.root };

    fn scratch(&self) {}

    fn list(&self, alloc: Global, task: &Task) -> Result<Vec<Option<Marks>>, Memory> {
        let mut list = Vec::new(alloc);
        list.reserve(task.queries().len())?;
        Ok(list)
    }

    fn piece(&self, q: u32, chunk: u32, _scratch: &mut ()) -> Result<Marks, Memory> {
        if q == self.starved {
            return Err(Memory);
        }
        let mut marks = Vec::new(self.alloc);
        marks.push(mark(q, chunk))?;
        Ok(Marks { marks })
    }
}

/// What a query wants: the chunks from one to before another, or None if it is not planned.
type Want = Option<(u32, u32)>;

// The chunks of the ring from one to before another.
fn chunks_of(alloc: Global, first: u32, end: u32) -> Result<ChunkSet, Memory>
    ensures { IfOk result (λ set. All (λ chunk. chunk < 8) set) }
{
    let mut set = ChunkSet::new(alloc);
    for chunk in first..end.min(8) {
        set.push(chunk)?;
    }
    Ok(set)
}

// The plan of a query.
fn plan_of(alloc: Global, want: &Want) -> Result<Option<Planned<Marks>>, Memory>
    ensures { IfOk result (λ plan. IfSome plan (λ p.
        All (λ chunk. chunk < 8) p.chunks × (p.empty ≡ []))) }
{
    let Some((first, end)) = *want else {
        return Ok(None);
    };
    let chunks = chunks_of(alloc, first, end)?;
    let empty = Marks {
        marks: Vec::new(alloc),
    };
    Ok(Some(Planned { chunks, empty }))
}

// The plans of queries.
fn plans_of(alloc: Global, wants: &[Want]) -> Result<Vec<Option<Planned<Marks>>>, Memory>
    ensures len { IfOk result (λ plans. vec_len plans ≡ length wants.now) }
    ensures fit { IfOk result (λ plans. All (λ plan. IfSome plan (λ p.
        All (λ chunk. chunk < 8) p.chunks × (p.empty ≡ []))) plans.items) }
{
    let mut plans = Vec::new(alloc);
    for want in wants {
        plans.push(plan_of(alloc, want)?)?;
    }
    Ok(plans)
}

// Whether a query's piece has a mark for each chunk that it wants, and no other.
fn is_whole(marks: &[u32], q: u32, first: u32, end: u32) -> bool {
    for chunk in first..end {
        if !marks.contains(&mark(q, chunk)) {
            return false;
        }
    }
    marks.len() == end.saturating_sub(first) as usize
}

// A letter for how a query ended: A if it was answered with what it wants.
fn letter(end: &End<Marks>, q: u32, want: &Want) -> u8 {
    match (end, want) {
        (End::Answered(piece), Some((first, end))) => {
            if is_whole(piece.marks.as_slice(), q, *first, *end) {
                b'A'
            } else {
                b'?'
            }
        }
        (End::Answered(_), None) => b'?',
        (End::Refused, _) => b'R',
        (End::Cancelled, _) => b'C',
        (End::Spent, _) => b'S',
    }
}

// The letters of the ends of queries.
fn letters(alloc: Global, ends: &[End<Marks>], wants: &[Want]) -> Result<Vec<u8>, Memory> {
    let mut letters = Vec::new(alloc);
    let mut q = 0u32;
    for (end, want) in ends.iter().zip(wants) {
        q = q.saturating_add(1);
        letters.push(letter(end, q, want))?;
    }
    Ok(letters)
}

// The letters of the ends of a script's queries, after a session over a ring of 8 chunks.
pub(crate) fn session<R: Threads + Wait + Sync, E: Engine<Marks> + Sync, G: Gate + Sync>(
    alloc: Global,
    rt: &R,
    engine: &E,
    gate: &G,
    text: &[u8],
    wants: &[Want],
    workers: u32,
) -> Result<Vec<u8>, Fail>
where
    E::Scratch: Send,
    requires root { E.root engine.now ≡ 7 }
    requires workers { workers ≤ WORKERS_MOST }
{
    if text.len() > 1000 {
        return Err(Fail::new("a long script"));
    }
    let script = Script::read(alloc, text)?;
    if wants.len() != script.queries() as usize {
        return Err(Fail::new("another number of queries"));
    }
    let plans = plans_of(alloc, wants)?;
    let board = Board::new(alloc, 8, 7)?;
    let (board, seat) = SharedBoard::new(alloc, board)?;
    let scan = Scan {
        alloc,
        rt,
        boards: &board,
        engine,
        gate,
    };
    let (ends, seat) = drive(&scan, seat, plans, script.steps(), workers);
    drop(seat);
    Ok(letters(alloc, ends?.as_slice(), wants)?)
}

// A marker that has no memory for the queries of one number, and of number 0 for all.
pub(crate) fn marker_of(alloc: Global, starved: u32) -> Marker
    ensures { result.root ≡ 7 }
{
    Marker {
        alloc,
        root: 7,
        starved,
    }
}

/// A gate before the work on chunks 0 to 3 and another before that on the others. Of three participants that are in one
/// gate at one time, at most one is the czar.
#[derive(Drop)]
struct TwoGates {
    low: StepGate,
    high: StepGate,
}

impl Gate for TwoGates {
    fn pass<R: Wait>(&self, rt: &R, worker: u32, chunk: u32) {
        if chunk < 4 {
            self.low.pass(rt, worker, chunk)
        } else {
            self.high.pass(rt, worker, chunk)
        }
    }
}

#[test]
fn a_pass_that_is_alone_opens_the_gate_when_its_turns_run_out(rt: HostRuntime) {
    let gate = StepGate::new(2, 10);
    gate.pass(&rt, 0, 5);
    gate.pass(&rt, 0, 6);
    assert_eq!(rt; (gate.met(), gate.given_up()), (false, true));
}

#[test]
fn an_order_is_held_until_the_turns_of_a_pass_run_out(rt: HostRuntime) -> Result<(), Fail> {
    for (workers, gives_up) in [([1, 2, 3], false), ([2, 1, 1], true), ([1, 1, 2], true)] {
        let gate = ListGate::new([1, 2].to_vec(rt.alloc())?, 10);
        for worker in workers {
            gate.pass(&rt, worker, 0);
        }
        assert_eq!(rt; gate.given_up(), gives_up, "{workers:?}");
    }
    Ok(())
}

#[test]
fn two_workers_work_at_one_time_on_each_of_two_queries(rt: HostRuntime) -> Result<(), Fail> {
    let alloc = rt.alloc();
    let marker = marker_of(alloc, 0);
    let gate = TwoGates {
        low: StepGate::new(3, 1_000_000),
        high: StepGate::new(3, 1_000_000),
    };
    let wants = [Some((0, 4)), Some((4, 8))];
    let ends = session(alloc, &rt, &marker, &gate, b"q\nwait 1\nq\n", &wants, 4)?;
    assert_eq!(rt; ends.as_slice(), b"AA".as_slice());
    assert_eq!(rt; (gate.low.met(), gate.high.met()), (true, true));
    Ok(())
}

#[test]
fn a_query_that_finds_no_memory_is_spent_alone(rt: HostRuntime) -> Result<(), Fail> {
    let alloc = rt.alloc();
    let marker = marker_of(alloc, 2);
    let wants = [Some((0, 8)), Some((0, 8)), Some((4, 6))];
    for workers in [0, 4] {
        let ends = session(
            alloc,
            &rt,
            &marker,
            &OpenGate,
            b"q\nq\nq\n",
            &wants,
            workers,
        )?;
        assert_eq!(rt; ends.as_slice(), b"ASA".as_slice());
    }
    Ok(())
}
