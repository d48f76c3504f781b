//! A worker whose engine says what it refuses: of the queries that it works for, those alone are lost.
ghost use Rattle.std.specs.Prelude.{◌≡◌, ◌≢◌, ℕ, [], ◌<◌, ◌≤◌, All, IfOk, true};
ghost use Rattle.scan_rules.specs.Queries.{is_lost};

use scan_board::{Attach, Board, ChunkSet, Collect, Seat, SharedBoard, Task, Work};
use scan_rules::JournalLine;
use scan_worker::{Engine, worker};
use sky_io::{Memory, OpenGate};
use std::alloc::Global;
use std::process::Abort;
use std::sync::Wait;

/// The query that work was done for. One absorbs another without memory.
#[derive(Drop)]
struct Mark {
    q: u32,
}

impl Work for Mark {
    ghost use Rattle.std.specs.Prelude.{◌≡◌, ◌<◌};

    type Root = u8;

    ghost stands = { λ root q chunks mark. mark.q ≡ q };

    ghost asks = { λ root q chunk. chunk < 8 };

    ghost refuses = { λ mine other. ⊥ };

    fn absorb(&mut self, _other: Mark) -> Result<(), Memory> {
        Ok(())
    }
}

/// Refuses the pieces of query 3 and no others. For a list it tries again until there is memory.
#[derive(Drop)]
struct Refuser<'a, R> {
    rt: &'a R,
    root: u8,
}

impl<'a, R: Wait> Engine<Mark> for Refuser<'a, R> {
    ghost use Rattle.std.specs.Prelude.{◌≡◌};

    type Scratch = ();

    ghost root = { λ engine. engine.root };

    ghost refused = { λ engine q chunk. q ≡ 3 };

    fn scratch(&self) {}

    fn list(&self, alloc: Global, task: &Task) -> Result<Vec<Option<Mark>>, Memory> {
        for _ in self.rt.forever() {
            let mut list = Vec::new(alloc);
            if list.reserve(task.queries().len()).is_ok() {
                return Ok(list);
            }
        }
        unreachable!()
    }

    fn piece(&self, q: u32, _chunk: u32, _scratch: &mut ()) -> Result<Mark, Memory> {
        if q == 3 {
            return Err(Memory);
        }
        Ok(Mark { q })
    }
}

// Works at a board by itself until it is closed. Its lines lose query 3 alone.
fn work_alone<R: Wait>(
    alloc: Global,
    rt: &R,
    board: &SharedBoard<Mark>,
    seat: Seat<Board<Mark>>,
) -> Seat<Board<Mark>>
    requires own { seat.turn ≡ board.now }
    requires root { seat.root.root ≡ 7 }
    requires none { seat.mine ≡ [] }
    ensures own { result.turn ≡ board.now }
    ensures same { result.number ≡ seat.number }
    ensures lost { (q : ℕ) → is_lost result.mine q ≡ true → q ≡ 3 }
{
    let engine = Refuser { rt, root: 7 };
    worker(alloc, rt, board, seat, &engine, &OpenGate)
}

// The chunks 0 and 4.
fn two_chunks(alloc: Global) -> Result<ChunkSet, Memory>
    ensures { IfOk result (λ set. All (λ chunk. chunk < 8) set) }
{
    let mut set = ChunkSet::new(alloc);
    set.push(0)?;
    set.push(4)?;
    Ok(set)
}

// Attaches a query for two chunks. Returns whether it is attached.
fn attach<R: Wait>(
    alloc: Global,
    rt: &R,
    board: &SharedBoard<Mark>,
    seat: Seat<Board<Mark>>,
    q: u32,
) -> (bool, Seat<Board<Mark>>)
    requires own { seat.turn ≡ board.now }
    requires ring { seat.root.ring ≡ 8 }
    requires query { (1 ≤ q) × (q ≤ 255) }
    ensures own { result.1.turn ≡ board.now }
    ensures root { result.1.root ≡ seat.root }
    ensures number { (result.1.number ≡ seat.number) × (result.1.made ≡ seat.made) }
{
    match two_chunks(alloc) {
        Err(Memory) => (false, seat),
        Ok(chunks) => {
            let (answer, seat) = board.attach(rt, seat, q, chunks, Mark { q });
            (matches!(answer, Attach::Attached), seat)
        }
    }
}

// How many of the lines lose query 2, and how many lose query 3.
fn losses(lines: &[JournalLine]) -> (u32, u32) {
    let mut second = 0u32;
    let mut third = 0u32;
    for line in lines {
        if let JournalLine::Deliver { lost, .. } = line {
            second = second.wrapping_add(lost.has(2) as u32);
            third = third.wrapping_add(lost.has(3) as u32);
        }
    }
    (second, third)
}

// One line of the journal loses query 3 and none loses query 2. So that one is spent, and this one is answered: their
// ends are collected.
fn collect_both<R: Abort + Wait>(rt: &R, board: &SharedBoard<Mark>, seat: Seat<Board<Mark>>)
    requires own { seat.turn ≡ board.now }
{
    let (journal, seat) = board.journal(rt, seat);
    match journal {
        Err(Memory) => panic!(rt; "the journal is read"),
        Ok(journal) => assert_eq!(rt; losses(journal.lines.as_slice()), (0, 1)),
    }
    let (end, seat) = board.collect(rt, seat, 2);
    assert!(rt; matches!(end, Collect::Piece(Mark { q: 2 })));
    let (end, _) = board.collect(rt, seat, 3);
    assert!(rt; matches!(end, Collect::Spent));
}

// One seat attaches both queries and closes the board, and another one works.
fn work_for_both<R: Abort + Wait>(
    alloc: Global,
    rt: &R,
    board: &SharedBoard<Mark>,
    seat: Seat<Board<Mark>>,
)
    requires own { seat.turn ≡ board.now }
    requires root { (seat.root.ring ≡ 8) × (seat.root.root ≡ 7) }
    requires first { (seat.number ≡ 0) × (seat.made ≡ 1) }
{
    let (first, seat) = attach(alloc, rt, board, seat, 2);
    let (second, mut seat) = attach(alloc, rt, board, seat, 3);
    assert!(rt; first && second);
    let other = board.split(&mut seat);
    let mut seat = board.close(rt, seat);
    let other = work_alone(alloc, rt, board, other);
    board.join(&mut seat, other);
    collect_both(rt, board, seat)
}

#[test]
fn the_query_whose_pieces_are_refused_is_lost_alone(rt: HostRuntime) {
    let alloc = rt.alloc();
    let Ok(board) = Board::new(alloc, 8, 7u8) else {
        panic!(rt; "a board is made")
    };
    let Ok((board, seat)) = SharedBoard::<Mark>::new(alloc, board) else {
        panic!(rt; "a turn is made")
    };
    work_for_both(alloc, &rt, &board, seat)
}
