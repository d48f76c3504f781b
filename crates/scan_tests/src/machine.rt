//! Boards whose pieces are sums: that calls succeed with ample memory, step by step.
ghost use Rattle.std.specs.Prelude.{◌≡◌, ℕ, ◌+◌, ◌*◌, ◌<◌, ◌≤◌, [], ◌∷◌, IfOk, ◌≢◌, sum_by};
ghost use Rattle.scan_core.specs.Boards.{TaskState};
ghost use Rattle.scan_core.specs.Delivering.{InFlight, PiecesFit};
ghost use Rattle.scan_core.specs.Answers.{IfTask};

use scan_core::{Attach, Board, ChunkSet, Collect, Take, Task, Work};
use sky_io::{Lineage, Memory};
use std::alloc::Global;
use std::process::Abort;

/// The sum of a query's chunks, each as 1000 times the query's number and the chunk's.
#[derive(Drop)]
pub(crate) struct Sum {
    total: u64,
}

impl Work for Sum {
    type Root = u8;

    ghost stands = { λ root q chunks sum. sum.total ≡ sum_by (λ chunk. 1000 * q + chunk) chunks };

    ghost asks = { λ root q chunk. Unit {0} };

    fn absorb(&mut self, other: Sum) -> Result<(), Memory> {
        let Some(total) = self.total.checked_add(other.total) else {
            return Err(Memory);
        };
        self.total = total;
        Ok(())
    }
}

// The chunks of a query.
fn two_chunks(alloc: Global, first: u32, last: u32) -> Result<ChunkSet, Memory>
    requires { first < last }
    ensures { IfOk result (λ set. set ≡ first ∷ last ∷ []) }
{
    let mut set = ChunkSet::new(alloc);
    set.push(first)?;
    set.push(last)?;
    Ok(set)
}

// What an attach answered, without what it hands back.
#[derive(Clone, Copy)]
pub(crate) enum Answer {
    Attached,
    Closed,
    Again,
    Full,
    Memory,
}

// What was answered, and drops what is handed back.
fn answer_of(attach: Attach<Sum>) -> Answer {
    match attach {
        Attach::Attached => Answer::Attached,
        Attach::Closed { .. } => Answer::Closed,
        Attach::Again { .. } => Answer::Again,
        Attach::Full { .. } => Answer::Full,
        Attach::Memory { .. } => Answer::Memory,
    }
}

// Attaches a query to a board of ring 8, and tasks stay in flight.
pub(crate) fn attach(
    alloc: Global,
    board: &mut Board<Sum>,
    q: u32,
    first: u32,
    last: u32,
) -> Result<Answer, Memory>
    requires ring { board.old.ring ≡ 8 }
    requires query { (1 ≤ q) × (q ≤ 255) }
    requires chunks { (first < last) × (last < 8) }
    ensures ring { board.new.ring ≡ 8 }
    ensures flying { (s : ℕ) (t : TaskState)
        → InFlight board.old.past s t → InFlight board.new.past s t }
{
    let chunks = two_chunks(alloc, first, last)?;
    Ok(answer_of(board.attach(0, q, chunks, Sum { total: 0 })))
}

// Takes, and other tasks stay in flight.
pub(crate) fn take(board: &mut Board<Sum>, seat: u32) -> Take
    ensures ring { board.new.ring ≡ board.old.ring }
    ensures flies { IfTask result (λ task. InFlight board.new.past seat task) }
    ensures flying { (s : ℕ) (t : TaskState)
        → InFlight board.old.past s t → InFlight board.new.past s t }
{
    board.take(seat)
}

// Delivers a task, and other tasks stay in flight.
pub(crate) fn deliver(
    alloc: Global,
    board: &mut Board<Sum>,
    seat: u32,
    task: Task,
) -> Result<(), Memory>
    requires flight { InFlight board.old.past seat task }
    ensures ring { board.new.ring ≡ board.old.ring }
    ensures flying { (s : ℕ) (t : TaskState) → t.ticket ≢ task.ticket
        → InFlight board.old.past s t → InFlight board.new.past s t }
{
    let sums = sums_of(alloc, &task)?;
    board.deliver(seat, task, sums);
    Ok(())
}

// Cancels a query, and returns whether it ran. Tasks stay in flight.
pub(crate) fn cancel(board: &mut Board<Sum>, q: u32) -> bool
    requires ring { board.old.ring ≡ 8 }
    ensures ring { board.new.ring ≡ 8 }
    ensures flying { (s : ℕ) (t : TaskState)
        → InFlight board.old.past s t → InFlight board.new.past s t }
{
    board.cancel(0, q)
}

// Whether the query still runs; tasks stay in flight.
fn is_not_yet(board: &mut Board<Sum>, q: u32) -> bool
    requires ring { board.old.ring ≡ 8 }
    ensures ring { board.new.ring ≡ 8 }
    ensures flying { (s : ℕ) (t : TaskState)
        → InFlight board.old.past s t → InFlight board.new.past s t }
{
    matches!(board.collect(0, q), Collect::NotYet)
}

// The sum of a query that is done and not collected.
pub(crate) fn piece_of(board: &mut Board<Sum>, q: u32) -> Option<u64>
    ensures ring { board.new.ring ≡ board.old.ring }
{
    match board.collect(0, q) {
        Collect::Piece(sum) => Some(sum.total),
        _ => None,
    }
}

// Closes the board.
fn close(board: &mut Board<Sum>)
    requires ring { board.old.ring ≡ 8 }
    ensures ring { board.new.ring ≡ 8 }
{
    board.close(0);
}

// The pieces of a task, one a query.
fn sums_of(alloc: Global, task: &Task) -> Result<Vec<Option<Sum>>, Memory>
    ensures { IfOk result (λ sums.
        PiecesFit (λ q chunks sum. sum.total ≡ sum_by (λ chunk. 1000 * q + chunk) chunks)
        task.now.chunk task.now.queries sums.items) }
{
    let mut sums = Vec::new(alloc);
    let queries = task.queries();
    for turn in 0..queries.len() {
        let q = queries[turn];
        let sum = Sum {
            total: 1000 * q as u64 + task.chunk() as u64,
        };
        sums.push(Some(sum))?;
    }
    Ok(sums)
}

// Whether this is the task of that ticket and chunk, for those queries.
fn is_task(task: &Task, ticket: u32, chunk: u32, queries: &[u32]) -> bool {
    task.ticket() == ticket && task.chunk() == chunk && task.queries() == queries
}

#[test]
fn a_late_query_is_served_what_it_missed_on_the_next_round(rt: HostRuntime) {
    let Ok(mut board) = Board::new(rt.alloc(), 8, 0u8) else {
        panic!(rt; "a board is made")
    };
    begin_late_query(&rt, rt.alloc(), &mut board);
}

// Query 2 is attached to an empty board of ring 8 while the first chunk of query 1 is out.
fn begin_late_query<R: Abort>(rt: &R, alloc: Global, board: &mut Board<Sum>)
    requires ring { board.old.ring ≡ 8 }
{
    assert!(rt; matches!(attach(alloc, board, 1, 0, 4), Ok(Answer::Attached)));
    let Take::Task(first) = take(board, 1) else {
        panic!(rt; "chunk 0 is next")
    };
    assert!(rt; is_task(&first, 0, 0, [1].as_slice()));
    assert!(rt; matches!(attach(alloc, board, 2, 0, 4), Ok(Answer::Attached)));
    serve_late_query(rt, alloc, board, first);
}

// Both queries' next chunk is taken and delivered before the first one is.
fn serve_late_query<R: Abort>(rt: &R, alloc: Global, board: &mut Board<Sum>, first: Task)
    requires ring { board.old.ring ≡ 8 }
    requires flight { InFlight board.old.past 1 first }
{
    let Take::Task(second) = take(board, 2) else {
        panic!(rt; "chunk 4 is next")
    };
    if first.ticket() == second.ticket() {
        panic!(rt; "each take has its own ticket")
    }
    assert!(rt; is_task(&second, 1, 4, [1, 2].as_slice()));
    assert!(rt; deliver(alloc, board, 2, second).is_ok());
    assert!(rt; is_not_yet(board, 1));
    assert!(rt; deliver(alloc, board, 1, first).is_ok());
    finish_late_query(rt, alloc, board);
    end_late_query(rt, alloc, board);
}

// What is done with the board above once both tasks are delivered.
fn finish_late_query<R: Abort>(rt: &R, alloc: Global, board: &mut Board<Sum>)
    requires ring { board.old.ring ≡ 8 }
    ensures ring { board.new.ring ≡ 8 }
{
    let Take::Task(third) = take(board, 1) else {
        panic!(rt; "chunk 0 is next")
    };
    assert!(rt; is_task(&third, 2, 0, [2].as_slice()));
    assert!(rt; matches!(take(board, 2), Take::Idle));
    assert!(rt; deliver(alloc, board, 1, third).is_ok());
}

// The ends of both queries of the board above, and its close.
fn end_late_query<R: Abort>(rt: &R, alloc: Global, board: &mut Board<Sum>)
    requires ring { board.old.ring ≡ 8 }
{
    assert!(rt; piece_of(board, 1) == Some(2004));
    assert!(rt; piece_of(board, 1).is_none());
    assert!(rt; piece_of(board, 2) == Some(4004));
    assert!(rt; matches!(attach(alloc, board, 1, 0, 4), Ok(Answer::Again)));
    close(board);
    assert!(rt; matches!(attach(alloc, board, 3, 0, 4), Ok(Answer::Closed)));
    assert!(rt; is_ended(board));
    assert!(rt; board.past_len() == 11);
}

// Whether nothing is left to take, and the board is closed.
fn is_ended(board: &mut Board<Sum>) -> bool {
    matches!(board.take(1), Take::Ended)
}

#[test]
fn a_full_board_takes_no_query_until_one_has_ended(rt: HostRuntime) {
    let Ok(mut board) = Board::new(rt.alloc(), 8, 0u8) else {
        panic!(rt; "a board is made")
    };
    fill(&rt, rt.alloc(), &mut board);
    assert!(rt; matches!(attach(rt.alloc(), &mut board, 65, 0, 1), Ok(Answer::Full)));
    assert_eq!(rt; (board.cancel(0, 64), board.cancel(0, 64)), (true, false));
    assert!(rt; is_cancelled(&mut board, 64));
}

// Attaches as many queries as may run at once.
fn fill<R: Abort>(rt: &R, alloc: Global, board: &mut Board<Sum>)
    requires ring { board.old.ring ≡ 8 }
    ensures ring { board.new.ring ≡ 8 }
{
    for q in 1..65u32 {
        assert!(rt;
            matches!(attach(alloc, board, q, 0, 1), Ok(Answer::Attached)),
            "query {q}"
        );
    }
}

// Whether the query was cancelled: its end is collected.
pub(crate) fn is_cancelled(board: &mut Board<Sum>, q: u32) -> bool {
    matches!(board.collect(0, q), Collect::Cancelled)
}

#[test]
fn a_query_that_got_no_piece_is_spent_once(rt: HostRuntime) {
    let Ok(mut board) = Board::new(rt.alloc(), 8, 0u8) else {
        panic!(rt; "a board is made")
    };
    lose(&rt, rt.alloc(), &mut board);
    assert!(rt; matches!(take(&mut board, 1), Take::Idle));
    assert!(rt; matches!(board.collect(0, 1), Collect::Spent));
    assert!(rt; matches!(board.collect(0, 1), Collect::Gone));
    assert!(rt; board.past_len() == 4);
}

// Query 1 is attached, and its first chunk delivered without a piece.
fn lose<R: Abort>(rt: &R, alloc: Global, board: &mut Board<Sum>)
    requires ring { board.old.ring ≡ 8 }
    ensures ring { board.new.ring ≡ 8 }
{
    assert!(rt; matches!(attach(alloc, board, 1, 0, 1), Ok(Answer::Attached)));
    let Take::Task(task) = take(board, 1) else {
        panic!(rt; "chunk 0 is next")
    };
    assert!(rt; is_task(&task, 0, 0, [1].as_slice()));
    board.deliver(1, task, Vec::new(alloc));
}
