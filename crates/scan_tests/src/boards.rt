//! Two seats at one board on one thread: that calls succeed, and each finds what the other added.
ghost use Rattle.std.specs.Prelude.{◌≡◌, ◌≢◌, [], ◌∷◌, ◌<◌, ◌≤◌, IfOk};

use scan_board::{Attach, Board, ChunkSet, Collect, Seat, SharedBoard, Take, Work};
use sky_io::Memory;
use std::alloc::Global;
use std::process::Abort;
use std::sync::Wait;

/// How many chunks a query's work was done on.
#[derive(Drop)]
struct Count {
    chunks: u64,
}

impl Work for Count {
    ghost use Rattle.std.specs.Prelude.{◌≡◌, ◌<◌, length};

    type Root = u8;

    ghost stands = { λ root q chunks count. count.chunks ≡ length chunks };

    ghost asks = { λ root q chunk. chunk < 8 };

    fn absorb(&mut self, other: Count) -> Result<(), Memory> {
        let Some(chunks) = self.chunks.checked_add(other.chunks) else {
            return Err(Memory);
        };
        self.chunks = chunks;
        Ok(())
    }
}

fn shares<X: Sync>(_shared: &X) {}

fn sends<X: Send>(_sent: &X) {}

// A board of any work that crosses threads is shared by them, and its seats cross too.
fn crosses<P: Work<Root: Send> + Send>(board: &SharedBoard<P>, seat: &Seat<Board<P>>) {
    shares(board);
    sends(seat);
}

// The chunks of a query.
fn two_chunks(alloc: Global, first: u32, last: u32) -> Result<ChunkSet, Memory>
    requires { first < last }
    ensures { IfOk result (λ set. set ≡ first ∷ last ∷ []) }
{
    let mut set = ChunkSet::new(alloc);
    set.push(first)?;
    set.push(last)?;
    Ok(set)
}

// Attaches a query for two chunks to a board of ring 8. Returns whether it is attached.
fn attach<R: Wait>(
    alloc: Global,
    rt: &R,
    board: &SharedBoard<Count>,
    seat: Seat<Board<Count>>,
    q: u32,
    first: u32,
    last: u32,
) -> (bool, Seat<Board<Count>>)
    requires own { seat.turn ≡ board.now }
    requires ring { seat.root.ring ≡ 8 }
    requires query { (1 ≤ q) × (q ≤ 255) }
    requires chunks { (first < last) × (last < 8) }
    ensures own { result.1.turn ≡ board.now }
    ensures root { result.1.root ≡ seat.root }
    ensures number { (result.1.number ≡ seat.number) × (result.1.made ≡ seat.made) }
{
    match two_chunks(alloc, first, last) {
        Err(Memory) => (false, seat),
        Ok(chunks) => {
            let (answer, seat) = board.attach(rt, seat, q, chunks, Count { chunks: 0 });
            (matches!(answer, Attach::Attached), seat)
        }
    }
}

// Takes a task, and delivers it without a piece. Returns its chunk and how many queries it had.
fn take_and_deliver<R: Wait>(
    alloc: Global,
    rt: &R,
    board: &SharedBoard<Count>,
    seat: Seat<Board<Count>>,
) -> (Option<(u32, usize)>, Seat<Board<Count>>)
    requires own { seat.turn ≡ board.now }
    ensures own { result.1.turn ≡ board.now }
    ensures root { result.1.root ≡ seat.root }
    ensures number { (result.1.number ≡ seat.number) × (result.1.made ≡ seat.made) }
{
    let (taken, seat) = board.take(rt, seat);
    match taken {
        Take::Task(task) => {
            let told = (task.chunk(), task.queries().len());
            let seat = board.deliver(rt, seat, task, Vec::new(alloc));
            (Some(told), seat)
        }
        _ => (None, seat),
    }
}

// Whether the query was lost: its end is collected.
fn is_spent<R: Wait>(
    rt: &R,
    board: &SharedBoard<Count>,
    seat: Seat<Board<Count>>,
    q: u32,
) -> (bool, Seat<Board<Count>>)
    requires own { seat.turn ≡ board.now }
    ensures own { result.1.turn ≡ board.now }
{
    let (end, seat) = board.collect(rt, seat, q);
    (matches!(end, Collect::Spent), seat)
}

// Whether the query was cancelled: its end is collected.
fn is_cancelled<R: Wait>(
    rt: &R,
    board: &SharedBoard<Count>,
    seat: Seat<Board<Count>>,
    q: u32,
) -> (bool, Seat<Board<Count>>)
    requires own { seat.turn ≡ board.now }
    ensures own { result.1.turn ≡ board.now }
{
    let (end, seat) = board.collect(rt, seat, q);
    (matches!(end, Collect::Cancelled), seat)
}

// Whether nothing is left to take, and the board is closed.
fn is_ended<R: Wait>(
    rt: &R,
    board: &SharedBoard<Count>,
    seat: Seat<Board<Count>>,
) -> (bool, Seat<Board<Count>>)
    requires own { seat.turn ≡ board.now }
    ensures own { result.1.turn ≡ board.now }
    ensures number { result.1.number ≡ seat.number }
{
    let (taken, seat) = board.take(rt, seat);
    (matches!(taken, Take::Ended), seat)
}

// Each of two seats ends what the other began: query 1 is delivered without a piece, and query 2 runs.
fn end_both<R: Abort + Wait>(
    rt: &R,
    board: &SharedBoard<Count>,
    seat: Seat<Board<Count>>,
    other: Seat<Board<Count>>,
)
    requires own { (seat.turn ≡ board.now) × (other.turn ≡ board.now) }
    requires not_first { other.number ≢ 0 }
{
    let (spent, seat) = is_spent(rt, board, seat, 1);
    assert!(rt; spent, "it was delivered without a piece");
    let (cancelled, other) = board.cancel(rt, other, 2);
    assert!(rt; cancelled);
    let mut seat = board.close(rt, seat);
    let (ended, other) = is_ended(rt, board, other);
    assert!(rt; ended);
    board.join(&mut seat, other);
    assert!(rt; is_cancelled(rt, board, seat, 2).0);
}

// Seat 0 attaches a query before it splits another seat off and one after that, and the other seat takes a chunk.
fn begin_both<R: Abort + Wait>(
    alloc: Global,
    rt: &R,
    board: &SharedBoard<Count>,
    seat: Seat<Board<Count>>,
)
    requires own { seat.turn ≡ board.now }
    requires ring { seat.root.ring ≡ 8 }
    requires first { (seat.number ≡ 0) × (seat.made ≡ 1) }
{
    let (first, mut seat) = attach(alloc, rt, board, seat, 1, 0, 4);
    let other = board.split(&mut seat);
    crosses(board, &other);
    let (second, seat) = attach(alloc, rt, board, seat, 2, 4, 5);
    assert!(rt; first && second);
    let (told, other) = take_and_deliver(alloc, rt, board, other);
    assert_eq!(rt; told, Some((0, 1)));
    end_both(rt, board, seat, other)
}

#[test]
fn each_seat_finds_what_the_other_added(rt: HostRuntime) {
    let alloc = rt.alloc();
    let Ok(board) = Board::new(alloc, 8, 0u8) else {
        panic!(rt; "a board is made")
    };
    let Ok((board, seat)) = SharedBoard::<Count>::new(alloc, board) else {
        panic!(rt; "a turn is made")
    };
    begin_both(alloc, &rt, &board, seat)
}
