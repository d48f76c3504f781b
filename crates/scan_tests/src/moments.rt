//! A query that is cancelled at each moment of another's run: that the other one is served all its chunks.
ghost use Rattle.std.specs.Prelude.{◌≡◌, ◌≢◌, ℕ, false};
ghost use Rattle.scan_core.specs.Boards.{TaskState};
ghost use Rattle.scan_core.specs.Delivering.{InFlight};
ghost use Rattle.scan_core.specs.Answers.{IfTask};

use crate::machine::{Answer, Sum, attach, cancel, deliver, is_cancelled, piece_of, take};
use scan_core::{Board, Take};
use std::alloc::Global;
use std::process::Abort;

// At its moment query 1 is cancelled. The call returns whether it runs: after its attach, and before its last deliver.
fn cancel_at<R: Abort>(rt: &R, board: &mut Board<Sum>, moment: u32, now: u32)
    requires ring { board.old.ring ≡ 8 }
    ensures ring { board.new.ring ≡ 8 }
    ensures flying { (s : ℕ) (t : TaskState)
        → InFlight board.old.past s t → InFlight board.new.past s t }
{
    if moment == now {
        let ran = cancel(board, 1);
        assert_eq!(rt; ran, (1..6).contains(&moment), "moment {moment}");
    }
}

// Delivers a task, if there is one.
fn deliver_taken(alloc: Global, board: &mut Board<Sum>, seat: u32, taken: Take) -> bool
    requires ring { board.old.ring ≡ 8 }
    requires flight { IfTask taken (λ task. InFlight board.old.past seat task) }
    ensures ring { board.new.ring ≡ 8 }
{
    match taken {
        Take::Task(task) => deliver(alloc, board, seat, task).is_ok(),
        _ => true,
    }
}

// Whether it is a task of this ticket.
fn has_ticket(taken: &Take, ticket: u32) -> bool
    ensures { IfTask taken.now (λ task. result ≡ false → task.ticket ≢ ticket) }
{
    match taken {
        Take::Task(task) => task.ticket() == ticket,
        _ => false,
    }
}

// Query 1 is attached and a chunk is taken for it; then query 2 is attached.
fn begin<R: Abort>(rt: &R, alloc: Global, board: &mut Board<Sum>, moment: u32)
    requires ring { board.old.ring ≡ 8 }
{
    cancel_at(rt, board, moment, 0);
    assert!(rt; matches!(attach(alloc, board, 1, 0, 4), Ok(Answer::Attached)));
    cancel_at(rt, board, moment, 1);
    let first = take(board, 1);
    cancel_at(rt, board, moment, 2);
    assert!(rt; matches!(attach(alloc, board, 2, 0, 4), Ok(Answer::Attached)));
    cancel_at(rt, board, moment, 3);
    serve(rt, alloc, board, moment, first);
}

// Another chunk is taken and delivered before the first one is.
fn serve<R: Abort>(rt: &R, alloc: Global, board: &mut Board<Sum>, moment: u32, first: Take)
    requires ring { board.old.ring ≡ 8 }
    requires flight { IfTask first (λ task. InFlight board.old.past 1 task) }
{
    let Take::Task(second) = take(board, 2) else {
        panic!(rt; "query 2 wants a chunk")
    };
    cancel_at(rt, board, moment, 4);
    if has_ticket(&first, second.ticket()) {
        panic!(rt; "each take has its own ticket")
    }
    assert!(rt; deliver(alloc, board, 2, second).is_ok());
    cancel_at(rt, board, moment, 5);
    assert!(rt; deliver_taken(alloc, board, 1, first));
    cancel_at(rt, board, moment, 6);
    finish(rt, alloc, board, moment);
    end(rt, board, moment);
}

// The last chunk of query 2 is taken and delivered.
fn finish<R: Abort>(rt: &R, alloc: Global, board: &mut Board<Sum>, moment: u32)
    requires ring { board.old.ring ≡ 8 }
    ensures ring { board.new.ring ≡ 8 }
{
    let third = take(board, 1);
    cancel_at(rt, board, moment, 7);
    assert!(rt; deliver_taken(alloc, board, 1, third));
    cancel_at(rt, board, moment, 8);
    assert!(rt; matches!(take(board, 1), Take::Idle), "moment {moment}");
}

// Query 1 has its sum if it was not cancelled in time, and query 2 has its sum: 1000 times its number for each chunk,
// and 4.
fn end<R: Abort>(rt: &R, board: &mut Board<Sum>, moment: u32)
    requires ring { board.old.ring ≡ 8 }
{
    if (1..6).contains(&moment) {
        assert!(rt; is_cancelled(board, 1), "moment {moment}");
    } else {
        assert!(rt; piece_of(board, 1) == Some(2004), "moment {moment}");
    }
    assert!(rt; piece_of(board, 2) == Some(4004), "moment {moment}");
}

#[test]
fn a_cancel_at_any_moment_leaves_the_other_query_whole(rt: HostRuntime) {
    for moment in 0..9 {
        let Ok(mut board) = Board::new(rt.alloc(), 8, 0u8) else {
            panic!(rt; "a board is made")
        };
        begin(&rt, rt.alloc(), &mut board, moment);
    }
}
