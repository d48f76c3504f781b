//! Workers on threads beside the czar.
//!
//! Each call splits one participant of each board off, and runs a worker with it beside the rest; the innermost call is
//! the czar itself. It closes the boards on every path. So a worker whose thread cannot be started, which runs after the
//! czar in the czar's thread, ends too; and each participant that was split off is joined again. If there are workers,
//! they and the czar are a team: one that finds nothing to take makes pieces of another's task.
ghost use Rattle.std.specs.Prelude.{◌-◌, ◌≤◌};
ghost use Rattle.std.specs.Thread.{IsSync};
ghost use Rattle.scan_session.specs.Crews.{AreWorkers, MannedBy, MaySplit, Served};
ghost use Rattle.scan_session.specs.Czars.{MayRun, Ran};
ghost use Rattle.scan_worker.specs.Missing.{MayLose};
ghost use Rattle.scan_worker.specs.Opened.{ArePromised};

use crate::czar::czar;
use crate::end::{End, Outcome, Planned};
use crate::scan::Scan;
use scan_boards::Boards;
use scan_core::Work;
use scan_worker::{Desk, Engine, Promised, Team, worker};
use session_script::Step;
use sky_io::Gate;
use std::sync::Wait;
use std::thread::{Threads, join};

/// Runs the czar's part alone, with its lists by value and a worker context of its own.
fn alone<R: Wait, P: Work, B: Boards<P>, E: Engine<P>, G: Gate>(
    scan: &Scan<'_, R, B, E, G>,
    seat: B::Seat,
    plans: Vec<Option<Planned<P>>>,
    ends: Vec<Option<End<P>>>,
    steps: &[Step],
) -> (Outcome, Vec<Option<End<P>>>, B::Seat)
    requires { MayRun P.asks P.stands (B.turn scan.now.boards.now) (B.suits scan.now.boards.now)
        (E.root scan.now.engine.now) (B.at seat) plans.items ends.items steps.now }
    ensures ran { Ran P.stands (B.has scan.now.boards.now) (B.home scan.now.boards.now) (B.at seat)
        (B.at result.2) plans.items ends.items result.1.items steps.now result.0 }
    ensures manned { (p : B.Place) → MannedBy P.asks
        (MayLose (E.refused scan.now.engine.now)
        (E.unlisted scan.now.engine.now (E.refused scan.now.engine.now))
        P.refuses (P.stands (E.root scan.now.engine.now))) 0
        (B.at seat p) (B.at result.2 p) }
{
    let mut plans = plans;
    let mut ends = ends;
    let mut desk = Desk::new(scan.alloc, scan.engine.scratch());
    let (outcome, seat) = czar(
        scan,
        &mut desk,
        seat,
        plans.as_mut_slice(),
        ends.as_mut_slice(),
        steps,
    );
    (outcome, ends, seat)
}

/// Runs a worker, which has a participant of each board.
fn run_worker<R: Wait, P: Work, B: Boards<P>, E: Engine<P>, G: Gate>(
    scan: &Scan<'_, R, B, E, G>,
    seat: B::Seat,
) -> B::Seat
    requires { AreWorkers (B.turn scan.now.boards.now) (E.root scan.now.engine.now) (B.at seat) }
    ensures { (p : B.Place) → Served P.asks
        (MayLose (E.refused scan.now.engine.now)
        (E.unlisted scan.now.engine.now (E.refused scan.now.engine.now))
        P.refuses (P.stands (E.root scan.now.engine.now)))
        (B.at seat p) (B.at result p) }
{
    worker(
        scan.alloc,
        scan.rt,
        scan.boards,
        seat,
        scan.engine,
        scan.gate,
    )
}

/// Runs the czar with the given number of workers beside it.
fn manned<
    R: Threads + Wait + Sync,
    P: Work + Send,
    B: Boards<P> + Sync,
    E: Engine<P> + Sync,
    G: Gate + Sync,
>(
    scan: &Scan<'_, R, B, E, G>,
    seat: B::Seat,
    plans: Vec<Option<Planned<P>>>,
    ends: Vec<Option<End<P>>>,
    steps: &[Step],
    workers: u32,
) -> (Outcome, Vec<Option<End<P>>>, B::Seat)
where
    P::Root: Send,
    B::Place: Send,
    B::Seat: Send,
    E::Scratch: Send,
    requires may { MayRun P.asks P.stands (B.turn scan.now.boards.now) (B.suits scan.now.boards.now)
        (E.root scan.now.engine.now) (B.at seat) plans.items ends.items steps.now }
    requires split { (p : B.Place) → MaySplit workers (B.at seat p) }
    ensures ran { Ran P.stands (B.has scan.now.boards.now) (B.home scan.now.boards.now) (B.at seat)
        (B.at result.2) plans.items ends.items result.1.items steps.now result.0 }
    ensures manned { (p : B.Place) → MannedBy P.asks
        (MayLose (E.refused scan.now.engine.now)
        (E.unlisted scan.now.engine.now (E.refused scan.now.engine.now))
        P.refuses (P.stands (E.root scan.now.engine.now))) workers
        (B.at seat p) (B.at result.2 p) }
{
    if workers == 0 {
        return alone(scan, seat, plans, ends, steps);
    }
    let mut seat = seat;
    let other = scan.boards.split(&mut seat);
    let (other, (outcome, ends, seat)) = join(
        scan.rt,
        move || -> B::Seat
            requires shared { IsSync R.row }
            requires workers { AreWorkers (B.turn scan.now.boards.now) (E.root scan.now.engine.now)
                (B.at other) }
            ensures { (p : B.Place) → Served P.asks
                (MayLose (E.refused scan.entry.now.engine.now)
                (E.unlisted scan.entry.now.engine.now (E.refused scan.entry.now.engine.now)) P.refuses
                (P.stands (E.root scan.entry.now.engine.now)))
                (B.at other p) (B.at result p) }
        { run_worker(scan, other) },
        move || -> (Outcome, Vec<Option<End<P>>>, B::Seat)
            requires shared { IsSync R.row }
            requires may { MayRun P.asks P.stands (B.turn scan.now.boards.now)
                (B.suits scan.now.boards.now) (E.root scan.now.engine.now) (B.at seat) plans.items
                ends.items steps.now }
            requires some { 1 ≤ workers }
            requires split { (p : B.Place) → MaySplit (workers - 1) (B.at seat p) }
            ensures ran { Ran P.stands (B.has scan.entry.now.boards.now)
                (B.home scan.entry.now.boards.now) (B.at seat) (B.at result.2) plans.items
                ends.items result.1.items steps.entry.now result.0 }
            ensures manned { (p : B.Place) → MannedBy P.asks
                (MayLose (E.refused scan.entry.now.engine.now)
                (E.unlisted scan.entry.now.engine.now (E.refused scan.entry.now.engine.now)) P.refuses
                (P.stands (E.root scan.entry.now.engine.now))) (workers - 1)
                (B.at seat p) (B.at result.2 p) }
        { manned(scan, seat, plans, ends, steps, workers - 1) },
    );
    let mut seat = seat;
    scan.boards.join(&mut seat, other);
    (outcome, ends, seat)
}

/// Runs the czar with the given number of workers beside it. Each of them makes pieces of the tasks of the others when
/// there is nothing to take.
pub fn teamed<
    R: Threads + Wait + Sync,
    P: Work + Send,
    B: Boards<P> + Sync,
    E: Engine<P> + Sync,
    G: Gate + Sync,
    W: Promised<P> + Send + Sync,
>(
    scan: &Scan<'_, R, B, E, G>,
    seat: B::Seat,
    plans: Vec<Option<Planned<P>>>,
    ends: Vec<Option<End<P>>>,
    steps: &[Step],
    workers: u32,
) -> (Outcome, Vec<Option<End<P>>>, B::Seat)
where
    P::Root: Send,
    B::Place: Send,
    B::Seat: Send,
    E::Scratch: Send,
    requires may { MayRun P.asks P.stands (B.turn scan.now.boards.now) (B.suits scan.now.boards.now)
        (E.root scan.now.engine.now) (B.at seat) plans.items ends.items steps.now }
    requires kept { ArePromised P.asks P.stands (E.root scan.now.engine.now) W.asks W.stands
        (E.refused scan.now.engine.now) W.refused }
    requires split { (p : B.Place) → MaySplit workers (B.at seat p) }
    ensures ran { Ran P.stands (B.has scan.now.boards.now) (B.home scan.now.boards.now) (B.at seat)
        (B.at result.2) plans.items ends.items result.1.items steps.now result.0 }
    ensures manned { (p : B.Place) → MannedBy P.asks
        (MayLose (E.refused scan.now.engine.now)
        (E.unlisted scan.now.engine.now (E.refused scan.now.engine.now))
        P.refuses (P.stands (E.root scan.now.engine.now))) workers
        (B.at seat p) (B.at result.2 p) }
{
    // a czar without workers has no one to help it
    let seats = if workers == 0 {
        0
    } else {
        workers as usize + 1
    };
    let team = Team::<'_, P, E, W>::new(scan.alloc, scan.engine, seats);
    let scan = Scan {
        alloc: scan.alloc,
        rt: scan.rt,
        boards: scan.boards,
        engine: &team,
        gate: scan.gate,
    };
    manned(&scan, seat, plans, ends, steps, workers)
}
