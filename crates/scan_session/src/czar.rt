//! The czar alone: the script, the ends of all queries, and the close, on every path.
ghost use Rattle.std.specs.Prelude.{◌≡◌, ℕ, [], List, Option, true};
ghost use Rattle.session_script.specs.declared.step.Step.{Step};
ghost use Rattle.scan_rules.specs.Lines.{seat_of};
ghost use Rattle.scan_rules.specs.Queries.{is_closed, QueryState};
ghost use Rattle.turn_lock.specs.Seats.{Knows};
ghost use Rattle.scan_worker.specs.Missing.{MayLose};
ghost use Rattle.scan_session.specs.Plans.{Plans};
ghost use Rattle.scan_session.specs.Seats.{Stays};
ghost use Rattle.scan_session.specs.Places.{AreCzars, DrivingAll, GoingAll};
ghost use Rattle.scan_session.specs.KnownEnds.{known_in, AllKnown, Marks, Ready};
ghost use Rattle.scan_session.specs.Goes.{Goes, StopsWithRoom};
ghost use Rattle.scan_session.specs.Crews.{Leaves};
ghost use Rattle.scan_session.specs.Czars.{Learns, MayRun, Ran};
ghost use Rattle.scan_session.specs.declared.end.Outcome.{Outcome};

use crate::end::{End, Outcome, Planned};
use crate::scan::Scan;
use crate::script::{all_ends, all_lines};
use scan_boards::Boards;
use scan_core::Work;
use scan_worker::{Desk, Engine};
use session_script::Step;
use sky_io::Gate;
use std::sync::Wait;

/// Runs the script, and then learns the ends of all queries.
fn whole<R: Wait, P: Work, B: Boards<P>, E: Engine<P>, G: Gate>(
    scan: &Scan<'_, R, B, E, G>,
    desk: &mut Desk<E::Scratch>,
    seat: B::Seat,
    plans: &mut [Option<Planned<P>>],
    ends: &mut [Option<End<P>>],
    steps: &[Step],
) -> (Outcome, B::Seat)
    requires { MayRun P.asks P.stands (B.turn scan.now.boards.now) (B.suits scan.now.boards.now)
        (E.root scan.now.engine.now) (B.at seat) plans.old ends.old steps.now }
    ensures goes { (plan : Plans) → Marks plan ends.old → Ready plan [] plans.old
        → GoingAll (B.has scan.now.boards.now) plan [] (B.at seat) (known_in ends.old)
        → Goes (DrivingAll (B.has scan.now.boards.now) plan steps.now (B.at result.1)
        (known_in ends.new))
        (StopsWithRoom (B.has scan.now.boards.now) (B.home scan.now.boards.now) plan steps.now
        (B.at result.1) (known_in ends.new))
        (B.at result.1) result.0 }
    ensures known { result.0 ≡ Outcome.Went → AllKnown ends.new }
    ensures learns { Learns P.stands (B.home scan.now.boards.now) (B.at seat) (B.at result.1)
        ends.old ends.new }
    ensures stays { (p : B.Place) → Stays P.asks
        (MayLose (E.refused scan.now.engine.now)
        (E.unlisted scan.now.engine.now (E.refused scan.now.engine.now))
        P.refuses (P.stands (E.root scan.now.engine.now)))
        (B.at seat p) (B.at result.1 p) }
{
    let (outcome, seat) = all_lines(scan, desk, seat, plans, ends, steps);
    match outcome {
        Outcome::Went => all_ends(scan, desk, seat, ends),
        Outcome::Memory => (Outcome::Memory, seat),
        Outcome::Odd => (Outcome::Odd, seat),
    }
}

/// Closes each board.
pub fn close<R: Wait, P: Work, B: Boards<P>, E: Engine<P>, G: Gate>(
    scan: &Scan<'_, R, B, E, G>,
    seat: B::Seat,
) -> B::Seat
    requires { AreCzars P.asks (B.turn scan.now.boards.now) (E.root scan.now.engine.now)
        (B.at seat) }
    ensures leaves { (plan : Plans) (steps : List Step) (ends : ℕ → Option QueryState)
        (outcome : Outcome)
        → Goes (DrivingAll (B.has scan.now.boards.now) plan steps (B.at seat) ends)
        (StopsWithRoom (B.has scan.now.boards.now) (B.home scan.now.boards.now) plan steps
        (B.at seat) ends)
        (B.at seat) outcome
        → Leaves (B.has scan.now.boards.now) plan steps (B.at result) ends outcome }
    ensures closed { (p : B.Place) → is_closed (B.at result p).seen ≡ true }
    ensures known { (p : B.Place) → Knows seat_of (B.at result p) }
    ensures stays { (p : B.Place) → Stays P.asks
        (MayLose (E.refused scan.now.engine.now)
        (E.unlisted scan.now.engine.now (E.refused scan.now.engine.now))
        P.refuses (P.stands (E.root scan.now.engine.now)))
        (B.at seat p) (B.at result p) }
{
    scan.boards.close(scan.rt, seat)
}

/// Runs the czar's part of a session: the script, the ends of all queries, and the close, also after an allocation
/// failure.
pub fn czar<R: Wait, P: Work, B: Boards<P>, E: Engine<P>, G: Gate>(
    scan: &Scan<'_, R, B, E, G>,
    desk: &mut Desk<E::Scratch>,
    seat: B::Seat,
    plans: &mut [Option<Planned<P>>],
    ends: &mut [Option<End<P>>],
    steps: &[Step],
) -> (Outcome, B::Seat)
    requires { MayRun P.asks P.stands (B.turn scan.now.boards.now) (B.suits scan.now.boards.now)
        (E.root scan.now.engine.now) (B.at seat) plans.old ends.old steps.now }
    ensures ran { Ran P.stands (B.has scan.now.boards.now) (B.home scan.now.boards.now) (B.at seat)
        (B.at result.1) plans.old ends.old ends.new steps.now result.0 }
    ensures closed { (p : B.Place) → is_closed (B.at result.1 p).seen ≡ true }
    ensures knows { (p : B.Place) → Knows seat_of (B.at result.1 p) }
    ensures stays { (p : B.Place) → Stays P.asks
        (MayLose (E.refused scan.now.engine.now)
        (E.unlisted scan.now.engine.now (E.refused scan.now.engine.now))
        P.refuses (P.stands (E.root scan.now.engine.now)))
        (B.at seat p) (B.at result.1 p) }
{
    let (outcome, seat) = whole(scan, desk, seat, plans, ends, steps);
    (outcome, close(scan, seat))
}
