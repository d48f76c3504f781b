//! What the czar does for one query at the query's board: it attaches the query, cancels it, and waits for its end.
ghost use Rattle.std.specs.Prelude.{◌≡◌, ◌⊎◌, ℕ, ◌≤◌, ◌++◌, [], ◌∷◌, List, Option, true, None, is_some, IfSome, Some, false};
ghost use Rattle.std.specs.List.{list_any};
ghost use Rattle.session_script.specs.declared.step.Step.{Step};
ghost use Rattle.session_script.specs.declared.step.Step.TheVariants.{Query, Cancel as CancelStep};
ghost use Rattle.session_rules.specs.Ends.{asks};
ghost use Rattle.sql_token.specs.declared.token.Span.{Span};
ghost use Rattle.scan_rules.specs.declared.limits.TheConstants.{QUERY_MOST};
ghost use Rattle.scan_rules.specs.Queries.{QueryState};
ghost use Rattle.scan_worker.specs.Missing.{LosesOnly, MayLose};
ghost use Rattle.scan_worker.specs.Rounds.{Observed};
ghost use Rattle.scan_worker.specs.Working.{Worked};
ghost use Rattle.scan_session.specs.Plans.{Plans};
ghost use Rattle.scan_session.specs.Seats.{Stays};
ghost use Rattle.scan_session.specs.Places.{AreCzars, DrivingAll, GoingAll, over_root, seen_of};
ghost use Rattle.scan_session.specs.KnownEnds.{IsCollected, MayStart, IfFull, IfTold};
ghost use Rattle.scan_session.specs.Goes.{Goes, GoesEnded, GoesTold, GoesTried, StartsWithRoom, StopsAt, TriesWithRoom};

use crate::end::{End, Outcome, Planned, Told, Tried};
use crate::scan::Scan;
use scan_boards::Boards;
use scan_core::{Attach, Collect, Work};
use scan_worker::{Desk, Engine, Round, work_once};
use sky_io::Gate;
use std::sync::Wait;
use std::thread;

/// Runs one round of work; if there is nothing to do, yields the processor. Allocates memory, and waits.
fn work<R: Wait, P: Work, B: Boards<P>, E: Engine<P>, G: Gate>(
    scan: &Scan<'_, R, B, E, G>,
    desk: &mut Desk<E::Scratch>,
    seat: B::Seat,
) -> B::Seat
    requires { AreCzars P.asks (B.turn scan.now.boards.now) (E.root scan.now.engine.now)
        (B.at seat) }
    ensures worked { (p : B.Place) → Worked (B.at seat p) (B.at result p) }
    ensures observed { (p : B.Place) →
        (B.at result p ≡ B.at seat p) ⊎ Observed P.asks (B.at seat p) (B.at result p) }
    ensures lost { (p : B.Place) → LosesOnly
        (MayLose (E.refused scan.now.engine.now)
        (E.unlisted scan.now.engine.now (E.refused scan.now.engine.now))
        P.refuses (P.stands (E.root scan.now.engine.now)))
        (B.at seat p).mine (B.at result p).mine }
{
    let (round, seat) = work_once(desk, scan.rt, scan.boards, seat, scan.engine, scan.gate);
    if round == Round::Idle {
        thread::yield_now();
    }
    seat
}

/// Tries once to attach a query; if its board is full, runs one round of work instead. Allocates memory, and waits.
pub fn try_start<R: Wait, P: Work, B: Boards<P>, E: Engine<P>, G: Gate>(
    scan: &Scan<'_, R, B, E, G>,
    desk: &mut Desk<E::Scratch>,
    seat: B::Seat,
    q: u32,
    planned: Planned<P>,
) -> (Tried<P>, B::Seat)
    requires seats { AreCzars P.asks (B.turn scan.now.boards.now) (E.root scan.now.engine.now)
        (B.at seat) }
    requires from_1 { 1 ≤ q }
    requires to_255 { q ≤ QUERY_MOST }
    requires suits { B.suits scan.now.boards.now q planned.chunks }
    requires may { (p : B.Place) →
        MayStart P.stands P.asks (B.at seat p).root.ring (B.at seat p).root.root q planned }
    ensures goes { (plan : Plans) (done : List Step) (ends : ℕ → Option QueryState) (span : Span)
        → list_any (asks q) done ≡ false → plan q ≡ Some planned.chunks
        → GoingAll (B.has scan.now.boards.now) plan done (B.at seat) ends
        → GoesTried (B.has scan.now.boards.now) plan done (Query q span) (B.at result.1) ends result.0 }
    ensures full { IfFull result.0 (λ back. back ≡ planned) }
    ensures room { TriesWithRoom (B.at result.1 (B.home scan.now.boards.now q)) q planned.chunks
        result.0 }
    ensures stays { (p : B.Place) → Stays P.asks
        (MayLose (E.refused scan.now.engine.now)
        (E.unlisted scan.now.engine.now (E.refused scan.now.engine.now))
        P.refuses (P.stands (E.root scan.now.engine.now)))
        (B.at seat p) (B.at result.1 p) }
{
    let Planned { chunks, empty } = planned;
    let (answer, seat) = scan.boards.attach(scan.rt, seat, q, chunks, empty);
    match answer {
        Attach::Attached => (Tried::Attached, seat),
        Attach::Full { chunks, empty } => (
            Tried::Full(Planned { chunks, empty }),
            work(scan, desk, seat),
        ),
        Attach::Memory { .. } => (Tried::Memory, seat),
        Attach::Closed { .. } => (Tried::Odd, seat),
        Attach::Again { .. } => (Tried::Odd, seat),
    }
}

/// Attaches a query, and works while its board is full. Allocates memory, and waits.
pub fn start<R: Wait, P: Work, B: Boards<P>, E: Engine<P>, G: Gate>(
    scan: &Scan<'_, R, B, E, G>,
    desk: &mut Desk<E::Scratch>,
    seat: B::Seat,
    q: u32,
    planned: Planned<P>,
) -> (Outcome, B::Seat)
    requires seats { AreCzars P.asks (B.turn scan.now.boards.now) (E.root scan.now.engine.now)
        (B.at seat) }
    requires from_1 { 1 ≤ q }
    requires to_255 { q ≤ QUERY_MOST }
    requires suits { B.suits scan.now.boards.now q planned.chunks }
    requires may { (p : B.Place) →
        MayStart P.stands P.asks (B.at seat p).root.ring (B.at seat p).root.root q planned }
    ensures goes { (plan : Plans) (done : List Step) (ends : ℕ → Option QueryState) (span : Span)
        → list_any (asks q) done ≡ false → plan q ≡ Some planned.chunks
        → GoingAll (B.has scan.now.boards.now) plan done (B.at seat) ends
        → Goes (GoingAll (B.has scan.now.boards.now) plan (done ++ Query q span ∷ []) (B.at result.1) ends)
        (StopsAt (B.has scan.now.boards.now) (B.home scan.now.boards.now) plan done (Query q span)
        (B.at result.1) ends)
        (B.at result.1) result.0 }
    ensures room { StartsWithRoom (B.at result.1 (B.home scan.now.boards.now q)) q planned.chunks
        result.0 }
    ensures stays { (p : B.Place) → Stays P.asks
        (MayLose (E.refused scan.now.engine.now)
        (E.unlisted scan.now.engine.now (E.refused scan.now.engine.now))
        P.refuses (P.stands (E.root scan.now.engine.now)))
        (B.at seat p) (B.at result.1 p) }
{
    let mut seat = seat;
    let mut planned = planned;
    for _ in scan.rt.forever() {
        let (tried, next) = try_start(scan, desk, seat, q, planned);
        seat = next;
        match tried {
            Tried::Full(back) => planned = back,
            Tried::Attached => return (Outcome::Went, seat),
            Tried::Memory => return (Outcome::Memory, seat),
            Tried::Odd => return (Outcome::Odd, seat),
        }
    }
    unreachable!()
}

/// Cancels a query, if it runs. Waits. Does not allocate.
pub fn cancel<R: Wait, P: Work, B: Boards<P>, E: Engine<P>, G: Gate>(
    scan: &Scan<'_, R, B, E, G>,
    seat: B::Seat,
    q: u32,
) -> B::Seat
    requires { AreCzars P.asks (B.turn scan.now.boards.now) (E.root scan.now.engine.now)
        (B.at seat) }
    ensures goes { (plan : Plans) (done : List Step) (ends : ℕ → Option QueryState)
        → list_any (asks q) done ≡ true → is_some (plan q) ≡ true
        → GoingAll (B.has scan.now.boards.now) plan done (B.at seat) ends
        → GoingAll (B.has scan.now.boards.now) plan (done ++ CancelStep q ∷ []) (B.at result) ends }
    ensures stays { (p : B.Place) → Stays P.asks
        (MayLose (E.refused scan.now.engine.now)
        (E.unlisted scan.now.engine.now (E.refused scan.now.engine.now))
        P.refuses (P.stands (E.root scan.now.engine.now)))
        (B.at seat p) (B.at result p) }
{
    scan.boards.cancel(scan.rt, seat, q).1
}

/// Asks for a query's end once; while the query runs, runs one round of work instead. Waits.
pub fn ask_end<R: Wait, P: Work, B: Boards<P>, E: Engine<P>, G: Gate>(
    scan: &Scan<'_, R, B, E, G>,
    desk: &mut Desk<E::Scratch>,
    seat: B::Seat,
    q: u32,
) -> (Told<P>, B::Seat)
    requires { AreCzars P.asks (B.turn scan.now.boards.now) (E.root scan.now.engine.now)
        (B.at seat) }
    ensures goes { (plan : Plans) (done : List Step) (ends : ℕ → Option QueryState)
        → list_any (asks q) done ≡ true → is_some (plan q) ≡ true → ends q ≡ None
        → DrivingAll (B.has scan.now.boards.now) plan done (B.at seat) ends
        → GoesTold (B.has scan.now.boards.now) plan done (B.at result.1) ends q result.0 }
    ensures whole { IfTold result.0 (IsCollected
        (over_root P.stands (B.home scan.now.boards.now) (B.at result.1))
        (seen_of (B.home scan.now.boards.now) (B.at result.1) q) q) }
    ensures stays { (p : B.Place) → Stays P.asks
        (MayLose (E.refused scan.now.engine.now)
        (E.unlisted scan.now.engine.now (E.refused scan.now.engine.now))
        P.refuses (P.stands (E.root scan.now.engine.now)))
        (B.at seat p) (B.at result.1 p) }
{
    let (answer, seat) = scan.boards.collect(scan.rt, seat, q);
    match answer {
        Collect::NotYet => (Told::NotYet, work(scan, desk, seat)),
        Collect::Piece(piece) => (Told::Ended(End::Answered(piece)), seat),
        Collect::Cancelled => (Told::Ended(End::Cancelled), seat),
        Collect::Spent => (Told::Ended(End::Spent), seat),
        Collect::Gone => (Told::Odd, seat),
    }
}

/// Returns the end of a query, once it has ended; the czar works meanwhile. None if another participant collected it.
/// Waits.
pub fn end_of<R: Wait, P: Work, B: Boards<P>, E: Engine<P>, G: Gate>(
    scan: &Scan<'_, R, B, E, G>,
    desk: &mut Desk<E::Scratch>,
    seat: B::Seat,
    q: u32,
) -> (Option<End<P>>, B::Seat)
    requires { AreCzars P.asks (B.turn scan.now.boards.now) (E.root scan.now.engine.now)
        (B.at seat) }
    ensures goes { (plan : Plans) (done : List Step) (ends : ℕ → Option QueryState)
        → list_any (asks q) done ≡ true → is_some (plan q) ≡ true → ends q ≡ None
        → DrivingAll (B.has scan.now.boards.now) plan done (B.at seat) ends
        → GoesEnded (B.has scan.now.boards.now) plan done (B.at result.1) ends q result.0 }
    ensures whole { IfSome result.0 (IsCollected
        (over_root P.stands (B.home scan.now.boards.now) (B.at result.1))
        (seen_of (B.home scan.now.boards.now) (B.at result.1) q) q) }
    ensures stays { (p : B.Place) → Stays P.asks
        (MayLose (E.refused scan.now.engine.now)
        (E.unlisted scan.now.engine.now (E.refused scan.now.engine.now))
        P.refuses (P.stands (E.root scan.now.engine.now)))
        (B.at seat p) (B.at result.1 p) }
{
    let mut seat = seat;
    for _ in scan.rt.forever() {
        let (told, next) = ask_end(scan, desk, seat, q);
        seat = next;
        match told {
            Told::NotYet => {}
            Told::Ended(end) => return (Some(end), seat),
            Told::Odd => return (None, seat),
        }
    }
    unreachable!()
}
