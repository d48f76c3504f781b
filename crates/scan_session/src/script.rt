//! The czar runs a script, and then waits for the ends of all queries.
ghost use Rattle.std.specs.Prelude.{◌≡◌, ℕ, ◌≤◌, ◌<◌, ◌++◌, [], ◌∷◌, List, Option, true, None, is_some, Some, false, length};
ghost use Rattle.std.specs.List.{list_any};
ghost use Rattle.session_script.specs.declared.step.Step.{Step};
ghost use Rattle.session_script.specs.declared.step.Step.TheVariants.{Query, Wait, Cancel as CancelStep};
ghost use Rattle.session_rules.specs.Ends.{asks};
ghost use Rattle.sql_token.specs.declared.token.Span.{Span};
ghost use Rattle.scan_rules.specs.declared.limits.TheConstants.{QUERY_MOST};
ghost use Rattle.scan_rules.specs.Queries.{QueryState};
ghost use Rattle.scan_worker.specs.Missing.{MayLose};
ghost use Rattle.scan_session.specs.Plans.{Plans};
ghost use Rattle.scan_session.specs.Seats.{Stays};
ghost use Rattle.scan_session.specs.Places.{AreCzars, DrivingAll, GoingAll, AllFit};
ghost use Rattle.scan_session.specs.KnownEnds.{at_query, known_in, AllKnown, Marks, Ready};
ghost use Rattle.scan_session.specs.Goes.{Goes, IsNext, number_of, StopsAt, StopsWithRoom};
ghost use Rattle.scan_session.specs.Czars.{Learns, MayRun};

use crate::end::{End, Outcome, Planned};
use crate::scan::Scan;
use crate::steps::{cancel, end_of, start};
use scan_boards::Boards;
use scan_core::Work;
use scan_worker::{Desk, Engine};
use session_script::Step;
use sky_io::Gate;
use std::sync::Wait;

/// Learns the end of a query, and waits for it if it is not known yet.
pub fn await_end<R: Wait, P: Work, B: Boards<P>, E: Engine<P>, G: Gate>(
    scan: &Scan<'_, R, B, E, G>,
    desk: &mut Desk<E::Scratch>,
    seat: B::Seat,
    ends: &mut [Option<End<P>>],
    q: u32,
) -> (Outcome, B::Seat)
    requires seats { AreCzars P.asks (B.turn scan.now.boards.now) (E.root scan.now.engine.now)
        (B.at seat) }
    requires from_1 { 1 ≤ q }
    requires low { q ≤ length ends.old }
    ensures goes { (plan : Plans) (done : List Step) → Marks plan ends.old
        → list_any (asks q) done ≡ true
        → DrivingAll (B.has scan.now.boards.now) plan done (B.at seat) (known_in ends.old)
        → Goes (DrivingAll (B.has scan.now.boards.now) plan done (B.at result.1) (known_in ends.new))
        ⊥ (B.at result.1) result.0 }
    ensures known { result.0 ≡ Outcome.Went → is_some (at_query ends.new q) ≡ true }
    ensures learns { Learns P.stands (B.home scan.now.boards.now) (B.at seat) (B.at result.1)
        ends.old ends.new }
    ensures stays { (p : B.Place) → Stays P.asks
        (MayLose (E.refused scan.now.engine.now)
        (E.unlisted scan.now.engine.now (E.refused scan.now.engine.now))
        P.refuses (P.stands (E.root scan.now.engine.now)))
        (B.at seat p) (B.at result.1 p) }
{
    let place = (q - 1) as usize;
    if ends[place].is_some() {
        return (Outcome::Went, seat);
    }
    let (end, seat) = end_of(scan, desk, seat, q);
    match end {
        None => (Outcome::Odd, seat),
        Some(end) => {
            ends[place] = Some(end);
            (Outcome::Went, seat)
        }
    }
}

/// Runs a cancel line: cancels the query, if its end is not known yet.
fn cancel_line<R: Wait, P: Work, B: Boards<P>, E: Engine<P>, G: Gate>(
    scan: &Scan<'_, R, B, E, G>,
    seat: B::Seat,
    ends: &[Option<End<P>>],
    q: u32,
) -> B::Seat
    requires seats { AreCzars P.asks (B.turn scan.now.boards.now) (E.root scan.now.engine.now)
        (B.at seat) }
    requires from_1 { 1 ≤ q }
    requires low { q ≤ length ends.now }
    ensures goes { (plan : Plans) (done : List Step) → Marks plan ends.now
        → list_any (asks q) done ≡ true
        → GoingAll (B.has scan.now.boards.now) plan done (B.at seat) (known_in ends.now)
        → GoingAll (B.has scan.now.boards.now) plan (done ++ CancelStep q ∷ []) (B.at result)
        (known_in ends.now) }
    ensures stays { (p : B.Place) → Stays P.asks
        (MayLose (E.refused scan.now.engine.now)
        (E.unlisted scan.now.engine.now (E.refused scan.now.engine.now))
        P.refuses (P.stands (E.root scan.now.engine.now)))
        (B.at seat p) (B.at result p) }
{
    let place = (q - 1) as usize;
    if ends[place].is_some() {
        return seat;
    }
    cancel(scan, seat, q)
}

/// Runs a query line: attaches the query, if it is planned.
fn query_line<R: Wait, P: Work, B: Boards<P>, E: Engine<P>, G: Gate>(
    scan: &Scan<'_, R, B, E, G>,
    desk: &mut Desk<E::Scratch>,
    seat: B::Seat,
    plans: &mut [Option<Planned<P>>],
    q: u32,
) -> (Outcome, B::Seat)
    requires seats { AreCzars P.asks (B.turn scan.now.boards.now) (E.root scan.now.engine.now)
        (B.at seat) }
    requires from_1 { 1 ≤ q }
    requires low { q ≤ length plans.old }
    requires few { length plans.old ≤ QUERY_MOST }
    requires fit { AllFit P.stands P.asks (B.suits scan.now.boards.now) (B.at seat) plans.old }
    ensures goes { (plan : Plans) (done : List Step) (ends : ℕ → Option QueryState) (span : Span)
        → Ready plan done plans.old → list_any (asks q) done ≡ false
        → GoingAll (B.has scan.now.boards.now) plan done (B.at seat) ends
        → Goes (GoingAll (B.has scan.now.boards.now) plan (done ++ Query q span ∷ []) (B.at result.1) ends)
        (StopsAt (B.has scan.now.boards.now) (B.home scan.now.boards.now) plan done (Query q span)
        (B.at result.1) ends)
        (B.at result.1) result.0 }
    ensures ready { (plan : Plans) (done : List Step) (span : Span)
        → Ready plan done plans.old → Ready plan (done ++ Query q span ∷ []) plans.new }
    ensures fit { AllFit P.stands P.asks (B.suits scan.now.boards.now) (B.at result.1) plans.new }
    ensures len { length plans.new ≡ length plans.old }
    ensures stays { (p : B.Place) → Stays P.asks
        (MayLose (E.refused scan.now.engine.now)
        (E.unlisted scan.now.engine.now (E.refused scan.now.engine.now))
        P.refuses (P.stands (E.root scan.now.engine.now)))
        (B.at seat p) (B.at result.1 p) }
{
    let place = (q - 1) as usize;
    match plans[place].take() {
        None => (Outcome::Went, seat),
        Some(planned) => start(scan, desk, seat, q, planned),
    }
}

/// Runs one line of the script.
fn line<R: Wait, P: Work, B: Boards<P>, E: Engine<P>, G: Gate>(
    scan: &Scan<'_, R, B, E, G>,
    desk: &mut Desk<E::Scratch>,
    seat: B::Seat,
    plans: &mut [Option<Planned<P>>],
    ends: &mut [Option<End<P>>],
    step: Step,
) -> (Outcome, B::Seat)
    requires seats { AreCzars P.asks (B.turn scan.now.boards.now) (E.root scan.now.engine.now)
        (B.at seat) }
    requires from_1 { 1 ≤ number_of step }
    requires low { number_of step ≤ length ends.old }
    requires len { length plans.old ≡ length ends.old }
    requires few { length ends.old ≤ QUERY_MOST }
    requires fit { AllFit P.stands P.asks (B.suits scan.now.boards.now) (B.at seat) plans.old }
    ensures goes { (plan : Plans) (done : List Step) → IsNext done step → Marks plan ends.old
        → Ready plan done plans.old
        → GoingAll (B.has scan.now.boards.now) plan done (B.at seat) (known_in ends.old)
        → Goes (GoingAll (B.has scan.now.boards.now) plan (done ++ step ∷ []) (B.at result.1)
        (known_in ends.new))
        (StopsAt (B.has scan.now.boards.now) (B.home scan.now.boards.now) plan done step
        (B.at result.1) (known_in ends.new))
        (B.at result.1) result.0 }
    ensures ready { (plan : Plans) (done : List Step)
        → Ready plan done plans.old → Ready plan (done ++ step ∷ []) plans.new }
    ensures fit { AllFit P.stands P.asks (B.suits scan.now.boards.now) (B.at result.1) plans.new }
    ensures len { length plans.new ≡ length plans.old }
    ensures learns { Learns P.stands (B.home scan.now.boards.now) (B.at seat) (B.at result.1)
        ends.old ends.new }
    ensures stays { (p : B.Place) → Stays P.asks
        (MayLose (E.refused scan.now.engine.now)
        (E.unlisted scan.now.engine.now (E.refused scan.now.engine.now))
        P.refuses (P.stands (E.root scan.now.engine.now)))
        (B.at seat p) (B.at result.1 p) }
{
    match step {
        Step::Query { number, span: _ } => query_line(scan, desk, seat, plans, number),
        Step::Wait { number } => await_end(scan, desk, seat, ends, number),
        Step::Cancel { number } => (Outcome::Went, cancel_line(scan, seat, ends, number)),
    }
}

/// Runs all lines of the script.
pub fn all_lines<R: Wait, P: Work, B: Boards<P>, E: Engine<P>, G: Gate>(
    scan: &Scan<'_, R, B, E, G>,
    desk: &mut Desk<E::Scratch>,
    seat: B::Seat,
    plans: &mut [Option<Planned<P>>],
    ends: &mut [Option<End<P>>],
    steps: &[Step],
) -> (Outcome, B::Seat)
    requires { MayRun P.asks P.stands (B.turn scan.now.boards.now) (B.suits scan.now.boards.now)
        (E.root scan.now.engine.now) (B.at seat) plans.old ends.old steps.now }
    ensures goes { (plan : Plans) → Marks plan ends.old → Ready plan [] plans.old
        → GoingAll (B.has scan.now.boards.now) plan [] (B.at seat) (known_in ends.old)
        → Goes (DrivingAll (B.has scan.now.boards.now) plan steps.now (B.at result.1)
        (known_in ends.new))
        (StopsWithRoom (B.has scan.now.boards.now) (B.home scan.now.boards.now) plan steps.now
        (B.at result.1) (known_in ends.new))
        (B.at result.1) result.0 }
    ensures learns { Learns P.stands (B.home scan.now.boards.now) (B.at seat) (B.at result.1)
        ends.old ends.new }
    ensures stays { (p : B.Place) → Stays P.asks
        (MayLose (E.refused scan.now.engine.now)
        (E.unlisted scan.now.engine.now (E.refused scan.now.engine.now))
        P.refuses (P.stands (E.root scan.now.engine.now)))
        (B.at seat p) (B.at result.1 p) }
{
    let mut seat = seat;
    for step in steps {
        let (outcome, next) = line(scan, desk, seat, plans, ends, *step);
        seat = next;
        match outcome {
            Outcome::Went => {}
            Outcome::Memory => return (Outcome::Memory, seat),
            Outcome::Odd => return (Outcome::Odd, seat),
        }
    }
    (Outcome::Went, seat)
}

/// Learns the ends of all queries.
pub fn all_ends<R: Wait, P: Work, B: Boards<P>, E: Engine<P>, G: Gate>(
    scan: &Scan<'_, R, B, E, G>,
    desk: &mut Desk<E::Scratch>,
    seat: B::Seat,
    ends: &mut [Option<End<P>>],
) -> (Outcome, B::Seat)
    requires seats { AreCzars P.asks (B.turn scan.now.boards.now) (E.root scan.now.engine.now)
        (B.at seat) }
    requires few { length ends.old ≤ QUERY_MOST }
    ensures goes { (plan : Plans) (done : List Step) → Marks plan ends.old
        → ((q : ℕ) → 1 ≤ q → q ≤ length ends.old → list_any (asks q) done ≡ true)
        → DrivingAll (B.has scan.now.boards.now) plan done (B.at seat) (known_in ends.old)
        → Goes (DrivingAll (B.has scan.now.boards.now) plan done (B.at result.1) (known_in ends.new))
        ⊥ (B.at result.1) result.0 }
    ensures known { result.0 ≡ Outcome.Went → AllKnown ends.new }
    ensures learns { Learns P.stands (B.home scan.now.boards.now) (B.at seat) (B.at result.1)
        ends.old ends.new }
    ensures stays { (p : B.Place) → Stays P.asks
        (MayLose (E.refused scan.now.engine.now)
        (E.unlisted scan.now.engine.now (E.refused scan.now.engine.now))
        P.refuses (P.stands (E.root scan.now.engine.now)))
        (B.at seat p) (B.at result.1 p) }
{
    let mut seat = seat;
    for place in 0..ends.len() {
        let (outcome, next) = await_end(scan, desk, seat, ends, place as u32 + 1);
        seat = next;
        match outcome {
            Outcome::Went => {}
            Outcome::Memory => return (Outcome::Memory, seat),
            Outcome::Odd => return (Outcome::Odd, seat),
        }
    }
    (Outcome::Went, seat)
}
