//! A whole session: from the plans of a script's queries to their ends.
ghost use Rattle.std.specs.Prelude.{◌≡◌, ℕ, ◌+◌, ◌≤◌, [], List, length, vec_len, vec_capacity, IfOk, Option};
ghost use Rattle.scan_rules.specs.declared.limits.TheConstants.{QUERY_MOST, RING_MOST};
ghost use Rattle.session_rules.specs.declared.limits.TheConstants.{WORKERS_MOST};
ghost use Rattle.session_script.specs.Laws.{NumberedFrom};
ghost use Rattle.session_script.specs.Scripts.{query_count};
ghost use Rattle.scan_worker.specs.Missing.{MayLose};
ghost use Rattle.scan_session.specs.Drove.{AreEnds, Drove, SpendsOnly};
ghost use Rattle.scan_session.specs.KnownEnds.{plan_in, AllKnown, AreKnown, IsFirstEnd, MarksPlans, PlansFit};
ghost use Rattle.scan_session.specs.Places.{AllSuit, only, over_root, seen_of};
ghost use Rattle.scan_session.specs.Crews.{Manned};

use crate::crew::teamed;
use crate::czar::close;
use crate::end::{End, Outcome, Planned};
use crate::scan::Scan;
use scan_boards::Boards;
use scan_core::Work;
use scan_worker::Engine;
use session_script::Step;
use sky_io::{Gate, Memory};
use std::alloc::Global;
use std::marker::Brand;
use std::sync::Wait;
use std::thread::Threads;

/// Returns what is known of the ends before the session: the queries that are not planned are refused. Allocates
/// memory.
fn first_ends<P: Work>(
    alloc: Global,
    plans: &[Option<Planned<P>>],
) -> Result<Vec<Option<End<P>>>, Memory>
    ensures len { IfOk result (λ ends. vec_len ends ≡ length plans.now) }
    ensures marks { IfOk result (λ ends. MarksPlans plans.now ends.items) }
{
    let mut ends = Vec::new(alloc);
    ends.reserve(plans.len())?;
    for plan in plans {
        ends.push_reserved(first_end(plan));
    }
    Ok(ends)
}

/// Returns what is known of a query's end before the session.
fn first_end<P: Work>(plan: &Option<Planned<P>>) -> Option<End<P>>
    ensures { IsFirstEnd plan.now result }
{
    match plan {
        None => Some(End::Refused),
        Some(_) => None,
    }
}

/// Creates an empty list with room for the given number of ends. Allocates memory.
fn room_for<P: Work>(alloc: Global, count: usize) -> Result<Vec<End<P>>, Memory>
    ensures room { IfOk result (λ ends. count ≤ vec_capacity ends) }
    ensures none { IfOk result (λ ends. ends.items ≡ []) }
{
    let mut ends = Vec::new(alloc);
    ends.reserve(count)?;
    Ok(ends)
}

/// Moves the ends into a list, once all are known. Does not allocate.
fn all_known<P: Work>(known: &mut [Option<End<P>>], ends: Vec<End<P>>) -> Vec<End<P>>
    requires known { AllKnown known.old }
    requires room { length known.old ≤ vec_capacity ends }
    requires none { ends.items ≡ [] }
    ensures { AreKnown known.old result.items }
{
    let mut ends = ends;
    for place in 0..known.len() {
        match known[place].take() {
            Some(end) => ends.push_reserved(end),
            None => unreachable!(),
        }
    }
    ends
}

/// Moves the ends into a list, out of a list by value.
fn known_ends<P: Work>(known: Vec<Option<End<P>>>, ends: Vec<End<P>>) -> Vec<End<P>>
    requires known { AllKnown known.items }
    requires room { vec_len known ≤ vec_capacity ends }
    requires none { ends.items ≡ [] }
    ensures { AreKnown known.items result.items }
{
    let mut known = known;
    all_known(known.as_mut_slice(), ends)
}

/// Runs a script with the given number of workers beside the czar, and returns the end of each query, in their order.
/// Allocates memory, and waits. On Memory, too, each board is closed and each participant that was split off is joined
/// again.
pub fn drive<
    R: Threads + Wait + Sync,
    P: Work + Send,
    B: Boards<P> + Sync,
    E: Engine<P> + Sync,
    G: Gate + Sync,
>(
    scan: &Scan<'_, R, B, E, G>,
    seat: B::Seat,
    plans: Vec<Option<Planned<P>>>,
    steps: &[Step],
    workers: u32,
) -> (Result<Vec<End<P>>, Memory>, B::Seat)
where
    P::Root: Send,
    B::Place: Send,
    B::Seat: Send,
    E::Scratch: Send,
    requires own { (p : B.Place) → (B.at seat p).turn ≡ B.turn scan.now.boards.now p }
    requires first { (p : B.Place) → ((B.at seat p).number ≡ 0) × ((B.at seat p).seen ≡ [])
        × ((B.at seat p).mine ≡ []) × ((B.at seat p).made ≡ 1) }
    requires ring { (p : B.Place) → (B.at seat p).root.ring ≤ RING_MOST }
    requires engine { (p : B.Place) → E.root scan.now.engine.now ≡ (B.at seat p).root.root }
    requires numbered { NumberedFrom 0 steps.now }
    requires each { vec_len plans ≡ query_count steps.now }
    requires few { vec_len plans ≤ QUERY_MOST }
    requires fit { (p : B.Place) → PlansFit P.stands P.asks (B.at seat p).root.ring
        (B.at seat p).root.root plans.items }
    requires suits { AllSuit (B.suits scan.now.boards.now) plans.items }
    requires workers { workers ≤ WORKERS_MOST }
    ensures drove { IfOk result.0 (λ ends. (p : B.Place) → Drove workers
        (only (B.has scan.now.boards.now p) (plan_in plans.items)) steps.now (B.at result.1 p).seen) }
    ensures len { IfOk result.0 (λ ends. vec_len ends ≡ vec_len plans) }
    ensures ends { IfOk result.0 (λ ends.
        AreEnds (over_root P.stands (B.home scan.now.boards.now) (B.at seat)) (plan_in plans.items)
        (seen_of (B.home scan.now.boards.now) (B.at result.1)) ends.items) }
    ensures spent { IfOk result.0 (λ ends.
        SpendsOnly
        (MayLose (E.refused scan.now.engine.now)
        (E.unlisted scan.now.engine.now (E.refused scan.now.engine.now))
        P.refuses (P.stands (E.root scan.now.engine.now)))
        ends.items) }
    ensures made { IfOk result.0 (λ ends. (p : B.Place) → (B.at result.1 p).made ≡ 1 + workers) }
    ensures manned { (p : B.Place) → Manned P.asks (B.at seat p) (B.at result.1 p) }
{
    let Ok(told) = room_for(scan.alloc, plans.len()) else {
        return (Err(Memory), close(scan, seat));
    };
    let Ok(ends) = first_ends(scan.alloc, plans.as_slice()) else {
        return (Err(Memory), close(scan, seat));
    };
    let (outcome, ends, seat) = teamed::<R, P, B, E, G, Brand>(
        scan, seat, plans, ends, steps, workers,
    );
    match outcome {
        Outcome::Went => (Ok(known_ends(ends, told)), seat),
        Outcome::Memory => (Err(Memory), seat),
        Outcome::Odd => unreachable!(),
    }
}
