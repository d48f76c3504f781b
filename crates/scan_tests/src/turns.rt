//! A lock over a list of participants' numbers, on one thread and on two.
ghost use Rattle.std.specs.Prelude.{◌≡◌, ◌≢◌, ◌≤◌, ◌<◌, ◌^◌, [], length, vec_len};
ghost use Rattle.std.specs.Thread.{IsSync};
ghost use mathlib.Core.List.{IsPrefix};
ghost use Rattle.turn_lock.specs.Pasts.{GrewByAtMostOne};
ghost use Rattle.turn_lock.specs.Seats.{Knows};

use sky_io::Lineage;
use std::alloc::Global;
use std::sync::Wait;
use std::test::Fail;
use std::thread::{Threads, join};
use turn_lock::{Seat, Turn};

/// The participants that visited, by their numbers; at most 100 visits.
#[derive(Drop)]
struct Visits {
    place: u8,
    entries: Vec<u32>,
    ghost few: { vec_len entries ≤ 100 },
}

impl Lineage for Visits {
    type Root = u8;

    type Entry = u32;

    ghost root = { λ v. v.place };

    ghost past = { λ v. v.entries.items };

    ghost seat_of = { λ e. e };

    fn past_len(&self) -> u64 {
        self.entries.len() as u64
    }
}

impl Visits {
    fn new(alloc: Global) -> Visits
        ensures { result.entries.items ≡ [] }
    {
        Visits {
            place: 7,
            entries: Vec::new(alloc),
        }
    }

    // Adds a visit if there is room.
    fn visit(&mut self, number: u32)
        ensures place { self.new.place ≡ self.old.place }
        ensures grew { GrewByAtMostOne (λ e. e)
            number self.old.entries.items self.new.entries.items }
    {
        if self.entries.len() < 100 {
            let _ = self.entries.push(number);
        }
    }
}

// Enters, adds a visit and leaves. Returns the number of visits before.
fn visit<R: Wait>(rt: &R, turn: &Turn<Visits>, seat: Seat<Visits>) -> (usize, Seat<Visits>)
    requires own { seat.turn ≡ turn.now }
    ensures own { result.1.turn ≡ turn.now }
    ensures same { result.1.number ≡ seat.number }
    ensures made { result.1.made ≡ seat.made }
    ensures seen { IsPrefix seat.seen result.1.seen }
{
    let number = seat.number();
    let mut pass = turn.enter(rt, seat);
    let value = pass.value();
    let count = value.entries.len();
    value.visit(number);
    (count, pass.leave())
}

// One participant visits three times.
fn visit_thrice<R: Wait>(rt: &R, turn: &Turn<Visits>, seat: Seat<Visits>) -> Seat<Visits>
    requires own { seat.turn ≡ turn.now }
    ensures own { result.turn ≡ turn.now }
    ensures same { result.number ≡ seat.number }
    ensures seen { IsPrefix seat.seen result.seen }
{
    let (_, seat) = visit(rt, turn, seat);
    let (_, seat) = visit(rt, turn, seat);
    visit(rt, turn, seat).1
}

// Two participants visit on two threads. The second is joined to the first, which then has seen what both had seen.
fn visit_together<R: Threads + Wait + Sync>(
    rt: &R,
    turn: &Turn<Visits>,
    first: Seat<Visits>,
    second: Seat<Visits>,
) -> Seat<Visits>
    requires own { (first.turn ≡ turn.now) × (second.turn ≡ turn.now) }
    requires not_first { second.number ≢ 0 }
    ensures own { result.turn ≡ turn.now }
    ensures seen { IsPrefix first.seen result.seen × IsPrefix second.seen result.seen }
{
    let (mut all, other) = join(
        rt,
        move || -> Seat<Visits>
            requires shared { IsSync R.row }
            requires own { first.turn ≡ turn.now }
            ensures own { result.turn ≡ turn.entry.now }
            ensures seen { IsPrefix first.seen result.seen }
        { visit_thrice(rt, turn, first) },
        move || -> Seat<Visits>
            requires shared { IsSync R.row }
            requires own { second.turn ≡ turn.now }
            ensures own { result.turn ≡ turn.entry.now }
            ensures same { result.number ≡ second.number }
            ensures seen { IsPrefix second.seen result.seen }
        { visit_thrice(rt, turn, second) },
    );
    turn.join(&mut all, other);
    all
}

fn shares<X: Sync>(_shared: &X) {}

fn sends<X: Send>(_sent: &X) {}

#[test]
fn each_seat_finds_what_the_others_added(rt: HostRuntime) -> Result<(), Fail> {
    let Ok((turn, first)) = Turn::new(rt.alloc(), Visits::new(rt.alloc())) else {
        panic!(rt; "a lock is made")
    };
    let (alone, mut first) = visit(&rt, &turn, first);
    let second = turn.split(&mut first);
    assert_eq!(rt; (first.number(), second.number()), (0, 1));
    let (after_first, second) = visit(&rt, &turn, second);
    let (after_both, mut first) = visit(&rt, &turn, first);
    assert_eq!(rt; (alone, after_first, after_both), (0, 1, 2));
    turn.join(&mut first, second);
    let mut pass = turn.enter(&rt, first);
    assert_eq!(rt; pass.value().entries.as_slice(), [0, 1, 0].as_slice());
    drop(pass.leave());
    Ok(())
}

#[test]
fn two_threads_lose_no_visit(rt: HostRuntime) -> Result<(), Fail> {
    let Ok((turn, mut first)) = Turn::new(rt.alloc(), Visits::new(rt.alloc())) else {
        panic!(rt; "a lock is made")
    };
    let second = turn.split(&mut first);
    shares(&turn);
    sends(&second);
    let all = visit_together(&rt, &turn, first, second);
    let mut pass = turn.enter(&rt, all);
    let entries = pass.value().entries.as_slice();
    let of_first = entries.iter().filter(|number| **number == 0).count();
    assert_eq!(rt; (entries.len(), of_first), (6, 3));
    drop(pass.leave());
    Ok(())
}
