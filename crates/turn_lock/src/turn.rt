//! The lock: entering takes the value out, and leaving puts it back.
ghost use Rattle.std.specs.Prelude.{◌≡◌, ◌≢◌, ◌-◌, ◌%◌, ◌<◌, ◌^◌, [], true, IfSome, IfNone, IfOk};
ghost use mathlib.Core.List.{IsPrefix};
ghost use Rattle.turn_lock.specs.Seats.{Knows, first_seat, having_seen, joined_with, next_seat};
ghost use Rattle.turn_lock.specs.Seats.{one_more_made};
ghost use Rattle.turn_lock.specs.Steps.{TookOut};

use crate::pass::Pass;
use crate::plays::{Hears, Joins, Splits, Tries};
use crate::seat::{Inner, Seat};
use crate::view::{Rule, View};
use atomic_table::{Refused, Table};
use sky_io::{Lineage, Memory};
use std::alloc::Global;
use std::marker::Model;
use std::snapshot::Snapshot;
use std::sync::Wait;
use std::thread;

/// A lock over a value that only grows. Its identity is visible to contracts.
#[derive(Drop)]
pub struct Turn<T: Lineage> {
    pub(crate) table: Table<Option<T>, View<T::Root, T::Entry>, Snapshot<T>, Rule<T>, Global>,
}

impl<T: Lineage> Model for Turn<T> {
    ghost use Rattle.std.specs.Prelude.{◌≡◌};
    ghost use Rattle.atomic_table.specs.Seated.{TableId};

    ghost Value = { TableId };

    ghost view = { λ t. t.table.shared.table_id };

    ghost invariant = { λ t. (t.table.shared.table_id.words ≡ 1)
        × (t.table.shared.table_id.slots ≡ 1) };
}

impl<T: Lineage + Drop> Turn<T> {
    /// Creates a lock over a value with an empty history, and its participant 0. On Memory the value is dropped.
    pub fn new(alloc: Global, value: T) -> Result<(Turn<T>, Seat<T>), Memory>
        requires { T.past value ≡ [] }
        ensures { IfOk result (λ r. r.1 ≡ first_seat r.0 (T.root value)) }
    {
        let opened = Snapshot::of(&value);
        let Ok(mut slots) = Vec::with_capacity(alloc, 1) else {
            return Err(Memory);
        };
        slots.push_reserved(Some(value));
        match Table::new(alloc, &[0], slots, &opened) {
            Ok((table, inner)) => Ok((
                Turn { table },
                Seat {
                    inner,
                    number: 0,
                    made: 1,
                },
            )),
            Err(Refused { slots: _ }) => Err(Memory),
        }
    }
}

impl<T: Lineage> Turn<T> {
    /// Waits for the lock, and takes the value out. Does not allocate.
    pub fn enter<R: Wait>(&self, rt: &R, seat: Seat<T>) -> Pass<'_, T>
        requires own { seat.turn ≡ self.now }
        ensures seat { result.seat ≡ having_seen (T.past result.value) seat }
        ensures root { T.root result.value ≡ seat.root }
        ensures later { IsPrefix seat.seen (T.past result.value) }
        ensures known { Knows T.seat_of result.seat }
    {
        let Seat {
            mut inner,
            number,
            made,
        } = seat;
        let value = self.take_turn(rt, &mut inner);
        Pass {
            turn: self,
            inner,
            number,
            made,
            value,
        }
    }

    // Tries until the lock is free, and takes the value out.
    fn take_turn<R: Wait>(&self, rt: &R, inner: &mut Inner<T>) -> T
        requires own { inner.old.table_id ≡ self.now }
        requires live { (inner.old.me.1 ≡ []) × (inner.old.me.0.live ≡ true) }
        ensures own { inner.new.table_id ≡ inner.old.table_id }
        ensures out { TookOut T.root T.past T.seat_of inner.old.me result inner.new.me }
    {
        for _ in rt.forever() {
            let word = self.table.shared.peek(0);
            if word % 2 == 0 {
                if let Some(value) = self.try_enter(inner, word) {
                    return value;
                }
            }
            thread::yield_now();
        }
        unreachable!()
    }

    // Takes the value out if the word is still this one, the word of a free lock.
    fn try_enter(&self, inner: &mut Inner<T>, word: u64) -> Option<T>
        requires own { inner.old.table_id ≡ self.now }
        requires live { (inner.old.me.1 ≡ []) × (inner.old.me.0.live ≡ true) }
        requires even { word % 2 ≡ 0 }
        ensures own { inner.new.table_id ≡ inner.old.table_id }
        ensures won { IfSome result
            (λ t. TookOut T.root T.past T.seat_of inner.old.me t inner.new.me) }
        ensures lost { IfNone result (inner.new.me ≡ inner.old.me) }
    {
        let shared = &self.table.shared;
        let found = shared.compare_exchange::<Tries<T>>(inner, 0, word, word + 1);
        if found != word {
            return None;
        }
        shared.exchange(inner, 0, None)
    }

    /// Makes one more participant, with the next number, out of participant 0. Does not allocate.
    pub fn split(&self, seat: &mut Seat<T>) -> Seat<T>
        requires own { seat.old.turn ≡ self.now }
        requires first { seat.old.number ≡ 0 }
        requires room { seat.old.made < 2 ^ 32 - 1 }
        ensures kept { seat.new ≡ one_more_made seat.old }
        ensures next { result ≡ next_seat seat.old }
        ensures known { Knows T.seat_of seat.new × Knows T.seat_of result }
    {
        let number = seat.made;
        let inner = self.table.shared.split_seat::<Splits>(&mut seat.inner);
        seat.made += 1;
        Seat {
            inner,
            number,
            made: 0,
        }
    }

    /// Ends another participant in this one, which has then seen the longer of both lists. Does not allocate.
    pub fn join(&self, seat: &mut Seat<T>, other: Seat<T>)
        requires own { (seat.old.turn ≡ self.now) × (other.turn ≡ self.now) }
        requires not_first { other.number ≢ 0 }
        ensures joined { seat.new ≡ joined_with seat.old other }
        ensures own_seen { IsPrefix seat.old.seen seat.new.seen }
        ensures other_seen { IsPrefix other.seen seat.new.seen }
        ensures known { Knows T.seat_of seat.new }
    {
        let Seat {
            inner,
            number: _,
            made: _,
        } = other;
        let shared = &self.table.shared;
        shared.join_seat::<Joins>(&mut seat.inner, inner);
        shared.load::<Hears<T>>(&mut seat.inner, 0);
    }
}
