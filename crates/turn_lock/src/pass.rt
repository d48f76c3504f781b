//! The guard: the lock, held by a participant.
ghost use Rattle.std.specs.Prelude.{◌≡◌, ◌+◌, ◌*◌, ◌<◌, ◌^◌, [], ◌∷◌, ◌++◌, length, All, true};
ghost use Rattle.std.specs.Prelude.{IsSome, Some, None};
ghost use Rattle.turn_lock.specs.Pasts.{GrewByAtMostOne};
ghost use Rattle.turn_lock.specs.Seats.{Knows, grown};
ghost use Rattle.turn_lock.specs.Views.{adding, adding_fresh, leaving, ViewKnows};

use crate::plays::{Adds, Gives};
use crate::seat::{Inner, Seat};
use crate::turn::Turn;
use crate::view::{Said, View};
use sky_io::Lineage;
use std::marker::{Brand, Model};

/// The lock, held, with the value. It has no `Drop`: a participant that has entered must leave.
pub struct Pass<'a, T: Lineage> {
    pub(crate) turn: &'a Turn<T>,
    pub(crate) inner: atomic_table::Seat<Option<T>, View<T::Root, T::Entry>>,
    pub(crate) number: u32,
    pub(crate) made: u32,
    pub(crate) value: T,
    ghost rooted: { IsSome inner.me.0.root },
}

impl<'a, T: Lineage> Model for Pass<'a, T> {
    ghost use Rattle.std.specs.Prelude.{◌≡◌};
    ghost use Rattle.turn_lock.specs.Passes.{Entered};
    ghost use Rattle.turn_lock.specs.Views.{seated, HasTurn};

    ghost Value = { Entered T T.Root T.Entry };

    ghost view = { λ p. record {
      seat = seated p.inner.table_id p.inner.me.0 p.rooted;
      value = p.value;
    } };

    ghost invariant = { λ p. (p.inner.table_id ≡ p.turn.now)
        × HasTurn T.seat_of p.number p.made p.inner.me };
}

impl<'a, T: Lineage> Pass<'a, T> {
    /// Puts the value back and returns the participant, which has then seen the whole history. Does not allocate.
    pub fn leave(self) -> Seat<T>
        requires root { T.root self.value ≡ self.seat.root }
        requires past { GrewByAtMostOne T.seat_of
            self.seat.number self.seat.seen (T.past self.value) }
        requires short { length (T.past self.value) < 2 ^ 62 }
        ensures seat { result ≡ grown (T.past self.entry.value) self.entry.seat }
        ensures known { Knows T.seat_of result }
    {
        let Pass {
            turn,
            mut inner,
            number,
            made,
            value,
        } = self;
        let count = value.past_len();
        publish(turn, &mut inner, &value, 2 * count + 1);
        put_back(turn, &mut inner, value, 2 * count);
        Seat {
            inner,
            number,
            made,
        }
    }
}

// The store that makes the entries of W part of the history.
fn publish_said<T: Lineage, W: Said<T::Entry>>(
    turn: &Turn<T>,
    inner: &mut Inner<T>,
    value: &T,
    word: u64,
)
    requires own { inner.old.table_id ≡ turn.now }
    requires holder { (inner.old.me.0.live ≡ true) × (inner.old.me.0.holds_turn ≡ true) }
    requires said { T.past value.now ≡ inner.old.me.0.seen ++ W.said }
    requires mine { All (λ e. T.seat_of e ≡ inner.old.me.0.number) W.said }
    requires word { word ≡ 2 * length (T.past value.now) + 1 }
    ensures own { inner.new.table_id ≡ inner.old.table_id }
    ensures view { inner.new.me.0 ≡ adding inner.old.me.0 W.said }
    ensures slot { inner.new.me.1 ≡ inner.old.me.1 }
{
    turn.table.shared.store::<Adds<W>>(inner, 0, word);
}

// The store that adds to the history those entries of the value that the participant had not seen.
fn publish<T: Lineage>(turn: &Turn<T>, inner: &mut Inner<T>, value: &T, word: u64)
    requires own { inner.old.table_id ≡ turn.now }
    requires holder { (inner.old.me.0.live ≡ true) × (inner.old.me.0.holds_turn ≡ true) }
    requires past { GrewByAtMostOne T.seat_of inner.old.me.0.number inner.old.me.0.seen
        (T.past value.now) }
    requires word { word ≡ 2 * length (T.past value.now) + 1 }
    ensures own { inner.new.table_id ≡ inner.old.table_id }
    ensures view { inner.new.me.0 ≡ adding_fresh inner.old.me.0 (T.past value.now) }
    ensures slot { inner.new.me.1 ≡ inner.old.me.1 }
{
    publish_said::<T, Brand>(turn, inner, value, word)
}

// Puts the value into the slot, and frees the lock.
fn put_back<T: Lineage>(turn: &Turn<T>, inner: &mut Inner<T>, value: T, word: u64)
    requires own { inner.old.table_id ≡ turn.now }
    requires holder { (inner.old.me.0.live ≡ true) × (inner.old.me.0.holds_turn ≡ true) }
    requires out { inner.old.me.1 ≡ (0, None) ∷ [] }
    requires root { Some (T.root value) ≡ inner.old.me.0.root }
    requires past { T.past value ≡ inner.old.me.0.seen }
    requires word { word ≡ 2 * length (T.past value) }
    ensures own { inner.new.table_id ≡ inner.old.table_id }
    ensures gone { inner.new.me ≡ (leaving inner.old.me.0, []) }
    ensures known { ViewKnows T.seat_of inner.new.me.0 }
{
    let shared = &turn.table.shared;
    let out = shared.exchange(inner, 0, Some(value));
    let None = out else { unreachable!() };
    shared.store::<Gives<T>>(inner, 0, word);
}
