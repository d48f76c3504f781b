//! The kinds of step, each with what the participant that makes it learns. They are for the proofs alone.
ghost use Rattle.turn_lock.specs.Steps.{added, gave, heard, tried};
ghost use Rattle.turn_lock.specs.Views.{joining, spent_view, split_off, splitting};

use crate::view::{Said, View};
use atomic_table::{Join, Play, Split};
use sky_io::Lineage;
use std::marker::PhantomData;

/// Takes the lock if it is free.
pub(crate) struct Tries<T> {
    of: PhantomData<T>,
}

impl<T: Lineage> Play<Option<T>, View<T::Root, T::Entry>> for Tries<T> {
    ghost then = { tried T.root T.past T.seat_of };
}

/// Makes entries part of the history.
pub(crate) struct Adds<W> {
    of: PhantomData<W>,
}

impl<T, R, E, W: Said<E>> Play<Option<T>, View<R, E>> for Adds<W> {
    ghost then = { added W.said };
}

/// Frees the lock.
pub(crate) struct Gives<T> {
    of: PhantomData<T>,
}

impl<T: Lineage> Play<Option<T>, View<T::Root, T::Entry>> for Gives<T> {
    ghost then = { gave T.seat_of };
}

/// Learns that what two joined participants had seen is each a prefix of what the joined one has seen.
pub(crate) struct Hears<T> {
    of: PhantomData<T>,
}

impl<T: Lineage> Play<Option<T>, View<T::Root, T::Entry>> for Hears<T> {
    ghost then = { heard T.seat_of };
}

/// Makes one more participant.
pub(crate) struct Splits;

impl<R, E> Split<View<R, E>> for Splits {
    ghost left = { splitting };

    ghost right = { split_off };
}

/// Ends one participant in another.
pub(crate) struct Joins;

impl<R, E> Join<View<R, E>> for Joins {
    ghost both = { joining };

    ghost spent = { spent_view };
}
