//! A participant of the lock.
ghost use Rattle.std.specs.Prelude.{◌≡◌, IsSome};

use crate::view::View;
use sky_io::Lineage;
use std::marker::Model;

/// A seat on the table of a lock. It has no bytes.
pub(crate) type Inner<T> = atomic_table::Seat<
    Option<T>,
    View<<T as Lineage>::Root, <T as Lineage>::Entry>,
>;

/// A participant of a lock. It is used up by entering, and returned by leaving.
#[derive(Drop)]
pub struct Seat<T: Lineage> {
    pub(crate) inner: atomic_table::Seat<Option<T>, View<T::Root, T::Entry>>,
    pub(crate) number: u32,
    pub(crate) made: u32,
    ghost rooted: { IsSome inner.me.0.root },
}

impl<T: Lineage> Model for Seat<T> {
    ghost use Rattle.turn_lock.specs.Seats.{Seated};
    ghost use Rattle.turn_lock.specs.Views.{seated, IsResting};

    ghost Value = { Seated T.Root T.Entry };

    ghost view = { λ s. seated s.inner.table_id s.inner.me.0 s.rooted };

    ghost invariant = { λ s. IsResting T.seat_of s.number s.made s.inner.me };
}

impl<T: Lineage> Seat<T> {
    ghost use Rattle.turn_lock.specs.Seats.{Knows};

    /// Returns the participant's number, from 0. Does not allocate.
    pub fn number(&self) -> u32
        ensures number { result ≡ self.now.number }
        ensures known { Knows T.seat_of self.now }
    {
        self.number
    }
}
