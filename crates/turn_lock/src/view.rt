//! What the table stores for each participant, and the rule that every step preserves. No value of these types is
//! created.
ghost use Rattle.std.specs.Prelude.{List, []};

use atomic_table::TableRule;
use sky_io::Lineage;
use std::collections::LinkedList;
use std::marker::{Brand, PhantomData};
use std::snapshot::Snapshot;

/// What a participant knows.
pub struct View<R, E> {
    /// The participant's number, from 0.
    pub number: u32,
    /// The value's root; None in the view of a participant that has ended.
    pub root: Option<R>,
    /// The prefix of the history that the participant has seen.
    pub seen: LinkedList<E>,
    /// The entries that the participant made.
    pub mine: LinkedList<E>,
    /// The numbers of the participants that ended in this one, each with its entries.
    pub ended: LinkedList<(u32, LinkedList<E>)>,
    /// What this participant had seen when another ended in it.
    pub before: LinkedList<E>,
    /// What that other participant had seen.
    pub heard: LinkedList<E>,
    /// At participant 0 the number of participants made, itself counted; at the others 0.
    pub made: u32,
    /// Whether the participant holds the lock.
    pub holds_turn: bool,
    /// Whether the rule constrains the view.
    pub live: bool,
}

/// The rule of the lock. It knows the value as it was when the lock was made.
pub struct Rule<T> {
    of: PhantomData<T>,
}

impl<T: Lineage> TableRule<Option<T>, View<T::Root, T::Entry>, Snapshot<T>> for Rule<T> {
    ghost use Rattle.turn_lock.specs.Rule.{Kept};
    ghost use Rattle.turn_lock.specs.Views.{opening_view};

    ghost holds = { λ key s. Kept T.root T.past T.seat_of s };

    ghost first = { λ key. opening_view (T.root key.value) };
}

/// The entries that a store adds. A call picks them, for the proof alone.
pub(crate) trait Said<E> {
    ghost said: { List E };
}

impl<E> Said<E> for Brand {
    ghost said = { [] };
}
