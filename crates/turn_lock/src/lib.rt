//! A lock whose holders each see the whole history of the protected value.
//!
//! Callers see a `Turn`, the lock, as its identity. They see a `Seat`, a participant, as what it has seen of that
//! history (`specs/Seats.antt`), and a `Pass`, a guard, as the value and the participant that holds the lock. Below:
//! `sky_io` for `Lineage`, a value that only grows, and `atomic_table` for the atomic steps. Not in it: what the value
//! is, which participant enters next, or that the lock is ever free.
//!
//! An ordinary lock does not show its holder what others did meanwhile. This one does, by an atomic word, a slot and a
//! view for each participant. The word is 2c while the lock is free and 2c + 1 while it is held, where c is the number
//! of entries of the history. The slot has the value while the lock is free. A view is ghost data of the contracts, and
//! does not allocate: the entries that its participant has seen, and those that it made. The rule relates the three
//! (`specs/Rule.antt`): what any participant has seen is a prefix of the one history, and the history has exactly those
//! entries of each participant that the participant knows. So a participant that enters finds a value whose history
//! extends what it saw last, with none of its own entries lost or made up. A participant that leaves makes its entry a
//! part of what all others will find.
#![tactic(auto)]

pub mod laws;
mod lends;
mod pass;
mod plays;
mod seat;
mod turn;
mod view;

pub use pass::Pass;
pub use seat::Seat;
pub use turn::Turn;
