//! A participant of two boards.
ghost use Rattle.std.specs.Prelude.{◌≡◌};
ghost use Rattle.scan_rules.specs.Lines.{seat_of};
ghost use Rattle.turn_lock.specs.Seats.{Knows};
ghost use Rattle.scan_classes.specs.Pairs.{IsPair};

use scan_board::{Board, Seat, Work};
use std::marker::Model;

/// A participant of the short board and one of the long board, with one number.
#[derive(Drop)]
pub struct Pair<P: Work> {
    pub(crate) short: Seat<Board<P>>,
    pub(crate) long: Seat<Board<P>>,
}

impl<P: Work> Model for Pair<P> {
    ghost use Rattle.scan_classes.specs.Pairs.{IsPair, PairSeat};

    ghost Value = { PairSeat P.Root };

    ghost view = { λ p. record { short = p.short; long = p.long } };

    ghost invariant = { λ p. IsPair (record { short = p.short; long = p.long }) };
}

impl<P: Work> Pair<P> {
    /// Returns the number of both participants. Each knows its own lines, and attached queries of its class alone. Does
    /// not allocate.
    pub fn number(&self) -> u32
        ensures short { result ≡ self.now.short.number }
        ensures long { result ≡ self.now.long.number }
        ensures known { Knows seat_of self.now.short × Knows seat_of self.now.long }
        ensures pair { IsPair self.now }
    {
        // the contract of `number` gives that each participant knows its own lines
        let _long = self.long.number();
        self.short.number()
    }
}
