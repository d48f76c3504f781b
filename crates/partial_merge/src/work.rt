//! A piece as the work that a board distributes.

ghost use Rattle.answer_rules.specs.Bases.{Asks, StandsFor};

use crate::piece::Piece;
use crate::root::PieceRoot;
use scan_core::Work;
use sky_io::Memory;

impl<'w> Work for Piece<'w> {
    type Root = PieceRoot<'w>;

    ghost stands = { StandsFor };

    ghost asks = { Asks };

    fn absorb(&mut self, other: Piece<'w>) -> Result<(), Memory> {
        self.absorb(other)
    }
}
