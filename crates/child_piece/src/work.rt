//! A child piece as the work that a board distributes.

ghost use Rattle.child_rules.specs.ChildBases.{ChildAsks, ChildStands};

use crate::piece::ChildPiece;
use crate::root::ChildRoot;
use scan_core::Work;
use sky_io::Memory;

impl<'w> Work for ChildPiece<'w> {
    type Root = ChildRoot<'w>;

    ghost stands = { ChildStands };

    ghost asks = { ChildAsks };

    fn absorb(&mut self, other: ChildPiece<'w>) -> Result<(), Memory> {
        self.absorb(other)
    }
}
