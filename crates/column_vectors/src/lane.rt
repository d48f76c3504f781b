//! The column vector of one node of an expression: a number for each row, which of them are valid, and how large they
//! can be.
ghost use Rattle.std.specs.Prelude.{◌≡◌, IfOk, length};
ghost use Rattle.column_vectors.specs.Lanes.{AreLanesJoined, CanJoin, IsListed, numbers_of};

use crate::join::{Join, joined};
use crate::mask::both;
use crate::numbers::Numbers;
use crate::scratch::Scratch;
use sky_io::Memory;

/// The numbers of rows, of which those of NULL have no meaning, and the largest size that they can have.
#[derive(Drop)]
pub struct Lane {
    pub numbers: Numbers,
    pub known: Vec<bool>,
    pub bound: u128,
}

impl Lane {
    /// Returns the same column vector, with each number materialised in a list.
    pub fn listed(self, scratch: &mut Scratch) -> Result<Lane, Memory>
        ensures { IfOk result (IsListed self) }
    {
        let Lane {
            numbers,
            known,
            bound,
        } = self;
        let numbers = numbers.listed(scratch)?;
        Ok(Lane {
            numbers,
            known,
            bound,
        })
    }

    /// Gives the vectors back to the scratch.
    pub fn give_back(self, scratch: &mut Scratch) {
        self.numbers.give_back(scratch);
        scratch.flags.give(self.known);
    }
}

/// Applies an operation to two column vectors, row by row; the result is NULL if one of the two is. No result is above
/// the bound in size. Allocates memory if the numbers become too large for 64 bits.
pub fn lanes_joined<J: Join>(
    join: &J,
    left: Lane,
    right: Lane,
    bound: u128,
    scratch: &mut Scratch,
) -> Result<Lane, Memory>
    requires can { CanJoin J.joins bound (numbers_of left.numbers) (numbers_of right.numbers) }
    requires masks { length right.known.items ≡ length left.known.items }
    ensures { IfOk result (λ lane. AreLanesJoined J.joins bound left right lane) }
{
    let mut known = left.known;
    both(known.as_mut_slice(), right.known.as_slice());
    scratch.flags.give(right.known);
    let numbers = joined(join, left.numbers, right.numbers, bound, scratch)?;
    Ok(Lane {
        numbers,
        known,
        bound,
    })
}
