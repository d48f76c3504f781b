//! The pair of a bare query: only its two ids are computed, so that no row is read.

ghost use Rattle.std.specs.Prelude.{◌≡◌, OnOk, Some};
ghost use Rattle.partial_merge.specs.Joining.{IsOfRows, TakesRow};
ghost use Rattle.near_join.specs.Bare.{id_line};

use partial_merge::{Piece, Rank};
use sky_io::Memory;
use sky_vector::Num;

/// Pushes a pair with these ids, which are all that is computed of it, into the piece.
pub(crate) fn push_line(piece: &mut Piece<'_>, first: i64, second: i64) -> Result<(), Memory>
    requires { IsOfRows piece.old }
    ensures { OnOk result (TakesRow piece.old (id_line first second) piece.new) }
{
    let rank = Rank {
        class: 0,
        value: 0,
        first,
        second,
    };
    piece.push_row(&rank, &[id_value(first), id_value(second)])
}

/// Returns the id as a value of a line.
fn id_value(id: i64) -> Option<Num>
    ensures { result ≡ Some id }
{
    Num::new(i128::from(id))
}
