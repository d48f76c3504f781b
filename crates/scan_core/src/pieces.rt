//! The pieces of a board, one for each query, by its number.
ghost use Rattle.std.specs.Prelude.{◌≡◌, ◌<◌, ◌+◌, length, get_or, false, Option, Some, IsSome, IfOk};
ghost use Rattle.scan_core.specs.declared.limits.TheConstants.{SLOTS};
ghost use Rattle.scan_core.specs.Changes.{Beside};
ghost use Rattle.scan_core.specs.Answers.{EndsAs};

use crate::answers::Collect;
use crate::limits::SLOTS;
use crate::work::Work;
use sky_io::Memory;
use std::alloc::Global;

/// Takes the piece of a query out.
pub fn take_at<P: Work>(pieces: &mut Vec<Option<P>>, q: usize) -> Option<P>
    requires { q < length pieces.old.items }
    ensures beside { Beside pieces.old.items pieces.new.items q }
    ensures taken { (d : Option P) → result ≡ get_or pieces.old.items q d }
{
    let piece = &mut pieces[q];
    piece.take()
}

/// Returns the end of a query that is attached and does not run. If the query is done, a piece is there.
pub fn end_of<P: Work>(cancelled: bool, lost: bool, piece: Option<P>) -> Collect<P>
    requires { cancelled ≡ false → lost ≡ false → IsSome piece }
    ensures { EndsAs cancelled lost piece result }
{
    if cancelled {
        return Collect::Cancelled;
    }
    if lost {
        return Collect::Spent;
    }
    Collect::Piece(piece.unwrap())
}

/// Stores the piece of a query that is attached.
pub fn put_at<P: Work>(pieces: &mut Vec<Option<P>>, q: usize, piece: P)
    requires { q < length pieces.old.items }
    ensures beside { Beside pieces.old.items pieces.new.items q }
    ensures here { (d : Option P) → get_or pieces.new.items q d ≡ Some piece }
{
    pieces[q] = Some(piece);
}

/// Appends an absent piece. Allocates memory.
fn push_none<P: Work>(pieces: &mut Vec<Option<P>>) -> Result<(), Memory>
    ensures { IfOk result (λ _. length pieces.new.items ≡ length pieces.old.items + 1) }
{
    Ok(pieces.push(None)?)
}

/// Creates the pieces of a new board, all absent. Allocates memory.
pub fn no_pieces<P: Work>(alloc: Global) -> Result<Vec<Option<P>>, Memory>
    ensures { IfOk result (λ pieces. length pieces.items ≡ SLOTS) }
{
    let mut pieces = Vec::new(alloc);
    for turn in 0..SLOTS {
        push_none(&mut pieces)?;
    }
    Ok(pieces)
}
