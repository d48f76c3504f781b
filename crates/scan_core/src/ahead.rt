//! The chunks of a query, in the order in which the scan reaches them.
ghost use Rattle.std.specs.Prelude.{◌≡◌, List, [], ◌∷◌, ◌++◌, cond, nat_lt, not, filter, IfOk};
ghost use Rattle.scan_core.specs.Attaching.{is_behind, is_onward, ahead_in};

use sky_io::Memory;
use std::alloc::Global;

/// Appends the chunks from the given position on, ascending.
fn push_onward(ahead: &mut Vec<u32>, place: u32, chunks: &[u32]) -> Result<(), Memory>
    ensures { IfOk result (λ _.
        ahead.new.items ≡ ahead.old.items ++ filter (is_onward place) chunks.now) }
{
    for chunk in chunks {
        push_where(ahead, *chunk, *chunk >= place)?;
    }
    Ok(())
}

/// Appends the chunks before the given position, ascending.
fn push_behind(ahead: &mut Vec<u32>, place: u32, chunks: &[u32]) -> Result<(), Memory>
    ensures { IfOk result (λ _.
        ahead.new.items ≡ ahead.old.items ++ filter (is_behind place) chunks.now) }
{
    for chunk in chunks {
        push_where(ahead, *chunk, *chunk < place)?;
    }
    Ok(())
}

/// Appends the chunk if it is wanted.
fn push_where(ahead: &mut Vec<u32>, chunk: u32, wanted: bool) -> Result<(), Memory>
    ensures { IfOk result (λ _. ahead.new.items ≡ ahead.old.items ++ cond wanted (chunk ∷ []) []) }
{
    if wanted {
        ahead.push(chunk)?;
    }
    Ok(())
}

/// Returns the chunks in the order of the scan from the given position, the next one last. Allocates memory.
pub fn ahead_of(alloc: Global, place: u32, chunks: &[u32]) -> Result<Vec<u32>, Memory>
    ensures { IfOk result (λ ahead. ahead.items ≡ ahead_in place chunks.now) }
{
    let mut ahead = Vec::new(alloc);
    ahead.reserve(chunks.len())?;
    push_onward(&mut ahead, place, chunks)?;
    push_behind(&mut ahead, place, chunks)?;
    ahead.reverse();
    Ok(ahead)
}
