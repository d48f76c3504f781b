//! Copies of child queries.

ghost use Rattle.std.specs.Prelude.{◌≡◌, IfOk};

use child_rules::ChildBound;
use chunk_rewriter::copy_of_bound;
use sky_io::Memory;
use std::alloc::Global;

/// Copies a child query; the copy has trees of its own. Allocates memory for them.
pub fn copy_of_child(alloc: Global, query: &ChildBound) -> Result<ChildBound, Memory>
    ensures { IfOk result (λ copy. copy ≡ query.now) }
{
    let bound = copy_of_bound(alloc, &query.bound)?;
    Ok(ChildBound { bound })
}
