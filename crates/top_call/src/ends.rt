//! How the queries of a script ended.
ghost use Rattle.std.specs.Prelude.{◌≡◌, [], IfOk, map};
ghost use Rattle.query_ends.specs.Ends.{kind_of};

use czar::End;
use session_rules::Ends;
use sky_io::Memory;
use std::alloc::Global;

/// Returns the ends of no queries. Does not allocate.
pub fn no_ends(alloc: Global) -> Ends
    ensures { result ≡ [] }
{
    Ends::from_vec(Vec::new(alloc))
}

/// Returns how queries with these ends ended. Allocates memory.
#[tactic(auto, using(crate::proofs::EndLists::one_more))]
pub fn kinds_of(alloc: Global, ends: &[End]) -> Result<Ends, Memory>
    ensures { IfOk result (λ kinds. kinds ≡ map kind_of ends.now) }
{
    let mut kinds = Vec::new(alloc);
    for end in ends {
        kinds.push(end.kind())?;
    }
    Ok(Ends::from_vec(kinds))
}
