//! The ints of a written list as numbers.
ghost use Rattle.std.specs.Prelude.{◌≡◌, ◌∷◌, ◌++◌, [], IfOk};
ghost use Rattle.bind_rules.specs.Forms.{int_value, values_of};

use bind_checks::int_value;
use sql_bound::Ids;
use sql_tree::{IntList, SignedInt};
use sqlite_items::Items;
use std::alloc::{AllocError, Global};

// Appends an int.
fn push_int(ints: &mut Ids, int: &SignedInt) -> Result<(), AllocError>
    ensures { IfOk result (λ _. ints.new ≡ ints.old ++ int_value int.now ∷ []) }
{
    let value = int_value(int);
    ints.push(value)?;
    Ok(())
}

/// Returns the ints of a list. Allocates memory for them.
#[tactic(auto, using(query_walks::proofs::Loops::map_more))]
pub(crate) fn values_of(alloc: Global, list: &IntList) -> Result<Ids, AllocError>
    ensures { IfOk result (λ ints. ints ≡ values_of list.now) }
{
    let mut ints = Items::new(alloc);
    push_int(&mut ints, &list.first)?;
    for int in list.rest.as_slice() {
        push_int(&mut ints, int)?;
    }
    Ok(ints)
}
