//! Lists that grow: reserving room, appending, and cutting to the first n.

ghost use Rattle.std.specs.Prelude.{◌≡◌, ◌≤◌, ◌+◌, ◌++◌, [], IfOk, OnErr, OnOk, vec_capacity, vec_len};
ghost use Rattle.answer_rules.specs.InOrder.{first};
ghost use Rattle.answer_rules.specs.Rows.{limit_of};

use sky_io::Memory;
use sql_bound::Int;
use std::alloc::Global;

/// Creates an empty list with room for the given number of elements.
pub fn room<T>(alloc: Global, count: usize) -> Result<Vec<T>, Memory>
    ensures items { IfOk result (λ list. list.items ≡ []) }
    ensures room { IfOk result (λ list. count ≤ vec_capacity list) }
    ensures none { IfOk result (λ list. vec_len list ≡ 0) }
{
    Ok(Vec::with_capacity(alloc, count)?)
}

/// Reserves room for the given number of more elements.
pub fn reserve<T>(list: &mut Vec<T>, more: usize) -> Result<(), Memory>
    ensures same { list.new.items ≡ list.old.items }
    ensures room { OnOk result (vec_len list.new + more ≤ vec_capacity list.new) }
{
    Ok(list.reserve(more)?)
}

/// Appends the elements. After `Err` nothing has changed.
pub fn append<T: Drop>(list: &mut Vec<T>, mut more: Vec<T>) -> Result<(), Memory>
    ensures ok { OnOk result (list.new.items ≡ list.old.items ++ more.items) }
    ensures err { OnErr result (list.new.items ≡ list.old.items) }
{
    Ok(list.append(&mut more)?)
}

/// Drops all but the first n, if there is a limit.
pub fn cut<T: Drop>(list: &mut Vec<T>, limit: Option<Int>)
    ensures { list.new.items ≡ first (limit_of limit) list.old.items }
{
    if let Some(n) = limit {
        list.truncate(n.get().unsigned_abs() as usize);
    }
}
