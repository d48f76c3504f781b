//! The values of a table, as they are appended row by row.

ghost use Rattle.std.specs.Prelude.{◌≡◌, None, ◌++◌, ◌∷◌, [], IfOk, OnOk};
ghost use Rattle.sky_vector.specs.Numbers.{IsQueryNumber};
ghost use Rattle.answer_rules.specs.Rows.{shown};

use crate::lists::room;
use crate::table_value::TableValue;
use answer_rules::Value;
use sky_io::Memory;
use sky_vector::Num;
use std::alloc::Global;

/// Returns the value as one of an answer.
pub fn shown(value: Option<Num>) -> Value
    ensures { result ≡ shown value }
{
    match value {
        None => Value::Null,
        Some(n) => Value::Whole(n),
    }
}

/// Appends the value.
pub fn put(values: &mut Vec<TableValue>, value: TableValue) -> Result<(), Memory>
    ensures { OnOk result (values.new.items ≡ values.old.items ++ value ∷ []) }
{
    Ok(values.push(value)?)
}

/// Creates an empty list with room for the values of the given number of rows, so that it need not grow.
pub fn values_room(alloc: Global, rows: usize, items: usize) -> Result<Vec<TableValue>, Memory>
    ensures { IfOk result (λ values. values.items ≡ []) }
{
    room(alloc, rows.saturating_mul(items))
}

/// Returns the number with this value.
pub fn number(value: i128) -> Num
    requires { IsQueryNumber value }
    ensures { result ≡ value }
{
    match Num::new(value) {
        None => unreachable!(),
        Some(number) => number,
    }
}
