//! One more value at the end of a column.

ghost use Rattle.std.specs.Prelude.{true, ◌≡◌, [], ◌∷◌, ◌++◌, OnOk, OnErr, Some, None, length};
ghost use Rattle.std.specs.Option.{is_some};
ghost use Rattle.column_lists.specs.Columns.{cells_of, IsKept};

use sky_io::Memory;

/// Appends the value of one more row to a column in which each row has one.
pub(crate) fn push_to_whole(
    values: &mut Vec<i64>,
    present: &mut Vec<bool>,
    value: Option<i64>,
) -> Result<(), Memory>
    requires kept { IsKept values.old.items present.old.items }
    requires whole { present.old.items ≡ [] }
    ensures kept { IsKept values.new.items present.new.items }
    ensures ok { OnOk result (cells_of values.new.items present.new.items
        ≡ cells_of values.old.items present.old.items ++ value ∷ []) }
    ensures err { OnErr result (cells_of values.new.items present.new.items
        ≡ cells_of values.old.items present.old.items) }
{
    match value {
        Some(number) => push_number(values, present, number),
        None => push_first_null(values, present),
    }
}

/// Appends a number to a column in which each row has a value.
#[tactic(auto, using(crate::proofs::Presence::whole_more, crate::proofs::Presence::whole_kept))]
fn push_number(values: &mut Vec<i64>, present: &Vec<bool>, number: i64) -> Result<(), Memory>
    requires { present.now.items ≡ [] }
    ensures kept { IsKept values.new.items present.now.items }
    ensures ok { OnOk result (cells_of values.new.items present.now.items
        ≡ cells_of values.old.items present.now.items ++ Some number ∷ []) }
    ensures err { OnErr result (values.new.items ≡ values.old.items) }
{
    values.push(number)?;
    Ok(())
}

/// Appends the first NULL of a column, which creates its validity list.
fn push_first_null(values: &mut Vec<i64>, present: &mut Vec<bool>) -> Result<(), Memory>
    requires whole { present.old.items ≡ [] }
    ensures kept { IsKept values.new.items present.new.items }
    ensures ok { OnOk result (cells_of values.new.items present.new.items
        ≡ cells_of values.old.items present.old.items ++ None ∷ []) }
    ensures err { OnErr result (cells_of values.new.items present.new.items
        ≡ cells_of values.old.items present.old.items) }
{
    make_presence(values, present)?;
    push_present(values, present, None)
}

/// Creates the validity list of a column in which each row has a value.
#[tactic(auto, using(crate::proofs::Presence::made_presence, crate::proofs::Presence::whole_kept, crate::proofs::Presence::made_kept))]
fn make_presence(values: &Vec<i64>, present: &mut Vec<bool>) -> Result<(), Memory>
    requires whole { present.old.items ≡ [] }
    ensures full { OnOk result (length present.new.items ≡ length values.now.items) }
    ensures kept { IsKept values.now.items present.new.items }
    ensures same { cells_of values.now.items present.new.items
        ≡ cells_of values.now.items present.old.items }
{
    *present = Vec::from_elem(*values.allocator(), true, values.len())?;
    Ok(())
}

/// Appends a value and its validity, or neither.
#[tactic(auto, using(crate::proofs::Presence::present_more, crate::proofs::Presence::present_kept))]
pub(crate) fn push_present(
    values: &mut Vec<i64>,
    present: &mut Vec<bool>,
    value: Option<i64>,
) -> Result<(), Memory>
    requires kept { IsKept values.old.items present.old.items }
    requires full { length present.old.items ≡ length values.old.items }
    ensures kept { IsKept values.new.items present.new.items }
    ensures ok { OnOk result (cells_of values.new.items present.new.items
        ≡ cells_of values.old.items present.old.items ++ value ∷ []) }
    ensures err { OnErr result (cells_of values.new.items present.new.items
        ≡ cells_of values.old.items present.old.items) }
{
    values.push(value.unwrap_or(0))?;
    if present.push(value.is_some()).is_err() {
        values.pop();
        return Err(Memory);
    }
    Ok(())
}
