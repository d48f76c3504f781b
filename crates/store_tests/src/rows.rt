//! What no clause says: that rows are pushed with ample memory, that a column keeps a validity mask only for a NULL, and that a
//! block excludes ids.
ghost use Rattle.std.specs.Prelude.{◌≡◌, ◌<◌, pos, IsTrue, length};
ghost use Rattle.sky_vector.specs.Points.{is_admissible};
ghost use Rattle.sky_vector.specs.Pos.{point};

use column_block::Block;
use sky_row::{Column, Row, Rows, Schema};
use sky_vector::Pos;
use std::alloc::Global;
use std::test::Fail;

// The position at which the x axis meets the sphere.
fn place() -> Pos
    ensures { IsTrue (is_admissible (point result)) }
{
    Pos::new(1 << 28, 0, 0).unwrap()
}

// A row without extra values.
fn bare(id: u32) -> Row
    ensures id { result.id ≡ pos id }
    ensures narrow { length result.further ≡ 0 }
{
    Row::new(i64::from(id), place(), &[])
}

#[test]
fn a_row_is_pushed_after_the_others(rt: HostRuntime) -> Result<(), Fail> {
    let alloc = rt.alloc();
    let mut rows = Rows::new(alloc, Schema::new(alloc))?;
    rows.push(&bare(0))?;
    rows.push(&bare(7))?;
    assert_eq!(rt; rows.ids(), [0, 7].as_slice());
    assert_eq!(rt; rows.schema().width(), 4);
    Ok(())
}

// Of three ids, whether a block that has the row with the id 7 alone may have it.
fn may_have(alloc: Global, rows: &Rows, ids: [i64; 3]) -> Result<[bool; 3], Fail>
    requires { 1 < length rows.now.objects }
{
    let block = Block::build(alloc, rows, &[1])?;
    Ok([
        block.may_have_id(ids[0]),
        block.may_have_id(ids[1]),
        block.may_have_id(ids[2]),
    ])
}

#[test]
fn a_block_excludes_ids_with_other_low_bits(rt: HostRuntime) -> Result<(), Fail> {
    let alloc = rt.alloc();
    let mut rows = Rows::new(alloc, Schema::new(alloc))?;
    rows.push(&bare(0))?;
    rows.push(&bare(7))?;
    // the filter of one id has 64 bits, so 71 has the bit of 7
    assert_eq!(rt; may_have(alloc, &rows, [7, 0, 71])?, [true, false, true]);
    Ok(())
}

// Whether the last value and the first are a column without a mask.
fn ends_are_whole(alloc: Global, column: &Column) -> Result<bool, Fail>
    requires { length column.now ≡ 3 }
{
    let ends = column.at(alloc, &[2, 0])?;
    Ok(ends.values() == [9, 7].as_slice() && ends.present().is_none())
}

// Whether the NULL and the last value are a column with a mask.
fn rest_is_masked(alloc: Global, column: &Column) -> Result<bool, Fail>
    requires { length column.now ≡ 3 }
{
    let rest = column.at(alloc, &[1, 2])?;
    Ok(rest.values() == [0, 9].as_slice() && rest.present() == Some([false, true].as_slice()))
}

#[test]
fn a_column_keeps_no_mask_if_each_row_has_a_value(rt: HostRuntime) -> Result<(), Fail> {
    let alloc = rt.alloc();
    let mut column = Column::new(alloc);
    column.push(Some(7))?;
    assert!(rt; column.present().is_none());
    column.push(None)?;
    column.push(Some(9))?;
    assert_eq!(rt; column.present(), Some([true, false, true].as_slice()));
    if column.len() != 3 {
        panic!(rt; "another length");
    }
    assert!(rt; ends_are_whole(alloc, &column)?);
    assert!(rt; rest_is_masked(alloc, &column)?);
    Ok(())
}
