//! The line of a row, made in one buffer.
//!
//! Most rows of long answers have few values, each of which is NULL or a whole number of 64 bits. The line of such a row
//! is one piece for the sink. It is made from its end to its start. A row with another value is left to the caller.

ghost use Rattle.std.specs.Prelude.{◌≡◌, ◌+◌, ◌*◌, ◌≤◌, ◌∷◌, ◌++◌, codes, length, map, true};
ghost use Rattle.sql_rules.specs.PrintedExprs.{behind_each};
ghost use Rattle.transcript_rules.specs.Tables.{row_line, value_text};
ghost use Rattle.line_buffer.specs.declared.limits.TheConstants.{LINE_ROOM, NUMBER_ROOM};

use answer_rules::Value;
use answer_table::TableValue;
use line_buffer::LineBuffer;

/// The most values of a row whose line is made in one buffer. Each has at most 20 bytes, and one byte is before or after
/// it.
const VALUES_MOST: usize = 24;

// Adds a value at the front of the line, and returns whether it is NULL or a whole number of 64 bits.
fn push_value(line: &mut LineBuffer, value: &TableValue) -> bool
    requires room { length line.old + NUMBER_ROOM ≤ LINE_ROOM }
    ensures text { result ≡ true → line.new ≡ value_text value.now ++ line.old }
    ensures few { length line.new ≤ length line.old + NUMBER_ROOM }
{
    match value.get() {
        Value::Null => {
            line.push_null();
            true
        }
        Value::Whole(n) => line.push_whole(n.get()),
        Value::Fixed4(_) => false,
    }
}

// Adds a value and the comma before it at the front of the line, and returns whether it is NULL or a whole number of 64
// bits.
fn push_further_value(line: &mut LineBuffer, value: &TableValue) -> bool
    requires room { length line.old + (NUMBER_ROOM + 1) ≤ LINE_ROOM }
    ensures text { result ≡ true → line.new ≡ (codes "," ++ value_text value.now) ++ line.old }
    ensures few { length line.new ≤ length line.old + (NUMBER_ROOM + 1) }
{
    if !push_value(line, value) {
        return false;
    }
    line.push(b',');
    true
}

// Adds the values after the first at the front of the line, the last of them first, and returns whether each of them is
// NULL or a whole number of 64 bits.
fn push_further_values(line: &mut LineBuffer, rest: &[TableValue]) -> bool
    requires room { length line.old + (NUMBER_ROOM + 1) * length rest.now ≤ LINE_ROOM }
    ensures text { result ≡ true →
        line.new ≡ behind_each (codes ",") (map value_text rest.now) ++ line.old }
    ensures few { length line.new ≤ length line.old + (NUMBER_ROOM + 1) * length rest.now }
{
    let mut left = rest.len();
    while left > 0 {
        if !push_further_value(line, &rest[left - 1]) {
            return false;
        }
        left -= 1;
    }
    true
}

// Makes the line of a row of one value or more, and returns whether it has.
fn make_some(line: &mut LineBuffer, first: &TableValue, rest: &[TableValue]) -> bool
    ensures { result ≡ true → line.new ≡ row_line (first.now ∷ rest.now) }
{
    if rest.len() >= VALUES_MOST {
        return false;
    }
    line.clear();
    line.push(b'\n');
    if !push_further_values(line, rest) {
        return false;
    }
    push_value(line, first)
}

/// Makes the line of a row, and returns whether it has. If a value is neither NULL nor a whole number of 64 bits, or the
/// row has more values than the buffer has room for, returns false. Does not allocate.
pub(crate) fn make_line(line: &mut LineBuffer, row: &[TableValue]) -> bool
    ensures { result ≡ true → line.new ≡ row_line row.now }
{
    match row {
        [] => false,
        [first, rest @ ..] => make_some(line, first, rest),
    }
}
