//! A value of an answer in sixteen bytes: a long answer has millions of them.

ghost use Rattle.std.specs.Prelude.{◌≡◌, IfNone, IfSome};
ghost use Rattle.answer_rules.specs.Rows.{shown};
ghost use Rattle.answer_rules.specs.declared.value.Value.TheVariants.{Fixed4};
ghost use Rattle.answer_table.specs.Tables.{IsShort};

use crate::values::number;
use answer_rules::Value;
use sky_vector::Num;
use sky_vector::limits::NUMBER_MOST;
use std::marker::Model;

/// NULL, a whole number from -2^100 to 2^100, or an average of at most 2^120 ten-thousandths in size.
#[derive(Drop)]
pub struct TableValue {
    code: i128,
}

impl Model for TableValue {
    ghost use Rattle.answer_rules.specs.declared.value.Value.{Value as AnswerValue};
    ghost use Rattle.answer_table.specs.TableValues.{value_in};

    ghost Value = { AnswerValue };

    ghost view = { λ e. value_in e.code };
}

/// The code of NULL, which is below every number.
const NULL: i128 = i128::MIN;

/// The greatest number of a query. The least is its negation.
const MOST: i128 = NUMBER_MOST as i128;

/// The code of the average 0.
const AVERAGES: i128 = 1 << 126;

/// The largest size of an average, in ten-thousandths.
const AVERAGE_MOST: u128 = 1 << 120;

impl TableValue {
    /// Creates the table value with this value, or `None` if it is an average of more than 2^120 ten-thousandths in size. Does
    /// not allocate.
    pub fn new(value: Value) -> Option<TableValue>
        ensures made { IfSome result (λ made. made ≡ value) }
        ensures short { IfSome result (λ made. IsShort made) }
        ensures none { IfNone result (IsShort value → ⊥) }
    {
        match value {
            Value::Null => Some(TableValue { code: NULL }),
            Value::Whole(n) => Some(TableValue { code: n.get() }),
            Value::Fixed4(scaled) => average(scaled),
        }
    }

    /// Creates the table value with this number, or with NULL. Does not allocate.
    pub fn shown(value: Option<Num>) -> TableValue
        ensures { result ≡ shown value }
    {
        match value {
            None => TableValue { code: NULL },
            Some(n) => TableValue { code: n.get() },
        }
    }

    /// Returns the value. Does not allocate.
    pub fn get(&self) -> Value
        ensures { result ≡ self.now }
    {
        if self.code < -MOST {
            Value::Null
        } else if self.code <= MOST {
            Value::Whole(number(self.code))
        } else {
            Value::Fixed4(self.code - AVERAGES)
        }
    }
}

/// Returns the table value with this average, or `None` if it is too large.
fn average(scaled: i128) -> Option<TableValue>
    ensures made { IfSome result (λ made. made ≡ Fixed4 scaled) }
    ensures short { IfSome result (λ made. IsShort made) }
    ensures none { IfNone result (IsShort (Fixed4 scaled) → ⊥) }
{
    if scaled.unsigned_abs() <= AVERAGE_MOST {
        Some(TableValue {
            code: AVERAGES + scaled,
        })
    } else {
        None
    }
}
