//! The rounded averages of an answer.

ghost use Rattle.std.specs.Prelude.{◌≡◌, ◌≤◌, ◌<◌, ◌^◌, nat_abs};
ghost use Rattle.answer_rules.specs.Aggregates.{rounded_average};
ghost use Rattle.value_rules.specs.Widths.{most};

/// Returns a total divided by a count, in ten-thousandths, rounded to the nearest, halves away from zero.
pub(crate) fn rounded(total: i128, count: u32) -> i128
    requires some { 0 < count }
    requires small { nat_abs total ≤ most }
    ensures rounded { result ≡ rounded_average total count }
    ensures short { nat_abs result ≤ 2 ^ 120 }
{
    let size = total.unsigned_abs() * 10000;
    let rounded = ((2 * size + count as u128) / (2 * count as u128)) as i128;
    if total < 0 { -rounded } else { rounded }
}
