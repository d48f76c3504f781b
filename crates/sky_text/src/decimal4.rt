//! Writes numbers with four decimals.
ghost use Rattle.std.specs.Prelude.{◌≡◌, ◌+◌, ◌≤◌, ◌<◌, ◌^◌, ◌∷◌, nat_abs};
ghost use Rattle.sky_io.specs.Sinks.{Wrote};
ghost use Rattle.text_rules.specs.Numbers.{four_decimals, four_digits, ten_thousandths};

use crate::put::put_natural;
use sky_io::{Put, Sink};

/// Writes a number of ten-thousandths, of a size of at most 2^120: a whole part, a point and four digits, after a minus
/// if it is negative. Does not allocate.
#[tactic(auto, using(crate::proofs::Decimals::negative, crate::proofs::Decimals::from_zero))]
pub fn put_decimal4<K: Sink>(sink: &mut K, scaled: i128) -> Put
    requires { nat_abs scaled ≤ 2 ^ 120 }
    ensures { Wrote (K.state sink.old) (K.state sink.new) (four_decimals scaled) result }
{
    if scaled < 0 {
        put_negative(sink, scaled.unsigned_abs())
    } else {
        put_size(sink, scaled.unsigned_abs())
    }
}

// Writes the number below zero that has this size in ten-thousandths.
fn put_negative<K: Sink>(sink: &mut K, size: u128) -> Put
    ensures { Wrote (K.state sink.old) (K.state sink.new) (45 ∷ ten_thousandths size) result }
{
    match sink.put(b"-") {
        Put::Failed => Put::Failed,
        Put::Done => put_size(sink, size),
    }
}

// Writes a number of ten-thousandths that is not below zero.
fn put_size<K: Sink>(sink: &mut K, size: u128) -> Put
    ensures { Wrote (K.state sink.old) (K.state sink.new) (ten_thousandths size) result }
{
    match put_natural(sink, size / 10000) {
        Put::Failed => Put::Failed,
        Put::Done => put_decimals(sink, (size % 10000) as u32),
    }
}

// Writes a point and the given number of ten-thousandths in four digits.
fn put_decimals<K: Sink>(sink: &mut K, part: u32) -> Put
    requires { part < 10000 }
    ensures { Wrote (K.state sink.old) (K.state sink.new) (46 ∷ four_digits part) result }
{
    sink.put(&[
        b'.',
        digit(part / 1000),
        digit(part / 100 % 10),
        digit(part / 10 % 10),
        digit(part % 10),
    ])
}

// The digit, as a byte of text.
fn digit(n: u32) -> u8
    requires { n < 10 }
    ensures { result ≡ 48 + n }
{
    b'0' + n as u8
}
