//! Writes numbers in decimal.
ghost use Rattle.std.specs.Prelude.{◌≡◌};
ghost use Rattle.std.specs.Fmt.{decimal, signed_decimal};
ghost use Rattle.sky_io.specs.Sinks.{Wrote};

use itoa::Buffer;
use sky_io::{Put, Sink};

/// Writes a whole number in decimal, after a minus if it is negative. Does not allocate.
pub fn put_int<K: Sink>(sink: &mut K, n: i128) -> Put
    ensures { Wrote (K.state sink.old) (K.state sink.new) (signed_decimal n) result }
{
    let mut buffer = Buffer::new();
    sink.put(buffer.format(n).as_bytes())
}

/// Writes a count in decimal. Does not allocate.
pub fn put_count<K: Sink>(sink: &mut K, count: u64) -> Put
    ensures { Wrote (K.state sink.old) (K.state sink.new) (decimal count) result }
{
    let mut buffer = Buffer::new();
    sink.put(buffer.format(count).as_bytes())
}

/// Writes a number that is not negative, of any size, in decimal. Does not allocate.
pub fn put_natural<K: Sink>(sink: &mut K, n: u128) -> Put
    ensures { Wrote (K.state sink.old) (K.state sink.new) (decimal n) result }
{
    let mut buffer = Buffer::new();
    sink.put(buffer.format(n).as_bytes())
}
