//! Small parts of texts: numbers with words before or after them, and the line that numbers a block.
ghost use Rattle.std.specs.Prelude.{◌≡◌, ◌++◌, codes};
ghost use Rattle.std.specs.Fmt.{decimal};
ghost use Rattle.sky_io.specs.Sinks.{Wrote};
ghost use Rattle.transcript_rules.specs.Blocks.{number_line};

use sky_io::{Put, Sink};
use sky_text::put_count;

/// Writes words, and a count after them.
pub fn put_led_count<K: Sink>(sink: &mut K, words: &[u8], count: u64) -> Put
    ensures { Wrote (K.state sink.old) (K.state sink.new) (words.now ++ decimal count) result }
{
    match sink.put(words) {
        Put::Failed => Put::Failed,
        Put::Done => put_count(sink, count),
    }
}

/// Writes a count, and words after it.
pub fn put_counted<K: Sink>(sink: &mut K, count: u64, words: &[u8]) -> Put
    ensures { Wrote (K.state sink.old) (K.state sink.new) (decimal count ++ words.now) result }
{
    match put_count(sink, count) {
        Put::Failed => Put::Failed,
        Put::Done => sink.put(words),
    }
}

/// Writes the line that numbers a block.
pub fn put_number_line<K: Sink>(sink: &mut K, number: u32) -> Put
    ensures { Wrote (K.state sink.old) (K.state sink.new) (number_line number) result }
{
    match put_led_count(sink, b"query ", u64::from(number)) {
        Put::Failed => Put::Failed,
        Put::Done => sink.put(b"\n"),
    }
}
