//! A text with one block for each query of a script, and the loop that writes it.

ghost use Rattle.std.specs.Prelude.{◌≡◌, ◌<◌, [], get_or, length, List};
ghost use Rattle.text_rules.specs.Readings.{joined};
ghost use Rattle.sky_io.specs.Sinks.{Wrote};
ghost use Rattle.sql_rules.specs.PrintedExprs.{Bytes};

use sky_io::{Put, Sink};

/// A text with one block for each query of a script.
pub trait Blocks {
    /// The blocks, in the queries' order.
    ghost blocks: { Self → List Bytes };

    /// What the text is written from fits the script.
    ghost fits: { Self → Type 0 };

    /// Writes the block with an index, from 0. Does not allocate.
    fn put_block<K: Sink>(&self, sink: &mut K, place: u32) -> Put
        requires fits { fits self.now }
        requires there { place < length (blocks self.now) }
        ensures { Wrote (K.state sink.old) (K.state sink.new)
            (get_or (blocks self.now) place []) result };
}

/// Writes a text with the given number of blocks. Does not allocate.
pub fn put_blocks<K: Sink, B: Blocks>(sink: &mut K, text: &B, count: u32) -> Put
    requires fits { B.fits text.now }
    requires count { count ≡ length (B.blocks text.now) }
    ensures { Wrote (K.state sink.old) (K.state sink.new) (joined (B.blocks text.now)) result }
{
    for place in 0..count {
        match text.put_block(sink, place) {
            Put::Failed => return Put::Failed,
            Put::Done => {}
        }
    }
    Put::Done
}
