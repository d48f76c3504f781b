//! Words, and a number after them.
use sky_io::{Put, Sink};
use sky_text::put_int;

/// Writes words and a number after them.
pub(crate) fn put_number<K: Sink>(sink: &mut K, words: &[u8], number: i128) -> Put {
    match sink.put(words) {
        Put::Failed => Put::Failed,
        Put::Done => put_int(sink, number),
    }
}
