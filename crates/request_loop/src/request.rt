//! The next request of an input.
ghost use Rattle.std.specs.Prelude.{◌≡◌, [], false};
ghost use Rattle.request_loop.specs.Drafts.{IsDraft};
ghost use Rattle.request_loop.specs.Readings.{Reads, ReadsLines, TakesNext};

use crate::draft::{Draft, Stop};
use byte_source::{Next, Source};
use sky_io::Sink;
use std::alloc::Global;
use std::sync::Wait;

/// The next request of an input, or why there is none.
#[derive(Drop)]
pub enum Request {
    /// Its text, which is within the limit.
    Text(Vec<u8>),
    /// Its text is above the limit.
    Long,
    /// An allocation failed while it was read.
    Memory,
    /// The input ended in it.
    Open,
    /// The input has no other.
    Nothing,
    /// The source failed.
    Failed,
}

/// Reads the next request. A text above the limit is read to its end, and not kept. Allocates memory.
pub fn read_request<R: Wait, S: Source, K: Sink>(
    alloc: Global,
    rt: &R,
    source: &mut S,
    sink: &K,
) -> Request
    requires { (K.state sink.now).held ≡ false }
    ensures { Reads (S.state source.old) (S.state source.new) result }
{
    let mut draft = Draft::new(alloc);
    match read_lines(rt, source, sink, &mut draft) {
        Stop::Ended => draft.ended(),
        Stop::Over => draft.over(),
        Stop::Failed => {
            drop(draft);
            Request::Failed
        }
    }
}

// Reads up to the line that ends the request.
fn read_lines<R: Wait, S: Source, K: Sink>(
    rt: &R,
    source: &mut S,
    sink: &K,
    draft: &mut Draft,
) -> Stop
    requires sent { (K.state sink.now).held ≡ false }
    requires empty { IsDraft [] draft.old }
    ensures { ReadsLines (S.state source.old) (S.state source.new) draft.new result }
{
    for _ in rt.forever() {
        match take_next(source, sink, draft) {
            None => {}
            Some(stop) => return stop,
        }
    }
    unreachable!()
}

// Reads the next byte.
fn take_next<S: Source, K: Sink>(source: &mut S, sink: &K, draft: &mut Draft) -> Option<Stop>
    requires { (K.state sink.now).held ≡ false }
    ensures { TakesNext (S.state source.old) (S.state source.new) draft.old draft.new result }
{
    match source.next(sink) {
        Next::Byte(byte) => draft.take(byte),
        Next::End => Some(Stop::Over),
        Next::Failed => Some(Stop::Failed),
    }
}
