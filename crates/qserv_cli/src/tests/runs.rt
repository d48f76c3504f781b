//! Runs of a command over texts in memory. All have one type, so that the engine is compiled once for all of them.
use crate::tests::gates::TestGate;
use sky_io::{MemShelf, MemSink};
use std::alloc::Global;
use std::sync::Wait;
use std::test::Fail;
use std::thread::Threads;
use top_call::{qserv, status};

/// The sky plan of a run, its catalogue and its script.
pub(crate) type Texts<'t> = (&'t [u8], &'t [u8], &'t [u8]);

// These words.
fn words_in(alloc: Global, list: &[&str]) -> Result<Vec<String>, Fail> {
    let mut words = Vec::new(alloc);
    for word in list {
        words.push(String::from_str(alloc, word)?)?;
    }
    Ok(words)
}

// Appends a text with its name.
fn add_text(
    alloc: Global,
    texts: &mut Vec<(String, Vec<u8>)>,
    name: &str,
    text: &[u8],
) -> Result<(), Fail> {
    texts.push((String::from_str(alloc, name)?, text.to_vec(alloc)?))?;
    Ok(())
}

// These texts with their names.
pub(crate) fn texts_of(
    alloc: Global,
    given: &[(&str, &[u8])],
) -> Result<Vec<(String, Vec<u8>)>, Fail> {
    let mut texts = Vec::new(alloc);
    for one in given {
        add_text(alloc, &mut texts, one.0, one.1)?;
    }
    Ok(texts)
}

/// The words of a command, the shelf that it reads and the sink that it writes.
pub(crate) struct Run {
    words: Vec<String>,
    shelf: MemShelf,
    pub(crate) sink: MemSink,
}

// A derived drop would be proved again in each test.
impl Drop for Run {
    fn drop(self) {
        let Run { words, shelf, sink } = self;
    }
}

// The run of a command with these words over these texts, of which the fetches with the given numbers fail.
pub(crate) fn run_failing(
    alloc: Global,
    words: &[&str],
    texts: &[(&str, &[u8])],
    failing: Vec<u64>,
    sink: MemSink,
) -> Result<Run, Fail> {
    let shelf = MemShelf::new(alloc, texts_of(alloc, texts)?, failing);
    let words = words_in(alloc, words)?;
    Ok(Run { words, shelf, sink })
}

// The run of a command with these words over these texts.
pub(crate) fn run_of(
    alloc: Global,
    words: &[&str],
    texts: &[(&str, &[u8])],
    sink: MemSink,
) -> Result<Run, Fail> {
    run_failing(alloc, words, texts, Vec::new(alloc), sink)
}

// The run of a command over a sky plan, a catalogue and a script, with a number of workers.
pub(crate) fn script_run<'t>(
    alloc: Global,
    asked: (&'t str, &'t str),
    texts: Texts<'t>,
    sink: MemSink,
) -> Result<Run, Fail> {
    run_of(
        alloc,
        &[asked.0, "sky", "csv", "script", asked.1],
        &[("sky", texts.0), ("csv", texts.1), ("script", texts.2)],
        sink,
    )
}

// The status of a run past a gate.
pub(crate) fn status_past<R: Threads + Wait + Sync>(
    rt: &R,
    alloc: Global,
    run: &mut Run,
    gate: &TestGate<'_>,
) -> u8 {
    let words = run.words.as_slice();
    let outcome = qserv(rt, alloc, words, &mut run.shelf, &mut run.sink, gate);
    status(&outcome)
}

// A sink with room for a number of bytes, of which no call fails.
pub(crate) fn sink_of(alloc: Global, room: usize) -> Result<MemSink, Fail> {
    Ok(MemSink::new(alloc, room, Vec::new(alloc))?)
}

// Whether a run past a gate has the status 0 and writes this.
pub(crate) fn writes<R: Threads + Wait + Sync>(
    rt: &R,
    alloc: Global,
    mut run: Run,
    gate: &TestGate<'_>,
    want: &[u8],
) -> bool {
    let found = status_past(rt, alloc, &mut run, gate);
    found == 0 && run.sink.bytes() == want
}

// Whether a command over texts, with a number of workers, past a gate, has the status 0 and writes this.
pub(crate) fn is_written<R: Threads + Wait + Sync>(
    rt: &R,
    alloc: Global,
    asked: (&str, &str),
    texts: Texts<'_>,
    gate: &TestGate<'_>,
    want: &[u8],
) -> Result<bool, Fail> {
    let run = script_run(alloc, asked, texts, sink_of(alloc, 1000)?)?;
    Ok(writes(rt, alloc, run, gate, want))
}
