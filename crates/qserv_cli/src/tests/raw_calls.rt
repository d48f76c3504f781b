//! What no clause of `sky_io` says: how many raw calls are made, and that a rest is written by a later call.
use crate::tests::runs::texts_of;
use sky_io::{
    Buffered, Fetch, FileShelf, FolderShelf, MemFiles, MemOutput, PlainShelf, Put, Shelf, Sink,
};
use std::alloc::Global;
use std::test::Fail;

// Pieces of 17,200 bytes in all. The first two fill the buffer, and the fifth is longer than it.
const PIECES: [&[u8]; 6] = [&[1; 3], &[2; 8189], &[], &[3; 1], &[4; 9000], &[5; 7]];

// Writes the pieces and flushes, up to the first failure.
fn write_pieces(sink: &mut Buffered<MemOutput>) -> Put {
    for piece in PIECES {
        if sink.put(piece) == Put::Failed {
            return Put::Failed;
        }
    }
    sink.flush_out()
}

// Whether the pieces are written over an output whose write of this number fails, and how many bytes of them are.
fn written_until(alloc: Global, call: u64) -> Result<(bool, usize), Fail> {
    let output = MemOutput::new(alloc, 20000, 20000, vec![in alloc; call]?)?;
    let mut sink = Buffered::over(output);
    let put = write_pieces(&mut sink);
    Ok((put == Put::Done, sink.output().bytes().len()))
}

#[test]
fn a_full_buffer_is_one_write(rt: HostRuntime) -> Result<(), Fail> {
    // the write that fails, and the bytes written before it: no fifth write is made
    for (call, bytes) in [(1, 0), (2, 8192), (3, 8193), (4, 17193), (5, 17200)] {
        let found = written_until(rt.alloc(), call)?;
        assert_eq!(rt; found, (call == 5, bytes), "write {call} fails");
    }
    Ok(())
}

#[test]
fn a_rest_that_could_not_be_written_is_written_later(rt: HostRuntime) -> Result<(), Fail> {
    let alloc = rt.alloc();
    let output = MemOutput::new(alloc, 20, 3, vec![in alloc; 2]?)?;
    let mut sink = Buffered::over(output);
    for (piece, bytes) in [("abcdefgh", "abc"), ("ij", "abcdefghij")] {
        sink.put(piece.as_bytes());
        sink.flush_out();
        assert_eq!(rt; sink.output().bytes(), bytes.as_bytes());
    }
    Ok(())
}

// A text with its name.
const FIVE: [(&str, &[u8]); 1] = [("five", b"abcde")];

// Whether the text of these files is fetched up to a limit, or is not, and what comes of it.
fn is_fetched(alloc: Global, files: MemFiles, limit: usize, want: (Fetch, &str)) -> bool {
    let mut shelf = FileShelf::over(files, alloc);
    let mut into = Vec::new(alloc);
    let fetch = shelf.fetch("five", limit, &mut into);
    fetch == want.0 && into.as_slice() == want.1.as_bytes()
}

// Whether a fetch is so if the raw call of this number fails and a read gives at most two bytes.
fn is_fetched_failing(alloc: Global, call: u64, want: (Fetch, &str)) -> Result<bool, Fail> {
    let files = MemFiles::new(
        alloc,
        texts_of(alloc, FIVE.as_slice())?,
        2,
        vec![in alloc; call]?,
    );
    Ok(is_fetched(alloc, files, 9, want))
}

#[test]
fn a_raw_call_that_fails_is_a_fetch_that_fails(rt: HostRuntime) -> Result<(), Fail> {
    // an open and reads of two, two, one and no bytes
    for call in 1..6 {
        let is_failed = is_fetched_failing(rt.alloc(), call, (Fetch::Failed, ""))?;
        assert!(rt; is_failed, "call {call} fails");
    }
    assert!(rt; is_fetched_failing(rt.alloc(), 6, (Fetch::Done, "abcde"))?);
    Ok(())
}

#[test]
fn a_text_in_memory_comes_up_to_the_limit(rt: HostRuntime) -> Result<(), Fail> {
    let alloc = rt.alloc();
    let mut shelf = PlainShelf::new(texts_of(alloc, FIVE.as_slice())?);
    let mut into = Vec::new(alloc);
    assert_eq!(rt; shelf.fetch("five", 3, &mut into), Fetch::Done);
    assert_eq!(rt; into.as_slice(), b"abcd".as_slice());
    Ok(())
}

#[test]
fn a_name_of_no_file_of_the_folder_cannot_be_fetched(rt: HostRuntime) -> Result<(), Fail> {
    let alloc = rt.alloc();
    let mut shelf = FolderShelf::new(&rt, alloc);
    let mut into = Vec::new(alloc);
    let fetch = shelf.fetch("no such name", 9, &mut into);
    assert_eq!(rt; fetch, Fetch::Failed);
    Ok(())
}
