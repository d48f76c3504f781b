//! The chunk and the subchunk of a position, and the chunks that it is near.
use crate::told::put_number;
use overlap_tables::near_chunks;
use sky_io::{Put, Sink};
use sky_plan::SkyPlan;
use sky_text::read_int;
use sky_vector::{Pos, length_ok};
use std::alloc::Global;

// Returns the number that a word is, if it is one of 64 bits.
fn number_of(word: &[u8]) -> Option<i64> {
    i64::try_from(read_int(word)?).ok()
}

// Returns the position on a line: three numbers, separated by one blank each.
fn position_on(line: &[u8]) -> Option<Pos> {
    let mut words = line.split(|b| *b == b' ');
    let x = number_of(words.next()?)?;
    let y = number_of(words.next()?)?;
    let z = number_of(words.next()?)?;
    if words.next().is_some() {
        return None;
    }
    Pos::new(x, y, z)
}

// Writes the chunks that the position is near.
fn put_near<K: Sink>(sink: &mut K, near: &[u32]) -> Put {
    if sink.put(b" near") == Put::Failed {
        return Put::Failed;
    }
    for chunk in near {
        if put_number(sink, b" ", i128::from(*chunk)) == Put::Failed {
            return Put::Failed;
        }
    }
    Put::Done
}

/// Writes the chunk and the subchunk of the position on a line, and the other chunks that it is near.
pub(crate) fn put_place<K: Sink>(sink: &mut K, alloc: Global, plan: &SkyPlan, line: &[u8]) -> Put {
    let Some(p) = position_on(line) else {
        return sink.put(b"no position");
    };
    if !length_ok(&p) {
        return sink.put(b"no position of the sky");
    }
    let Ok(near) = near_chunks(alloc, plan, &p) else {
        return sink.put(b"out of memory");
    };
    if put_number(sink, b"chunk ", i128::from(plan.chunk_of(&p))) == Put::Failed {
        return Put::Failed;
    }
    if put_number(sink, b" sub ", i128::from(plan.sub_of(&p))) == Put::Failed {
        return Put::Failed;
    }
    put_near(sink, near.as_slice())
}
