//! The two classes of queries, and the result of a take from the boards of both.
ghost use Rattle.std.specs.Prelude.{◌≡◌};
ghost use Rattle.scan_classes.specs.Pairs.{class_of};
ghost use Rattle.scan_classes.specs.ClassTakes.{after_ended, after_idle};

use scan_board::{ChunkSet, Take, Task};

/// The most chunks that a short query wants. The number is the project's own division: no format fixes it. `class_of`
/// has it as a literal, so `Class::of` is refused with another number here.
pub const SHORT_MOST: usize = 16;

/// The class of a query, and of the board that runs the queries of this class.
#[derive(Clone, Copy, Debug, PartialEq, Eq)]
pub enum Class {
    /// Queries of at most 16 chunks (`SHORT_MOST`).
    Short,
    /// Queries of more chunks.
    Long,
}

/// The result of a take from the boards of both classes.
#[derive(Drop)]
pub enum ClassTake {
    /// The next chunk of the short board, for all queries there that need it.
    Short(Task),
    /// The next chunk of the long board, for all queries there that need it. The short board had none.
    Long(Task),
    /// No query needed a chunk, and more may be attached to one of the boards.
    Idle,
    /// No query needed a chunk, and both boards were closed.
    Ended,
}

impl Class {
    /// The class of a query that wants these chunks. Does not allocate.
    pub fn of(chunks: &ChunkSet) -> Class
        ensures { result ≡ class_of chunks.now }
    {
        if chunks.as_slice().len() > SHORT_MOST {
            Class::Long
        } else {
            Class::Short
        }
    }
}

impl ClassTake {
    /// The result of both boards, if the short one was Idle and the long one returned this. Does not allocate.
    pub(crate) fn after_idle(long: Take) -> ClassTake
        ensures { result ≡ after_idle long }
    {
        match long {
            Take::Task(task) => ClassTake::Long(task),
            Take::Idle => ClassTake::Idle,
            Take::Ended => ClassTake::Idle,
        }
    }

    /// The result of both boards, if the short one was Ended and the long one returned this. Does not allocate.
    pub(crate) fn after_ended(long: Take) -> ClassTake
        ensures { result ≡ after_ended long }
    {
        match long {
            Take::Task(task) => ClassTake::Long(task),
            Take::Idle => ClassTake::Idle,
            Take::Ended => ClassTake::Ended,
        }
    }
}
