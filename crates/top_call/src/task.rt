//! What a command does with the queries of a script. It is no task of the shared scan, which is a chunk to be scanned.

/// What a command does with the queries of a script. `words` finds it in the arguments, and `work` executes it.
#[derive(Clone, Copy, Debug, PartialEq, Eq)]
pub enum Task {
    /// To answer them, with the given number of workers beside the czar.
    Answer { workers: u32 },
    /// To answer them with that number of workers, over two boards. Each take asks that of the short queries first.
    ByClass { workers: u32 },
    /// To answer them over one board, and to write its journal in place of the answers.
    Trace { workers: u32 },
    /// To explain their plans.
    Explain,
}
