//! The number of threads that load a survey.
ghost use Rattle.top_call.specs.Words.{IsManned};

use crate::task::Task;
use session_rules::limits::WORKERS_MOST;
use std::thread::{Threads, available_parallelism};

/// The greatest number of threads that load: the most workers that a command can ask for, and the main thread.
const MOST: u32 = WORKERS_MOST + 1;

/// The number of threads if the number of processors is not known.
const UNKNOWN: u32 = 4;

/// Returns the number of threads that load for a command without workers: one for each processor, if the system reports
/// how many it has.
pub fn processors<R: Threads>(rt: &R) -> u32 {
    match available_parallelism(rt) {
        Ok(count) => count.get().min(MOST as usize) as u32,
        Err(_) => UNKNOWN,
    }
}

/// Returns the number of threads that load for a task: its workers and this thread, or one for each processor if the
/// task is to explain.
pub fn threads_of<R: Threads>(rt: &R, task: Task) -> u32
    requires { IsManned task }
{
    match task {
        Task::Answer { workers } => workers + 1,
        Task::ByClass { workers } => workers + 1,
        Task::Trace { workers } => workers + 1,
        Task::Explain => processors(rt),
    }
}
