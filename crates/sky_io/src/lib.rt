//! The program's environment as traits: a shelf of named texts, a sink of bytes, a gate, and a value with a history.
//!
//! Callers see a shelf as a `ShelfState` (`specs/Shelves.antt`) and a sink as a `SinkState` (`specs/Sinks.antt`): its
//! content, if that is observable, and what has failed. The content is observable in memory, and not in files and
//! streams.
//!
//! Files and streams are reached by the raw calls of `raw`, each of which is one call of the system. The buffer and the
//! loops above them, `Buffered` and `FileShelf`, are proved over any such calls.
//!
//! Below: std, and `arrayvec` for the records of a gate. There are no formats, no SQL and no sky here: a text is bytes,
//! and a gate does not inspect the work that passes it.
#![tactic(auto)]

ghost use Rattle.std.specs.Prelude.{◌≡◌};
ghost use Rattle.sky_io.specs.declared.Stop.TheVariants.{Memory as no_memory};

pub mod buffered;
mod calls;
pub mod file_shelf;
pub mod folder_shelf;
pub mod gate;
pub mod lineage;
pub mod list_gate;
pub mod mem_files;
pub mod mem_output;
pub mod mem_shelf;
pub mod mem_sink;
pub mod note_gate;
pub mod pass_order;
pub mod plain_shelf;
pub mod print_stream;
pub mod raw;
pub mod shelf;
pub mod sink;
pub mod step_gate;

pub use buffered::Buffered;
pub use file_shelf::FileShelf;
pub use folder_shelf::{Folder, FolderShelf};
pub use gate::{Gate, OpenGate};
pub use lineage::Lineage;
pub use list_gate::ListGate;
pub use mem_files::{MemFile, MemFiles};
pub use mem_output::MemOutput;
pub use mem_shelf::MemShelf;
pub use mem_sink::MemSink;
pub use note_gate::NoteGate;
pub use pass_order::PassOrder;
pub use plain_shelf::PlainShelf;
pub use print_stream::{ErrSink, OutSink, PrintStream};
pub use raw::{RawFault, RawRead, RawWrite};
pub use shelf::{Fetch, Shelf};
pub use sink::{Put, Sink};
use std::alloc::{AllocError, AllocFailed};
pub use step_gate::StepGate;

/// An allocation failure. It is not a refusal: the same call may succeed later.
#[derive(Clone, Copy, Debug, PartialEq, Eq)]
pub struct Memory;

/// Why a call stopped: an allocation failure, or a fault of its own.
#[derive(Clone, Copy, Debug, PartialEq, Eq)]
pub enum Stop<F> {
    /// Out of memory.
    Memory,
    /// The call's own fault.
    Bad(F),
}

impl From<AllocError> for Memory {
    fn from(_: AllocError) -> Memory {
        Memory
    }
}

impl<T: Drop> From<AllocFailed<T>> for Memory {
    fn from(_: AllocFailed<T>) -> Memory {
        Memory
    }
}

impl<F> From<AllocError> for Stop<F> {
    ghost from_gives = { λ _ stop. stop ≡ no_memory };

    fn from(_: AllocError) -> Stop<F> {
        Stop::Memory
    }
}

impl<T: Drop, F> From<AllocFailed<T>> for Stop<F> {
    ghost from_gives = { λ _ stop. stop ≡ no_memory };

    fn from(_: AllocFailed<T>) -> Stop<F> {
        Stop::Memory
    }
}

impl<F> From<Memory> for Stop<F> {
    ghost from_gives = { λ _ stop. stop ≡ no_memory };

    fn from(_: Memory) -> Stop<F> {
        Stop::Memory
    }
}
