//! The source table of a text.
ghost use Rattle.std.specs.Prelude.{◌≡◌, ◌≤◌, length, IfErr, IfOk, Ok, Err};
ghost use Rattle.sky_io.specs.Stops.{IfBad};
ghost use Rattle.source_load.specs.SourceText.{sources_of_text};
ghost use Rattle.text_rules.specs.declared.limits.TheConstants.{TEXT_MOST};

use crate::gathered::Gathered;
use sky_io::Stop;
use source_row::Sources;
use std::alloc::Global;
use std::thread::Threads;
use table_load::{RowSorter, load_table};
use table_rules::LoadFault;

/// Puts sources into the order of their ids.
struct SourceSorter;

impl RowSorter<Gathered> for SourceSorter {
    /// Returns the sources in ascending id, or the first fault of an id that an earlier source has.
    #[tactic(auto, using(source_row::proofs::Sourced::ids_are))]
    fn in_order(&self, alloc: Global, gathered: Gathered) -> Result<Sources, Stop<LoadFault>> {
        gathered.into_sources(alloc)
    }
}

/// Reads a source table from a text of at most 2^29 bytes by the given number of threads, this one among them: its sources in
/// ascending id, or its first fault. A thread that can't be started costs time alone. Allocates memory for the sources and for
/// those of the parts, for sorting if the ids do not ascend, and for the ids with their row numbers to find a fault of such
/// sources. After an error nothing is kept.
pub fn load_sources<R: Threads + Sync>(
    rt: &R,
    alloc: Global,
    threads: u32,
    text: &[u8],
) -> Result<Sources, Stop<LoadFault>>
    requires { length text.now ≤ TEXT_MOST }
    ensures ok { IfOk result (λ all. sources_of_text text.now ≡ Ok all) }
    ensures bad { IfErr result (λ stop.
        IfBad stop (λ fault. sources_of_text text.now ≡ Err fault)) }
{
    load_table::<R, Gathered, SourceSorter>(rt, threads, &SourceSorter, alloc, text)
}
