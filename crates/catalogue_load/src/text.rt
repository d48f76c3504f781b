//! The catalogue of a text.
ghost use Rattle.std.specs.Prelude.{◌≡◌, ◌≤◌, length, IfErr, IfOk, Ok, Err};
ghost use Rattle.std.specs.Thread.{IsSync};
ghost use Rattle.sky_io.specs.Stops.{IfBad};
ghost use Rattle.catalogue_load.specs.Catalogue.{catalogue_of};
ghost use Rattle.text_rules.specs.declared.limits.TheConstants.{TEXT_MOST};

use crate::gathered::Gathered;
use sky_io::Stop;
use sky_row::Rows;
use std::alloc::Global;
use std::thread::Threads;
use table_load::{RowSorter, load_table};
use table_rules::LoadFault;

/// Puts the rows of a catalogue into the order of their ids, by the given number of threads.
#[derive(Drop)]
struct ObjectSorter<'a, R> {
    rt: &'a R,
    threads: u32,
}

impl<'a, R: Threads + Sync> RowSorter<Gathered> for ObjectSorter<'a, R> {
    ghost can_sort = { IsSync R.row };

    /// Returns the rows in ascending id, or the first fault of an id that an earlier row has.
    #[tactic(auto, using(crate::proofs::InOrder::table_in_order))]
    fn in_order(&self, alloc: Global, gathered: Gathered) -> Result<Rows, Stop<LoadFault>> {
        gathered.into_rows(self.rt, alloc, self.threads)
    }
}

/// Reads a catalogue from a text of at most 2^29 bytes by the given number of threads, this one among them: its rows in
/// ascending id, or its first fault. A thread that can't be started costs time alone. Allocates for the rows and for those of
/// the parts, for their ids if they don't ascend, and for the ids with their row numbers to find a fault of such rows; after
/// an error nothing is kept.
pub fn load<R: Threads + Sync>(
    rt: &R,
    alloc: Global,
    threads: u32,
    text: &[u8],
) -> Result<Rows, Stop<LoadFault>>
    requires { length text.now ≤ TEXT_MOST }
    ensures ok { IfOk result (λ rows. catalogue_of text.now ≡ Ok rows) }
    ensures bad { IfErr result (λ stop. IfBad stop (λ fault. catalogue_of text.now ≡ Err fault)) }
{
    let sorter = ObjectSorter { rt, threads };
    load_table::<R, Gathered, ObjectSorter<'_, R>>(rt, threads, &sorter, alloc, text)
}
