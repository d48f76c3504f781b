//! The table of a text that one thread reads: its header, then its rows record by record, then the rows in order.
ghost use Rattle.std.specs.Prelude.{◌≡◌, ◌+◌, ◌≤◌, ℕ, List, [], length, map, IfErr, IfOk, OnOk, Ok, Err, None, Some};
ghost use Rattle.csv.specs.Reading.{default_config, records, strip_bom};
ghost use Rattle.sky_io.specs.Stops.{IfBad};
ghost use Rattle.text_rules.specs.Readings.{judged};
ghost use Rattle.text_rules.specs.declared.limits.TheConstants.{TEXT_MOST};
ghost use Rattle.table_rules.specs.IdOrder.{IsInOrder};
ghost use Rattle.table_rules.specs.Records.{faults_of_rows, table_of, table_under};
ghost use Rattle.table_rules.specs.Repeats.{IsRepeat};
ghost use Rattle.record_text.specs.Standing.{HasLeft, StillGives};

use crate::gathering::Gathering;
use crate::header::read_header;
use crate::rows::read_rest;
use record_text::{Record, RecordReader, read_next, reader_of};
use sky_io::Stop;
use std::alloc::Global;
use table_rules::LoadFault;

/// Puts the rows that are read into the order of their ids.
pub trait RowSorter<G: Gathering> {
    /// What the calls need of the type of threads that sort. Nothing, if the sorter does not say otherwise.
    ghost can_sort: { Type 0 } = { Unit {0} };

    /// Returns the rows in ascending id, or the first fault of an id that an earlier row has.
    fn in_order(&self, alloc: Global, gathered: G) -> Result<G::Table, Stop<LoadFault>>
        requires can { can_sort }
        requires whole { G.is_whole gathered }
        ensures names { IfOk result (λ all. G.names_of all ≡ G.names gathered) }
        ensures table { IfOk result (λ all.
            IsInOrder G.form.id (G.rows gathered) (G.rows_of all)) }
        ensures bad { IfErr result (λ stop. IfBad stop (λ fault.
            IsRepeat (map G.form.id (G.rows gathered)) fault)) };
}

/// Returns the table with these columns, whose rows are the records that the reader has left.
fn rows_under<'a, G: Gathering, S: RowSorter<G>>(
    sorter: &S,
    alloc: Global,
    schema: G::Schema,
    reader: RecordReader<'a>,
    fields: Record<'a>,
) -> Result<G::Table, Stop<LoadFault>>
    requires can { S.can_sort }
    requires gives { HasLeft reader }
    ensures ok { IfOk result (λ all. (rest : List (List (List ℕ))) → StillGives reader.entry rest
        → judged (faults_of_rows G.form (length G.form.first + length (G.names_in schema)) rest)
        (table_under G.form G.made (G.names_in schema) rest) ≡ Ok all) }
    ensures bad { IfErr result (λ stop. IfBad stop (λ fault.
        (rest : List (List (List ℕ))) → StillGives reader.entry rest
        → judged (faults_of_rows G.form (length G.form.first + length (G.names_in schema)) rest)
        (table_under G.form G.made (G.names_in schema) rest) ≡ Err fault)) }
{
    let Ok(mut gathered) = G::without_rows(alloc, schema) else {
        return Err(Stop::Memory);
    };
    match read_rest(reader, fields, &mut gathered) {
        Ok(()) => sorter.in_order(alloc, gathered),
        Err(Stop::Bad(fault)) => Err(gathered.first_fault(alloc, fault)),
        Err(Stop::Memory) => Err(Stop::Memory),
    }
}

/// Reads the table of a text by this thread alone. Allocates as `load_table` does.
pub(crate) fn load_alone<G: Gathering, S: RowSorter<G>>(
    sorter: &S,
    alloc: Global,
    text: &[u8],
) -> Result<G::Table, Stop<LoadFault>>
    requires can { S.can_sort }
    requires small { length text.now ≤ TEXT_MOST }
    ensures ok { IfOk result (λ all.
        table_of G.form G.made (records default_config (strip_bom text.now)) ≡ Ok all) }
    ensures bad { IfErr result (λ stop. IfBad stop (λ fault.
        table_of G.form G.made (records default_config (strip_bom text.now)) ≡ Err fault)) }
{
    let mut reader = reader_of(alloc, text);
    let mut fields = Record::new(alloc);
    let Ok(found) = read_next(&mut reader, &mut fields) else {
        return Err(Stop::Memory);
    };
    if !found {
        return Err(Stop::Bad(LoadFault::Header { field: 1 }));
    }
    match read_header::<G>(alloc, &fields) {
        Ok(schema) => rows_under::<G, S>(sorter, alloc, schema, reader, fields),
        Err(stop) => Err(stop),
    }
}
