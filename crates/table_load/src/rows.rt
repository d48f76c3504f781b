//! The rows of a table, record by record.
ghost use Rattle.std.specs.Prelude.{◌≡◌, ◌+◌, ◌≤◌, ◌<◌, [], ◌∷◌, ◌++◌, length, None, Some, IfErr, OnOk};
ghost use Rattle.sky_io.specs.Stops.{IfBad};
ghost use Rattle.text_rules.specs.declared.limits.TheConstants.{TEXT_MOST};
ghost use Rattle.table_rules.specs.Records.{faults_by_itself};
ghost use Rattle.table_rules.specs.declared.limits.TheConstants.{ROWS_MOST};
ghost use Rattle.record_text.specs.Faults.{first_of};
ghost use Rattle.record_text.specs.Judged.{HasRead, faults_alone};
ghost use Rattle.record_text.specs.Standing.{HasLeft};

use crate::gathering::Gathering;
use record_text::{Record, RecordReader, read_next};
use sky_io::Stop;
use table_rules::LoadFault;
use table_rules::limits::ROWS_MOST;

/// Appends the row of a record with this number, if the record has no fault by itself.
fn add_row<G: Gathering>(
    gathered: &mut G,
    row: u32,
    fields: &Record<'_>,
) -> Result<(), Stop<LoadFault>>
    requires whole { G.is_whole gathered.old }
    requires room { length (G.rows gathered.old) < ROWS_MOST }
    requires small { length fields.now ≤ TEXT_MOST + 1 }
    ensures names { G.names gathered.new ≡ G.names gathered.old }
    ensures none { OnOk result (faults_by_itself G.form
        (length G.form.first + length (G.names gathered.old)) row fields.now ≡ []) }
    ensures ok { OnOk result (
        G.rows gathered.new ≡ G.rows gathered.old ++ G.form.row fields.now ∷ []) }
    ensures whole { OnOk result (G.is_whole gathered.new) }
    ensures same { IfErr result (λ stop.
        IfBad stop (λ _. G.rows gathered.new ≡ G.rows gathered.old)) }
    ensures still { IfErr result (λ stop. IfBad stop (λ _. G.is_whole gathered.new)) }
    ensures bad { IfErr result (λ stop. IfBad stop (λ fault. first_of (faults_by_itself G.form
        (length G.form.first + length (G.names gathered.old)) row fields.now) ≡ Some fault)) }
{
    let count = fields.len();
    if count != G::width(gathered.schema()) as usize {
        return Err(Stop::Bad(LoadFault::FieldCount {
            row,
            count: count as u32,
        }));
    }
    gathered.push(row, fields)
}

/// Appends the row of the next record, if the record has no fault other than a repeated id. After a fault nothing has
/// changed.
#[tactic(auto, using(record_text::proofs::RowFaults::row_full))]
fn add<G: Gathering>(gathered: &mut G, fields: &Record<'_>) -> Result<(), Stop<LoadFault>>
    requires whole { G.is_whole gathered.old }
    requires small { length fields.now ≤ TEXT_MOST + 1 }
    ensures names { G.names gathered.new ≡ G.names gathered.old }
    ensures none { OnOk result (faults_alone G.form
        (length G.form.first + length (G.names gathered.old)) (length (G.rows gathered.old))
        fields.now ≡ []) }
    ensures ok { OnOk result (
        G.rows gathered.new ≡ G.rows gathered.old ++ G.form.row fields.now ∷ []) }
    ensures whole { OnOk result (G.is_whole gathered.new) }
    ensures same { IfErr result (λ stop.
        IfBad stop (λ _. G.rows gathered.new ≡ G.rows gathered.old)) }
    ensures still { IfErr result (λ stop. IfBad stop (λ _. G.is_whole gathered.new)) }
    ensures bad { IfErr result (λ stop. IfBad stop (λ fault. first_of (faults_alone G.form
        (length G.form.first + length (G.names gathered.old)) (length (G.rows gathered.old))
        fields.now) ≡ Some fault)) }
{
    let count = gathered.count();
    if count >= ROWS_MOST {
        return Err(Stop::Bad(LoadFault::TooManyRows));
    }
    add_row(gathered, count as u32 + 1, fields)
}

/// Reads the records that the reader has left, up to the first with a fault other than a repeated id. Appends the rows of
/// those before it. There are no rows at first.
pub(crate) fn read_rest<'a, G: Gathering>(
    mut reader: RecordReader<'a>,
    mut fields: Record<'a>,
    gathered: &mut G,
) -> Result<(), Stop<LoadFault>>
    requires none { G.rows gathered.old ≡ [] }
    requires whole { G.is_whole gathered.old }
    requires gives { HasLeft reader }
    ensures names { G.names gathered.new ≡ G.names gathered.old }
    ensures whole { OnOk result (G.is_whole gathered.new) }
    ensures still { IfErr result (λ stop. IfBad stop (λ _. G.is_whole gathered.new)) }
    ensures ok { OnOk result (HasRead G.form
        (length G.form.first + length (G.names gathered.old)) reader.entry (G.rows gathered.new) None) }
    ensures bad { IfErr result (λ stop. IfBad stop (λ fault. HasRead G.form
        (length G.form.first + length (G.names gathered.old)) reader.entry (G.rows gathered.new)
        (Some fault))) }
{
    for turn in 0..u64::MAX {
        let Ok(found) = read_next(&mut reader, &mut fields) else {
            return Err(Stop::Memory);
        };
        if !found {
            return Ok(());
        }
        if let Err(stop) = add(gathered, &fields) {
            return Err(stop);
        }
    }
    Err(Stop::Memory)
}
