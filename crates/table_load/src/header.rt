//! The columns of a table, from its header.
ghost use Rattle.std.specs.Prelude.{◌≡◌, ◌+◌, ◌≤◌, ◌<◌, [], ◌++◌, drop, length, slice_get, take, Some, IfErr, IfOk, OnOk};
ghost use Rattle.sky_io.specs.Stops.{IfBad};
ghost use Rattle.table_rules.specs.Records.{faults_of_header, field_in};
ghost use Rattle.table_rules.specs.declared.limits.TheConstants.{COLUMNS_MOST};
ghost use Rattle.record_text.specs.Faults.{first_of, header_fault, header_faults_from};

use crate::gathering::Gathering;
use record_text::{Record, field_in};
use sky_io::Stop;
use std::alloc::Global;
use table_rules::LoadFault;

/// Checks that the field of one of the columns of every table is its name.
#[tactic(auto, using(crate::proofs::Names::name_kept, crate::proofs::Names::name_refused, crate::proofs::Names::name_same, crate::proofs::Names::name_there))]
fn check_name<G: Gathering>(
    schema: &G::Schema,
    header: &Record<'_>,
    col: u32,
) -> Result<(), LoadFault>
    requires none { G.names_in schema.now ≡ [] }
    requires low { col < length G.form.first }
    requires few { col < COLUMNS_MOST }
    ensures none { OnOk result (header_fault G.form header.now col ≡ []) }
    ensures same { OnOk result (field_in header.now col ≡ field_in G.form.first col) }
    ensures there { OnOk result (col < length header.now) }
    ensures bad { IfErr result (λ fault.
        first_of (header_fault G.form header.now col) ≡ Some fault) }
{
    if field_in(header, col as usize) == G::name(schema, col) {
        Ok(())
    } else {
        Err(LoadFault::Header { field: col + 1 })
    }
}

/// Checks the fields of the columns of every table, in their order.
#[tactic(auto, using(crate::proofs::Names::left_further))]
fn check_names<G: Gathering>(schema: &G::Schema, header: &Record<'_>) -> Result<(), LoadFault>
    requires none { G.names_in schema.now ≡ [] }
    ensures long { OnOk result (length G.form.first ≤ length header.now) }
    ensures names { OnOk result (G.form.first ≡ take (length G.form.first) header.now) }
    ensures rest { OnOk result (
        header_faults_from G.form (length G.form.first) header.now
        ≡ faults_of_header G.form header.now) }
    ensures bad { IfErr result (λ fault.
        first_of (faults_of_header G.form header.now) ≡ Some fault) }
{
    for col in 0..G::width(schema) {
        if let Err(fault) = check_name::<G>(schema, header, col) {
            return Err(fault);
        }
    }
    Ok(())
}

/// Appends the column of a field.
#[tactic(auto, using(record_text::proofs::HeaderFaults::column_kept, record_text::proofs::HeaderFaults::column_refused, record_text::proofs::HeaderFaults::column_put, crate::proofs::Names::columns_so_far))]
fn add_column<G: Gathering>(
    schema: &mut G::Schema,
    header: &Record<'_>,
    col: usize,
) -> Result<(), Stop<LoadFault>>
    requires low { length G.form.first ≤ col }
    requires there { col < length header.now }
    requires names { G.form.first ++ G.names_in schema.old ≡ take col header.now }
    ensures names { OnOk result (
        G.form.first ++ G.names_in schema.new ≡ take (col + 1) header.now) }
    ensures rest { OnOk result (header_faults_from G.form (col + 1) header.now
        ≡ header_faults_from G.form col header.now) }
    ensures bad { IfErr result (λ stop. IfBad stop (λ fault.
        first_of (header_faults_from G.form col header.now) ≡ Some fault)) }
{
    let field = G::width(schema) + 1;
    match G::push_column(schema, field_in(header, col)) {
        Ok(()) => Ok(()),
        Err(Stop::Memory) => Err(Stop::Memory),
        Err(Stop::Bad(_)) => Err(Stop::Bad(LoadFault::Header { field })),
    }
}

/// Appends the extra columns of a header whose first fields are right.
#[tactic(auto, using(crate::proofs::Names::none_left, crate::proofs::Names::all_names))]
fn read_further<G: Gathering>(
    mut schema: G::Schema,
    header: &Record<'_>,
) -> Result<G::Schema, Stop<LoadFault>>
    requires none { G.names_in schema ≡ [] }
    requires long { length G.form.first ≤ length header.now }
    requires names { G.form.first ≡ take (length G.form.first) header.now }
    ensures none { OnOk result (
        header_faults_from G.form (length G.form.first) header.now ≡ []) }
    ensures ok { IfOk result (λ all.
        G.names_in all ≡ drop (length G.form.first) header.now) }
    ensures bad { IfErr result (λ stop. IfBad stop (λ fault. first_of
        (header_faults_from G.form (length G.form.first) header.now) ≡ Some fault)) }
{
    for col in G::width(&schema) as usize..header.len() {
        add_column::<G>(&mut schema, header, col)?;
    }
    Ok(schema)
}

/// Returns the columns of a header, or its first fault. Allocates memory for the names of the extra columns.
pub(crate) fn read_header<G: Gathering>(
    alloc: Global,
    header: &Record<'_>,
) -> Result<G::Schema, Stop<LoadFault>>
    ensures none { OnOk result (faults_of_header G.form header.now ≡ []) }
    ensures ok { IfOk result (λ schema.
        G.names_in schema ≡ drop (length G.form.first) header.now) }
    ensures long { OnOk result (length G.form.first ≤ length header.now) }
    ensures bad { IfErr result (λ stop. IfBad stop (λ fault.
        first_of (faults_of_header G.form header.now) ≡ Some fault)) }
{
    let schema = G::first_columns(alloc);
    match check_names::<G>(&schema, header) {
        Ok(()) => read_further::<G>(schema, header),
        Err(fault) => Err(Stop::Bad(fault)),
    }
}
