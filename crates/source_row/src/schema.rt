//! The columns of a source table: sourceId and objectId, then the extra ones by name.
ghost use Rattle.std.specs.Prelude.{◌≡◌, ◌+◌, ◌<◌, ◌≤◌, length, [], ◌∷◌, ◌++◌, true, false, Some, IfErr, OnErr, OnOk};
ghost use Rattle.std.specs.Prelude.{nat_lt, not, slice_get};
ghost use Rattle.std.specs.List.{list_any, position_from};
ghost use Rattle.std.specs.Str.{bytes_eq};
ghost use Rattle.sky_io.specs.Stops.{IfBad};
ghost use Rattle.table_rules.specs.Forms.{may_follow};
ghost use Rattle.table_rules.specs.declared.limits.TheConstants.{FURTHER_COLUMNS_MOST};
ghost use Rattle.source_rules.specs.SourceNames.{first_source_names, source_column_names, source_column_of};
ghost use Rattle.source_rules.specs.SourceRecords.{source_form};
ghost use Rattle.source_rules.specs.Sources.{source_bound};
ghost use Rattle.source_rules.specs.declared.limits.TheConstants.{SOURCE_COLUMNS_MOST, SOURCE_FIRST_COLUMNS};

use sky_io::Stop;
use sky_row::{BadName, further_column, further_name, is_name};
use source_rules::limits::SOURCE_FIRST_COLUMNS;
use std::alloc::Global;
use std::marker::Model;
use table_rules::limits::{FURTHER_COLUMNS_MOST, FURTHER_MOST, ID_MOST};

/// Returns the number of the column that every source table has under this name, or `None`.
fn first_column(name: &[u8]) -> Option<u32>
    ensures { result ≡ position_from (bytes_eq name.now) 0 first_source_names }
{
    if name == b"sourceId".as_slice() {
        Some(0)
    } else if name == b"objectId".as_slice() {
        Some(1)
    } else {
        None
    }
}

/// The columns of a source table, of which at most 12 are extra ones.
#[derive(Drop)]
pub struct SourceSchema {
    names: Vec<Vec<u8>>,
}

impl Model for SourceSchema {
    ghost use Rattle.std.specs.Prelude.{ℕ, List, length, map, ◌≤◌};
    ghost use Rattle.table_rules.specs.declared.limits.TheConstants.{FURTHER_COLUMNS_MOST};

    ghost Value = { List (List ℕ) };

    ghost view = { λ s. map (λ name. name.items) s.names.items };

    ghost invariant = { λ s. length s.names.items ≤ FURTHER_COLUMNS_MOST };
}

impl SourceSchema {
    /// Creates the columns sourceId and objectId alone. Does not allocate.
    pub fn new(alloc: Global) -> SourceSchema
        ensures { result ≡ [] }
    {
        SourceSchema {
            names: Vec::new(alloc),
        }
    }

    /// Appends an extra column. Allocates memory for its name. After an error the columns are unchanged.
    pub fn push(&mut self, name: &[u8]) -> Result<(), Stop<BadName>>
        ensures ok { OnOk result (self.new ≡ self.old ++ name.now ∷ []) }
        ensures fits { OnOk result (
            may_follow source_form (source_column_names self.old) name.now ≡ true) }
        ensures bad { IfErr result (λ stop. IfBad stop (λ _.
            may_follow source_form (source_column_names self.old) name.now ≡ false)) }
        ensures err { OnErr result (self.new ≡ self.old) }
    {
        if !self.can_follow(name) {
            return Err(Stop::Bad(BadName));
        }
        let copy = Vec::from_slice(*self.names.allocator(), name)?;
        self.names.push(copy)?;
        Ok(())
    }

    /// Returns whether one more column can have the name.
    fn can_follow(&self, name: &[u8]) -> bool
        ensures { result ≡ may_follow source_form (source_column_names self.now) name.now }
    {
        self.has_room() && is_name(name) && self.is_free(name)
    }

    /// Returns whether there are fewer than 12 extra columns.
    fn has_room(&self) -> bool
        ensures { result ≡ nat_lt (length (source_column_names self.now)) SOURCE_COLUMNS_MOST }
    {
        self.names.len() < FURTHER_COLUMNS_MOST
    }

    /// Returns whether no column has the name.
    #[tactic(auto, using(crate::proofs::Names::free_by_place))]
    fn is_free(&self, name: &[u8]) -> bool
        ensures { result ≡ not (list_any (bytes_eq name.now) (source_column_names self.now)) }
    {
        self.column(name).is_none()
    }

    /// Returns the number of the column with the name, from 0, or `None` if no column has it. Does not allocate.
    #[tactic(auto, using(sky_row::proofs::Names::first_place, crate::proofs::Names::column_behind))]
    pub fn column(&self, name: &[u8]) -> Option<u32>
        ensures { result ≡ source_column_of self.now name.now }
    {
        match first_column(name) {
            Some(col) => Some(col),
            None => further_column(self.names.as_slice(), name, SOURCE_FIRST_COLUMNS as u32),
        }
    }

    /// Returns the number of columns, at most `SOURCE_COLUMNS_MOST`. Does not allocate.
    pub fn width(&self) -> u32
        ensures count { result ≡ SOURCE_FIRST_COLUMNS + length self.now }
        ensures few { length self.now ≤ FURTHER_COLUMNS_MOST }
    {
        SOURCE_FIRST_COLUMNS as u32 + self.names.len() as u32
    }

    /// Returns the name of the column, which is counted from 0. Does not allocate.
    #[tactic(auto, using(sky_row::proofs::Names::further_name))]
    pub fn name(&self, col: u32) -> &[u8]
        requires { col < SOURCE_FIRST_COLUMNS + length self.now }
        ensures { slice_get (source_column_names self.now) col ≡ Some result.now }
    {
        match col {
            0 => b"sourceId",
            1 => b"objectId",
            _ => further_name(self.names.as_slice(), col as usize - SOURCE_FIRST_COLUMNS),
        }
    }

    /// Returns the largest size of a value in the column, which is counted from 0. Does not allocate.
    pub fn bound(&self, col: u32) -> i128
        ensures { result ≡ source_bound col }
    {
        match col {
            0..=1 => ID_MOST as i128,
            _ => FURTHER_MOST as i128,
        }
    }
}
