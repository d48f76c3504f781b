//! The selected rows of a block.
ghost use Rattle.std.specs.Prelude.{◌≡◌, ◌+◌, ◌<◌, ◌≤◌, [], false, length, get_or, All, IfOk, vec_capacity};
ghost use Rattle.table_rules.specs.declared.limits.TheConstants.{FIRST_COLUMNS};
ghost use Rattle.sky_row.specs.Columns.{no_row, objects_at};
ghost use Rattle.value_rules.specs.Areas.{area_holds};
ghost use Rattle.value_rules.specs.Terms.{Column};
ghost use Rattle.column_vectors.specs.Lanes.{IsLane};
ghost use Rattle.column_vectors.specs.Masks.{IsMask};

use crate::area::lying;
use column_block::Block;
use column_vectors::Scratch;
use column_vectors::lane::Lane;
use column_vectors::leaf::read;
use sky_io::Memory;
use sql_bound::AreaTest;
use std::marker::Model;

/// A block and a selection vector, in whose order its rows are read.
#[derive(Drop)]
pub(crate) struct Picked<'a> {
    pub block: &'a Block,
    pub places: &'a [u32],
}

impl<'a> Model for Picked<'a> {
    ghost use Rattle.std.specs.Prelude.{◌<◌, length, All};
    ghost use Rattle.sky_row.specs.Columns.{objects_at};
    ghost use Rattle.column_block.specs.Blocks.{Stored};

    ghost Value = { Stored };

    ghost view = { λ p. record {
      width = p.block.now.width;
      objects = objects_at p.block.now.objects p.places.now;
    } };

    ghost invariant = { λ p. All (λ place. place < length p.block.now.objects) p.places.now };
}

impl<'a> Picked<'a> {
    /// Creates the selection of the rows with these numbers, counted from 0.
    pub(crate) fn new(block: &'a Block, places: &'a [u32]) -> Picked<'a>
        requires { All (λ place. place < length block.now.objects) places.now }
        ensures { result ≡ record {
          width = block.now.width;
          objects = objects_at block.now.objects places.now;
        } }
    {
        Picked { block, places }
    }

    /// Returns how many rows are selected.
    pub(crate) fn len(&self) -> usize
        ensures { result ≡ length self.now.objects }
    {
        self.places.len()
    }

    /// Returns a column of the rows by its number. Allocates memory for it.
    pub(crate) fn read(&self, col: u32, scratch: &mut Scratch) -> Result<Lane, Memory>
        requires { col < FIRST_COLUMNS + self.now.width }
        ensures { IfOk result (IsLane self.now.objects
            (Column (record { second = false; col = col }))) }
    {
        read(self.block, self.places, col, scratch)
    }

    /// Returns which of the rows are in the area. `found` is an empty mask that has room for them.
    pub(crate) fn lying(&self, test: &AreaTest, found: Vec<bool>) -> Vec<bool>
        requires empty { found.items ≡ [] }
        requires room { length self.now.objects ≤ vec_capacity found }
        ensures { IsMask (length self.now.objects)
            (λ k. area_holds test.now (get_or self.now.objects k no_row).at) result.items }
    {
        lying(test, self.block, self.places, found)
    }
}
