//! Which rows of a chunk meet the conditions of a query.
ghost use Rattle.std.specs.Prelude.{◌≡◌, ◌+◌, ◌<◌, ◌^◌, ℕ, Bool, All, IfOk, IsTrue, get_or, length, true, false};
ghost use Rattle.std.specs.List.{list_all};
ghost use Rattle.sky_rules.specs.Partition.{chunk_count};
ghost use Rattle.chunk_rules.specs.Filled.{is_filled};
ghost use Rattle.chunk_rules.specs.Places.{rows_at};
ghost use Rattle.chunk_store.specs.Places.{chunk_rows};
ghost use Rattle.answer_rules.specs.SoundChunks.{IsSoundChunk};
ghost use Rattle.value_rules.specs.Sound.{has_col, is_paired, is_sound_cond};
ghost use Rattle.chunk_filter.specs.Selection.{mask_of};
ghost use Rattle.table_rules.specs.Objects.{IdsAscend};
ghost use Rattle.table_rules.specs.declared.limits.TheConstants.{FIRST_COLUMNS};

use crate::scratch::Scratch;
use crate::selection::selection;
use answer_rules::ChunkQuery;
use chunk_store::Store;
use column_block::Block;
use sky_io::Memory;
use sql_bound::BoundCond;
use std::alloc::Global;

/// Returns a flag for each row of the chunk, in the order of its rows in the table: that the row meets all conditions
/// of the query. Allocates memory for a flag and a row number for each row, and for what the evaluator needs.
#[tactic(auto, using(crate::proofs::Found::block_few, crate::proofs::Found::block_ascends))]
pub fn mask(
    alloc: Global,
    store: &Store,
    chunk: u32,
    query: &ChunkQuery,
) -> Result<Vec<bool>, Memory>
    requires there { chunk < chunk_count store.now.plan }
    requires filled { is_filled store.now.plan store.now.rows.objects chunk ≡ true }
    requires rows { is_paired query.now.shape ≡ false }
    requires sound { IsSoundChunk (FIRST_COLUMNS + length store.now.rows.names) query.now }
    ensures { IfOk result (λ mask. mask.items ≡ mask_of query.now.conds
        (rows_at store.now.rows.objects (chunk_rows store.now.plan store.now.rows.objects chunk))) }
{
    let _count = store.rows().len();
    mask_over(alloc, store.block(chunk), query.conds.as_slice())
}

/// Returns the mask of a block: which of its rows meet the conditions.
#[tactic(auto, using(crate::proofs::Masks::mask_is))]
fn mask_over(alloc: Global, block: &Block, conds: &[BoundCond]) -> Result<Vec<bool>, Memory>
    requires few { length block.now.objects < 2 ^ 32 }
    requires ascend { IdsAscend block.now.objects }
    requires sound { IsTrue (list_all
        (is_sound_cond (has_col (FIRST_COLUMNS + block.now.width) false))
        conds.now) }
    ensures { IfOk result (λ mask. mask.items ≡ mask_of conds.now block.now.objects) }
{
    let mut scratch = Scratch::new(alloc);
    let places = selection(block, conds, &mut scratch)?;
    let mut mask = scratch.flags.filled(false, block.len())?;
    set_at(mask.as_mut_slice(), places.as_slice());
    Ok(mask)
}

/// Makes the mask true on the rows with these numbers.
fn set_at(mask: &mut [bool], places: &[u32])
    requires { All (λ place. place < length mask.old) places.now }
    ensures len { length mask.new ≡ length mask.old }
    ensures set { (j : ℕ) → j < length places.now
        → get_or mask.new (get_or places.now j 0) false ≡ true }
    ensures only { (test : ℕ → Bool) → All (λ place. test place ≡ true) places.now
        → ((k : ℕ) → get_or mask.old k false ≡ true → test k ≡ true)
        → (k : ℕ) → get_or mask.new k false ≡ true → test k ≡ true }
{
    for place in places {
        mask[*place as usize] = true;
    }
}
