//! Worked examples of the definitions, as functions that do nothing: each ensures an equation.

ghost use Rattle.std.specs.Prelude.{◌≡◌, [], ◌∷◌, length, map, pos, Some};
ghost use Rattle.sky_rules.specs.Examples.{halves};
ghost use Rattle.sky_row.specs.Columns.{column_in};
ghost use Rattle.chunk_store.specs.Examples.{six_lit, six_rows, two_overlaps};
ghost use Rattle.chunk_rules.specs.Filled.{filled_chunks};
ghost use Rattle.chunk_store.specs.Places.{chunk_block, chunk_rows, full_overlap_rows, sub_lists, sub_overlap_rows, sub_rows};

/// Three of the eight chunks have rows.
#[tactic(auto, unfolding(wedge_rules::specs::Heading::heading, wedge_rules::specs::Heading::walk))]
pub fn chunks_that_hold_a_row()
    ensures { filled_chunks halves six_rows ≡ 0 ∷ 4 ∷ 7 ∷ [] }
{}

/// The rows of those chunks and of their overlaps, where all overlaps are 5.
#[tactic(auto, unfolding(wedge_rules::specs::Heading::heading, wedge_rules::specs::Heading::walk))]
pub fn rows_and_overlaps()
    ensures below { chunk_rows halves six_rows 0 ≡ 4 ∷ [] }
    ensures below_near { length (full_overlap_rows halves six_rows 0) ≡ 4 }
    ensures above { chunk_rows halves six_rows 4 ≡ 0 ∷ 1 ∷ 2 ∷ 5 ∷ [] }
    ensures above_near { full_overlap_rows halves six_rows 4 ≡ 3 ∷ 4 ∷ [] }
    ensures last { chunk_rows halves six_rows 7 ≡ 3 ∷ [] }
    ensures last_near { length (full_overlap_rows halves six_rows 7) ≡ 5 }
{}

/// With an overlap of 2 in the north, row 4 is three units west of chunk 4, and too far from it.
#[tactic(auto, unfolding(wedge_rules::specs::Heading::heading, wedge_rules::specs::Heading::walk))]
pub fn overlaps_of_each_stripe()
    ensures south { length (full_overlap_rows two_overlaps six_rows 0) ≡ 4 }
    ensures north { length (full_overlap_rows two_overlaps six_rows 4) ≡ 1 }
    ensures last { length (full_overlap_rows two_overlaps six_rows 7) ≡ 4 }
{}

/// The first subchunk of chunk 4 contains three of the chunk's rows, and needs two of the chunk's overlap. The fourth
/// row, at the pole, is far from it.
#[tactic(auto, unfolding(wedge_rules::specs::Heading::heading, wedge_rules::specs::Heading::walk))]
pub fn rows_of_a_subchunk()
    ensures rows { sub_rows halves six_rows 4 0 ≡ 0 ∷ 1 ∷ 2 ∷ [] }
    ensures overlap { sub_overlap_rows halves six_rows 4 0 ≡ 3 ∷ 4 ∷ [] }
{}

/// The four rows of chunk 4 are in two of its four subchunks.
#[tactic(auto, unfolding(wedge_rules::specs::Heading::heading, wedge_rules::specs::Heading::walk))]
pub fn rows_of_all_subchunks()
    ensures { sub_lists halves six_rows 4 ≡ (0 ∷ 1 ∷ 2 ∷ []) ∷ [] ∷ (5 ∷ []) ∷ [] ∷ [] }
{}

/// The block of chunk 4 has the columns of its four rows, in their order.
#[tactic(auto, unfolding(wedge_rules::specs::Heading::heading, wedge_rules::specs::Heading::walk))]
pub fn columns_of_a_chunk()
    ensures width { (chunk_block halves six_lit 4).width ≡ 1 }
    ensures ids { map (λ o. o.id) (chunk_block halves six_lit 4).objects
        ≡ pos 1 ∷ pos 2 ∷ pos 3 ∷ pos 6 ∷ [] }
    ensures flux { column_in (chunk_block halves six_lit 4).objects 4
        ≡ Some (pos 10) ∷ Some (pos 20) ∷ Some (pos 30) ∷ Some (pos 60) ∷ [] }
{}
