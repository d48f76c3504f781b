//! Worked examples of full overlap, computed by the checker.

ghost use Rattle.std.specs.Prelude.{◌≡◌, [], ◌∷◌};
ghost use Rattle.sky_rules.specs.Examples.{halves, on_diagonal, on_meridian};
ghost use Rattle.overlap_tables.specs.Overlaps.{near_others};

/// Of eight chunks with an overlap of 5, the point of the equator on the first meridian is in chunk 4, and three others
/// need it. The point on the diagonal is in chunk 4 as well, and only the chunk below needs it.
#[tactic(auto, unfolding(wedge_rules::specs::Heading::heading, wedge_rules::specs::Heading::walk))]
pub fn chunks_that_need_a_point_of_the_equator()
    ensures meridian { near_others halves on_meridian ≡ 0 ∷ 3 ∷ 7 ∷ [] }
    ensures diagonal { near_others halves on_diagonal ≡ 0 ∷ [] }
{}
