//! Worked examples of the directions, evaluated by the checker.

ghost use Rattle.std.specs.Prelude.{◌≡◌, ℤ, negsuc, pos};
ghost use Rattle.wedge_rules.specs.Heading.{heading, towards};

/// The three directions of three wedges: (3, 0), (-2, 3) and (-2, -3).
#[tactic(auto, unfolding(crate::specs::Heading::heading, crate::specs::Heading::walk))]
pub fn directions_of_three_wedges()
    ensures first { heading 3 0 ≡ towards (pos 3) (pos 0) }
    ensures second { heading 3 1 ≡ towards (negsuc 1) (pos 3) }
    ensures third { heading 3 2 ≡ towards (negsuc 1) (negsuc 2) }
{}

/// Of eight wedges the second begins at the diagonal (8, 8) and the third at (0, 8).
#[tactic(auto, unfolding(crate::specs::Heading::heading, crate::specs::Heading::walk))]
pub fn directions_of_eight_wedges()
    ensures second { heading 8 1 ≡ towards (pos 8) (pos 8) }
    ensures third { heading 8 2 ≡ towards (pos 0) (pos 8) }
{}
