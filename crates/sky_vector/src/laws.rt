//! Lemmas about the plane's products and positions, stated as functions that do nothing: a caller obtains what they
//! ensure.

ghost use Rattle.sky_vector.specs.Laws.{NearAcross, PartsAreCoordinates, PlaneLaw, SameChord, ThreeTerms};

/// The square of a sum of two products is at most the product of the two squared lengths.
#[tactic(auto, using(crate::proofs::Plane::plane_law))]
pub fn plane_law()
    ensures { PlaneLaw }
{}

/// The products of four directions, two by two, sum to 0 in three terms.
#[tactic(auto, using(crate::proofs::Plane::three_terms))]
pub fn three_terms()
    ensures { ThreeTerms }
{}

/// Of two points on different sides of a line, each is as near to the line as they are to each other.
pub fn near_across()
    ensures { NearAcross }
{}

/// A chord is as long from either end.
#[tactic(auto, using(crate::proofs::Plane::same_chord))]
pub fn same_chord()
    ensures { SameChord }
{}

/// Each part of an admissible point is a coordinate.
pub fn parts_are_coordinates()
    ensures { PartsAreCoordinates }
{}
