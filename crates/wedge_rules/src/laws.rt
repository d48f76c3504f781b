//! Lemmas about wedges and fine wedges, stated as functions that do nothing: a caller obtains what they ensure.

ghost use Rattle.wedge_rules.specs.Laws.{ExactlyOneFineWedge, ExactlyOneWedge, FineLiesInItsWedge};
ghost use Rattle.wedge_rules.specs.Laws.{LessThanHalfATurn, PlanesAgree, TestIsTheFact};

/// Each point is in exactly one of the wedges of a stripe.
#[tactic(auto, using(crate::proofs::Exactly::exactly_one_wedge))]
pub fn exactly_one_wedge()
    ensures { ExactlyOneWedge }
{}

/// A fine wedge is a subset of the wedge that it is a part of.
pub fn fine_lies_in_its_wedge()
    ensures { FineLiesInItsWedge }
{}

/// Each point is in one wedge, in exactly one fine wedge of it, and in no fine wedge of another.
#[tactic(auto, using(crate::proofs::Exactly::exactly_one_fine_wedge))]
pub fn exactly_one_fine_wedge()
    ensures { ExactlyOneFineWedge }
{}

/// The plane at which a wedge begins is the plane at which its first fine wedge begins.
#[tactic(auto, using(crate::proofs::Fine::planes_agree))]
pub fn planes_agree()
    ensures { PlanesAgree }
{}

/// The two directions of a wedge are less than half a turn apart.
#[tactic(auto, using(crate::proofs::HalfTurn::less_than_half_a_turn))]
pub fn less_than_half_a_turn()
    ensures { LessThanHalfATurn }
{}

/// The test of a wedge is true exactly if the wedge holds the point.
#[tactic(auto, using(crate::proofs::Tests::test_is_the_fact))]
pub fn test_is_the_fact()
    ensures { TestIsTheFact }
{}
