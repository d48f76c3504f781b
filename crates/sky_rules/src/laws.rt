//! Lemmas about the partition, stated as functions that do nothing: a caller obtains what they ensure.

ghost use Rattle.sky_rules.specs.Laws.{AcceptedIsWithinLimits, ExactlyOnePlace, NearEnough, RowByDivision};
ghost use Rattle.sky_rules.specs.Laws.{SubLiesInItsChunk};
ghost use Rattle.sky_rules.specs.SkySteps.{ReadLineByLine};

/// Reading the stripe lines of a sky text one by one, each after the stripes so far, gives the meaning of the whole
/// text.
#[tactic(auto, using(crate::proofs::Steps::read_line_by_line))]
pub fn read_line_by_line()
    ensures { ReadLineByLine }
{}

/// The partition that a sky text is accepted as is within the limits.
pub fn accepted_is_within_limits()
    ensures { AcceptedIsWithinLimits }
{}

/// Each admissible point is in exactly one chunk, in exactly one subchunk of it, and in no subchunk of another chunk.
#[tactic(auto, using(crate::proofs::OnlyPlace::exactly_one_place))]
pub fn exactly_one_place()
    ensures { ExactlyOnePlace }
{}

/// A subchunk's points are points of its chunk.
#[tactic(auto, using(crate::proofs::OnlyPlace::sub_lies_in_its_chunk))]
pub fn sub_lies_in_its_chunk()
    ensures { SubLiesInItsChunk }
{}

/// Overlap is enough. If a point is no farther than the overlap radius from a point of a subchunk, it is near the
/// subchunk and near its chunk.
pub fn near_enough()
    ensures { NearEnough }
{}

/// The row of a stripe that contains a height is found by one division.
#[tactic(auto, using(crate::proofs::Rows::row_by_division))]
pub fn row_by_division()
    ensures { RowByDivision }
{}
