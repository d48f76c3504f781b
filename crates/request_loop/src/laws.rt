//! Lemmas about the requests of inputs, stated as functions that do nothing: a caller obtains what they ensure.
ghost use Rattle.request_loop.specs.Laws.{RequestsStay};

/// Whatever follows an input, its requests stay the first. So what may be written for a part of an input is a
/// prefix of what may be written for the whole, but for the last line.
#[tactic(auto, using(crate::proofs::Staying::requests_stay))]
pub fn requests_stay()
    ensures { RequestsStay }
{}
