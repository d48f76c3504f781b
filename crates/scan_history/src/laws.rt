//! The lemma on what is printed. A call here does nothing: its clause is the lemma.
ghost use Rattle.scan_history.specs.Laws.{PrintedIsRead};

/// What is printed of a journal whose numbers and lists are within the text's ranges is read as the same journal.
#[tactic(auto, using(crate::proofs::RoundTrip::printed_is_read))]
pub fn what_is_printed_is_read_as_the_same_journal()
    ensures { PrintedIsRead }
{}
