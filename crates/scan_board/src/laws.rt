//! A lemma on participants of a board. A call here does nothing: its clause is the lemma.
ghost use Rattle.scan_board.specs.Ends.{ReadsWhatWasSeen};

use scan_core::Work;

/// Let every other participant have ended in participant 0. Then the journal that it reads is what it had seen.
pub fn what_is_read_was_seen_once_all_seats_have_ended<P: Work>()
    ensures { ReadsWhatWasSeen P.asks }
{}
