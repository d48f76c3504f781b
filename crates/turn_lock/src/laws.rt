//! Lemmas on participants. A call here does nothing: its clause is the lemma.
ghost use Rattle.turn_lock.specs.Ends.{EntriesAreKept, NothingIsAdded};

use sky_io::Lineage;

/// Let every other participant have ended in participant 0. Then each entry that it has seen is its own, or is stored
/// with the number of the participant that made it.
pub fn every_entry_is_kept_once_all_seats_have_ended<T: Lineage>()
    ensures { EntriesAreKept T.Root T.seat_of }
{}

/// Let every other participant have ended in participant 0. Then no entry is added by others any more: the history that
/// participant 0 finds when it enters again is what it had seen.
pub fn nothing_is_added_once_all_seats_have_ended<T: Lineage>()
    ensures { NothingIsAdded T.Root T.seat_of }
{}
