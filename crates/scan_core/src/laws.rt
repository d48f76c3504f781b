//! Lemmas on tasks in flight, on what is asked, and on lists of chunks. A call here does nothing: its clause is the
//! lemma.
ghost use Rattle.scan_rules.specs.Asked.{WantedIsAsked, ServedIsAsked, FrontsAreAsked};
ghost use Rattle.scan_core.specs.Flights.{TakenFlies, FliesOn};
ghost use Rattle.scan_core.specs.Pieces.{OneMoreHas};

use crate::work::Work;

/// A task is in flight once it is taken, and stays in flight through each line but its own Deliver.
pub fn a_task_is_in_flight_until_it_is_delivered()
    ensures start { TakenFlies }
    ensures on { FliesOn }
{}

/// In a run over a root, each chunk that a query was attached with and each that it is served was asked of it by the
/// root. A prefix of such a run is such a run.
pub fn what_is_wanted_and_served_was_asked<P: Work>()
    ensures wanted { WantedIsAsked P.asks }
    ensures served { ServedIsAsked P.asks }
    ensures front { FrontsAreAsked P.asks }
{}

/// A list of some chunks and one more contains that one and the others. So a caller that knows pieces by the members of
/// a list can absorb.
pub fn a_list_of_one_more_chunk_has_it_and_the_others()
    ensures { OneMoreHas }
{}
