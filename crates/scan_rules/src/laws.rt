//! Lemmas about every run. A call here does nothing: its clause is the lemma.
ghost use Rattle.scan_rules.specs.Serving.{ServedOnce, ServedOwnAlone, DoneServedAll, TakeServesAll};
ghost use Rattle.scan_rules.specs.Laps.{LapServesAll, LapRepeatsNone};
ghost use Rattle.scan_rules.specs.Ends.{StatesTell, NoLinesRun, FrontsRun, RunsGoOn, RunsAreShort, EndsStay};
ghost use Rattle.scan_rules.specs.Callers.{NothingIsNeeded, WantedIsAttached};
ghost use Rattle.scan_rules.specs.OwnLines.{OwnLinesTell};
ghost use Rattle.scan_rules.specs.Wishes.{FreshHasNothing, GivenGrows, CompleteIsGiven, NoWishNoLoss, LapIsFilled};
ghost use Rattle.scan_rules.specs.Wishes.{CancelledIsAttached, CollectedRests};
ghost use Rattle.scan_rules.specs.Giving.{GivenIsWanted, GivenByDeliversAlone, DeliverGives, TicketServes, InFlightIsNotGiven};

/// In every interleaving of the participants, a query is served each chunk at most once.
pub fn a_query_is_served_each_chunk_at_most_once()
    ensures { ServedOnce }
{}

/// A query is served only chunks of the list that it was attached with.
pub fn a_query_is_served_its_own_chunks_alone()
    ensures { ServedOwnAlone }
{}

/// A query that is done was served each chunk of its list, once.
pub fn a_done_query_was_served_its_whole_list()
    ensures { DoneServedAll }
{}

/// One take serves all running queries that want its chunk and were not served it.
pub fn a_take_serves_every_query_that_needs_its_chunk()
    ensures { TakeServesAll }
{}

/// As many takes as there are different wanted chunks serve a query its whole list, at whatever point of the ring it
/// was attached. Up to the take of its last chunk no chunk is taken twice.
pub fn one_lap_serves_a_query_its_whole_list()
    ensures whole { LapServesAll }
    ensures different { LapRepeatsNone }
{}

/// Runs are built line by line, and any prefix of one is a run.
pub fn a_run_goes_on_by_each_line_that_may_follow()
    ensures start { NoLinesRun }
    ensures next { RunsGoOn }
    ensures front { FrontsRun }
{}

/// A run over at most 16,384 chunks has fewer than 2^23 lines.
pub fn a_run_has_fewer_than_two_to_the_23_lines()
    ensures { RunsAreShort }
{}

/// A query runs exactly if its state is Running, and is done exactly if its state is Done.
pub fn a_query_runs_where_its_state_says_so()
    ensures { StatesTell }
{}

/// A query that is done, cancelled or lost stays so.
pub fn a_query_that_has_ended_stays_as_it_is()
    ensures { EndsStay }
{}

/// What is given to a query changes by Delivers alone. Each gives the one chunk that was taken with its ticket to the
/// queries of that take, and none of them had it before.
pub fn what_is_given_changes_by_delivers_alone()
    ensures wanted { GivenIsWanted }
    ensures same { GivenByDeliversAlone }
    ensures more { DeliverGives }
    ensures ticket { TicketServes }
    ensures new { InFlightIsNotGiven }
{}

/// A task is delivered only by the participant that took it, so the participant's own lines show whether it is
/// delivered.
pub fn own_lines_tell_what_is_delivered()
    ensures { OwnLinesTell }
{}

/// If no chunk is next, each running query was served its whole list.
pub fn nothing_is_needed_where_no_chunk_is_next()
    ensures { NothingIsNeeded }
{}

/// A query wants the list that it was attached with.
pub fn a_query_wants_what_it_was_attached_with()
    ensures { WantedIsAttached }
{}

/// A query that was attached by the last line was given nothing.
pub fn a_query_just_attached_was_given_nothing()
    ensures { FreshHasNothing }
{}

/// The Deliver of a task adds its chunk to what its queries were given, and none of them had it.
pub fn a_deliver_adds_its_chunk_to_what_was_given()
    ensures { GivenGrows }
{}

/// A query that is complete was given all that it wanted.
pub fn a_complete_query_was_given_all_it_wanted()
    ensures { CompleteIsGiven }
{}

/// A query that wants no chunks is neither cancelled nor lost, in any run.
pub fn a_query_that_wants_nothing_is_never_cancelled_nor_lost()
    ensures { NoWishNoLoss }
{}

/// If each list has filled chunks alone, one lap has at most as many takes as there are filled chunks.
pub fn a_lap_is_no_longer_than_the_filled_chunks()
    ensures { LapIsFilled }
{}

/// A query that was cancelled was attached, and one that was collected does not run.
pub fn only_attached_queries_are_cancelled_and_none_is_collected_while_it_runs()
    ensures cancelled { CancelledIsAttached }
    ensures collected { CollectedRests }
{}
