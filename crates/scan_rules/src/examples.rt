//! Worked histories, evaluated by the checker. A call here does nothing: its clauses are what the definitions give.
ghost use Rattle.std.specs.Prelude.{◌≡◌, List, [], ◌∷◌, ◌++◌, Some, None, take, true};
ghost use Rattle.scan_rules.specs.declared.journal_line.JournalLine.TheVariants.{Attach, Take, Deliver, Cancel, Collect};
ghost use Rattle.scan_rules.specs.Queries.{given, is_closed, state_of, Fresh, Running, Done, Cancelled, Spent};
ghost use Rattle.scan_rules.specs.Scan.{place, next_chunk, takers, running_count};
ghost use Rattle.scan_rules.specs.Runs.{MayFollow, IsRun};
ghost use Rattle.scan_rules.specs.Examples.{late_query, three_ends, full_board};

/// The scan begins at chunk 0, and takes the first chunk that is wanted.
#[tactic(auto, unfolding(crate::specs::Numbers::below))]
pub fn a_scan_begins_at_chunk_0()
    ensures place { place 8 (take 1 late_query) ≡ 0 }
    ensures next { next_chunk 8 (take 1 late_query) ≡ Some 0 }
    ensures queries { takers (take 1 late_query) 0 ≡ 1 ∷ [] }
{}

/// A query that is attached later is served from the next take on.
#[tactic(auto, unfolding(crate::specs::Numbers::below))]
pub fn a_late_query_joins_at_the_next_chunk()
    ensures place { place 8 (take 3 late_query) ≡ 1 }
    ensures next { next_chunk 8 (take 3 late_query) ≡ Some 4 }
    ensures queries { takers (take 3 late_query) 4 ≡ 1 ∷ 2 ∷ [] }
{}

/// After the last wanted chunk the scan goes round, for the query that missed the first one alone.
#[tactic(auto, unfolding(crate::specs::Numbers::below))]
pub fn a_late_query_is_served_the_rest_on_the_next_round()
    ensures place { place 8 (take 6 late_query) ≡ 5 }
    ensures next { next_chunk 8 (take 6 late_query) ≡ Some 0 }
    ensures queries { takers (take 6 late_query) 0 ≡ 2 ∷ [] }
{}

/// Chunks count as given once their tasks are delivered, in any order. A query is done when it has all of its chunks.
#[tactic(auto, unfolding(crate::specs::Numbers::below))]
pub fn a_query_is_done_once_all_is_delivered()
    ensures one { given (take 5 late_query) 1 ≡ 4 ∷ [] }
    ensures running { state_of (take 5 late_query) 1 ≡ Running }
    ensures both { given (take 6 late_query) 1 ≡ 0 ∷ 4 ∷ [] }
    ensures done { state_of (take 6 late_query) 1 ≡ Done }
    ensures late { state_of (take 6 late_query) 2 ≡ Running }
{}

/// A query with nothing left to take still runs until its last task is delivered.
#[tactic(auto, unfolding(crate::specs::Numbers::below))]
pub fn a_query_runs_while_its_last_task_is_in_flight()
    ensures idle { next_chunk 8 (take 7 late_query) ≡ None }
    ensures running { state_of (take 7 late_query) 2 ≡ Running }
    ensures done { state_of (take 8 late_query) 2 ≡ Done }
    ensures closed { is_closed late_query ≡ true }
{}

/// The 11 lines of the history of a late query are a run.
pub fn the_history_of_a_late_query_is_a_run()
    ensures { IsRun 8 late_query }
{}

/// After the last chunk of the ring comes chunk 0.
#[tactic(auto, unfolding(crate::specs::Numbers::below))]
pub fn the_place_after_the_last_chunk_is_0()
    ensures { place 8 (take 2 three_ends) ≡ 0 }
{}

/// Each state of a query. A query without chunks is done at once.
#[tactic(auto, unfolding(crate::specs::Numbers::below))]
pub fn a_query_is_fresh_running_done_cancelled_or_spent()
    ensures fresh { state_of three_ends 4 ≡ Fresh }
    ensures running { state_of (take 4 three_ends) 3 ≡ Running }
    ensures done { state_of (take 3 three_ends) 2 ≡ Done }
    ensures cancelled { state_of three_ends 3 ≡ Cancelled }
    ensures spent { state_of three_ends 1 ≡ Spent }
{}

/// The 6 lines of the history of three ends are a run.
pub fn the_history_of_three_ends_is_a_run()
    ensures { IsRun 8 three_ends }
{}

/// Lines that may not follow. A task is delivered by another participant than the one that took it. A query is attached
/// twice or after the close, collected twice or while it runs, or cancelled when it is done.
#[tactic(auto, unfolding(crate::specs::Numbers::below))]
pub fn some_lines_may_not_follow()
    ensures seat { MayFollow 8 (take 2 late_query) (Deliver 2 0 []) → ⊥ }
    ensures again { MayFollow 8 (take 3 late_query) (Attach 0 1 []) → ⊥ }
    ensures closed { MayFollow 8 late_query (Attach 0 3 []) → ⊥ }
    ensures gone { MayFollow 8 (take 9 late_query) (Collect 0 1) → ⊥ }
    ensures not_yet { MayFollow 8 (take 5 late_query) (Collect 0 1) → ⊥ }
    ensures late { MayFollow 8 (take 6 late_query) (Cancel 0 1) → ⊥ }
{}

/// Takes that may not follow. One serves only the first of two queries that need the chunk. One serves a query that was
/// served the chunk before the scan went round. One is of a chunk that is not the next one.
#[tactic(auto, unfolding(crate::specs::Numbers::below))]
pub fn some_takes_may_not_follow()
    ensures first { MayFollow 8 (take 3 late_query) (Take 2 1 4 (1 ∷ [])) → ⊥ }
    ensures twice { MayFollow 8 (take 6 late_query) (Take 1 2 0 (1 ∷ 2 ∷ [])) → ⊥ }
    ensures next { MayFollow 8 (take 3 late_query) (Take 2 1 0 (2 ∷ [])) → ⊥ }
{}

/// At most 64 queries run at once, and a cancelled one makes room.
#[tactic(auto, unfolding(crate::specs::Numbers::below))]
pub fn a_board_is_full_at_64_running_queries()
    ensures full { running_count full_board ≡ 64 }
    ensures room { running_count (full_board ++ Cancel 0 64 ∷ []) ≡ 63 }
{}
