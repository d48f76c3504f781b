//! Worked examples of ends that fit a script and of ends that do not, evaluated by the checker.

ghost use Rattle.std.specs.Prelude.{◌≡◌, [], ◌∷◌, true, false};
ghost use Rattle.session_rules.specs.Ends.{fit};
ghost use Rattle.session_rules.specs.Examples.{cancel_late, cancel_second, faulty, nowhere, plain};
ghost use Rattle.session_rules.specs.Examples.{query, three_plain, too_large, wait_first};
ghost use Rattle.session_rules.specs.Examples.{all_answered, all_plain, cancel_second_of};
ghost use Rattle.session_rules.specs.declared.end.EndKind.TheVariants.{Answered, Cancelled, Refused, Spent};

/// With no workers, a query whose cancel comes before any wait ends cancelled, neither answered nor out of memory. With
/// workers the cancel may come too late.
pub fn cancelled_in_time()
    ensures alone { fit 0 cancel_second three_plain (Answered ∷ Cancelled ∷ Answered ∷ []) ≡ true }
    ensures answered { fit 0 cancel_second three_plain
        (Answered ∷ Answered ∷ Answered ∷ []) ≡ false }
    ensures spent { fit 0 cancel_second three_plain (Answered ∷ Spent ∷ Answered ∷ []) ≡ false }
    ensures too_late { fit 4 cancel_second three_plain
        (Answered ∷ Answered ∷ Answered ∷ []) ≡ true }
    ensures another { fit 4 cancel_second three_plain
        (Cancelled ∷ Answered ∷ Answered ∷ []) ≡ false }
{}

/// At most 64 queries run at once. With 65 it is open whether a cancel comes in time, with 64 it is not.
pub fn more_queries_than_can_run()
    ensures open { fit 0 (cancel_second_of 65) (all_plain 65) (all_answered 65) ≡ true }
    ensures pinned { fit 0 (cancel_second_of 64) (all_plain 64) (all_answered 64) ≡ false }
{}

/// After a wait for another query it is open whether a cancel comes in time. After a wait for the query itself no
/// cancel does.
pub fn cancelled_behind_a_wait()
    ensures open { fit 0 wait_first three_plain (Answered ∷ Answered ∷ Answered ∷ []) ≡ true }
    ensures cancelled { fit 0 wait_first three_plain (Answered ∷ Cancelled ∷ Answered ∷ []) ≡ true }
    ensures late { fit 0 cancel_late three_plain (Answered ∷ Cancelled ∷ Answered ∷ []) ≡ false }
{}

/// A fault of grammar is reported even if the query is cancelled. A query with a total out of range may be cancelled
/// first, and has to be if the cancel comes in time. A query with no chunk is never cancelled.
pub fn refused_and_cancelled()
    ensures faulty { fit 0 cancel_second (plain ∷ faulty ∷ plain ∷ [])
        (Answered ∷ Refused ∷ Answered ∷ []) ≡ true }
    ensures early { fit 0 cancel_second (plain ∷ faulty ∷ plain ∷ [])
        (Answered ∷ Cancelled ∷ Answered ∷ []) ≡ false }
    ensures total { fit 0 cancel_second (plain ∷ too_large ∷ plain ∷ [])
        (Answered ∷ Cancelled ∷ Answered ∷ []) ≡ true }
    ensures told { fit 0 cancel_second (plain ∷ too_large ∷ plain ∷ [])
        (Answered ∷ Refused ∷ Answered ∷ []) ≡ false }
    ensures nowhere { fit 0 cancel_second (plain ∷ nowhere ∷ plain ∷ [])
        (Answered ∷ Answered ∷ Answered ∷ []) ≡ true }
{}

/// There is one end for each query. A query without a refusal is not refused, and one without work is not out of
/// memory.
pub fn ends_that_do_not_fit()
    ensures few { fit 4 (query 1 ∷ []) (plain ∷ []) [] ≡ false }
    ensures unknown { fit 4 (query 1 ∷ []) [] [] ≡ false }
    ensures told { fit 4 (query 1 ∷ []) (faulty ∷ []) (Answered ∷ []) ≡ false }
    ensures many { fit 4 (query 1 ∷ []) (plain ∷ []) (Answered ∷ Answered ∷ []) ≡ false }
    ensures refused { fit 4 (query 1 ∷ []) (plain ∷ []) (Refused ∷ []) ≡ false }
    ensures spent { fit 4 (query 1 ∷ []) (plain ∷ []) (Spent ∷ []) ≡ true }
    ensures idle { fit 4 (query 1 ∷ []) (nowhere ∷ []) (Spent ∷ []) ≡ false }
{}
