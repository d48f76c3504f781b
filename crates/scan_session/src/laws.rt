//! Lemmas on every session. A call here does nothing: its clause is the lemma.
ghost use Rattle.scan_session.specs.Laws.{DroveFits, EmptyIsDone};

/// The ends of a session fit its script. Each end is given by its state and, if there is a piece, by whether the piece
/// is refused.
pub fn the_ends_of_a_session_fit()
    ensures { DroveFits }
{}

/// A query whose plan has no chunks is done in the end: it is neither cancelled nor lost.
pub fn a_query_without_chunks_is_done()
    ensures { EmptyIsDone }
{}
