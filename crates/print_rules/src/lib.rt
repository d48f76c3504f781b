//! Printed queries read back: the printed text of a query is read as the same query.
//!
//! Callers see the lemma of `specs/ReadBack.antt`. It depends on a view of a printed text as a list of symbols, each
//! with or without a space before it (`specs/Spaced.antt`, `specs/Gaps.antt`, `specs/Laws.antt`). Below: `sql_token`
//! for tokens, `sql_rules` for what is read and printed. There is no printer here: definitions and lemmas.
#![tactic(auto)]

pub mod laws;
