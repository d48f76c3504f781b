//! The answer of a query over a child table: over the pairs of an object with one of its sources.
//!
//! A source is the second row of a pair, with the position of its object (`specs/Children.antt`). So the values and
//! conditions of a child query, the order of its answer and its chunks are those of any query over pairs, as
//! `value_rules` and `answer_rules` define them. Callers see a child query as a `Bound` of `sql_bound`, and a partial
//! result of it by `ChildFor` (`specs/ChildPieces.antt`). Below: `source_rules` for sources, `answer_rules` for answers.
//! No algorithms: a type, definitions, worked examples and lemmas.
#![tactic(auto)]

pub mod bound;
pub mod examples;
pub mod laws;

pub use bound::ChildBound;
