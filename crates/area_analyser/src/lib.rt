//! The choice of a query's chunks by its area tests and its id tests, and whether their overlap allows a join's limit.
//!
//! Callers see a plan as the ascending list that `plan_of` of `answer_rules` defines over the flat table. A chunk is
//! tested by its bounds, as `sky_plan` gives them, and by the chunks and rows that `object_index` finds for the ids.
//! Below: `answer_rules` for the definition of a plan, `scan_rules` for a set of chunks. Only those rows are read whose
//! ids a lookup inspects, and no chunk without rows is considered.
#![tactic(auto)]

mod area;
mod boxed;
mod cap;
mod choice;
mod ids;
mod marks;
mod push;
mod radius;

pub use answer_rules::Radius;
pub use choice::plan;
pub use radius::radius_ok;
