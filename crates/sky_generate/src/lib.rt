//! The demo's input, made from a count and a seed: its catalogue, its sky text and its script.
//!
//! Callers see the rows and the texts as those of `demo_rules`. An object takes five draws of the generator
//! `minstd_rand` of the C++ standard. Its position on the sphere is computed from three of them with integer square
//! roots. `rows_by` divides the objects among the given number of threads; the rows are the same for each number.
//!
//! Below: `sky_vector` for positions and roots, `sky_row` for rows, `demo_rules` for the definition of the demo. Nothing
//! is read, and no number is drawn from outside.
#![tactic(auto)]

mod draws;
mod place;
mod rows;
mod texts;

pub use rows::{rows_by, rows_of};
pub use texts::{demo_script, demo_sky};
