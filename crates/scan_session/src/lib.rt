//! The czar's session: a script over shared boards, with workers on threads beside the czar.
//!
//! Callers give `drive` the plan of each query of a script, and get the end of each. There is one board or several, and
//! each query has one (`scan_boards`). The lines that the participant at each board has seen show what was done
//! (`specs/Drove.antt`). Below: `scan_boards` for the calls, `scan_worker` for the work, `session_script` for the
//! steps. No rows and no SQL: a piece of work is any `P: Work`.
#![tactic(auto)]

mod crew;
mod czar;
pub mod end;
pub mod laws;
pub mod scan;
mod script;
pub mod session;
mod steps;

pub use end::{End, Planned};
pub use scan::Scan;
pub use session::drive;
