//! A server of scripts: a sky plan and a catalogue are loaded once, and scripts are answered as they come.
//!
//! `qserv_serve` is generic over the outside. Its contract (`specs/Meanings.antt`) defines what each outcome means, and
//! `specs/Answers.antt` which answers a script may have. Below: `request_loop` reads requests and sends lines,
//! `top_call` loads, `czar` runs the queries of a script and writes their results, and `reply_rules` has which lines of a
//! text begin with `+`. Nothing of a script is kept after its reply.
#![tactic(auto)]

mod answer;
pub mod laws;
mod outcome;
mod session;
mod step;
mod top;
mod words;

pub use outcome::{ServeOutcome, put_serve_outcome, serve_status};
pub use top::qserv_serve;
