//! The requests of a session: each is read from a source up to its line `+`, and its reply is written and sent.
//!
//! An input is defined as its requests and a rest (`specs/Requests.antt`), and a session by what it reads and writes
//! (`specs/Sessions.antt`), for any relation between a request and its answers. The loop of a session is the caller's,
//! since this crate starts no threads: it reads a request, and sends a line. `proofs/Stepping.antt` and
//! `proofs/Serving.antt` prove a session of such steps. Below: `byte_source` and `sky_io` for the outside. There are no
//! scripts and no SQL here: a request is bytes.
#![tactic(auto)]

mod answered;
mod draft;
pub mod laws;
mod line_start;
mod request;
mod session;
mod step;

pub use answered::Answered;
pub use request::{Request, read_request};
pub use session::Session;
pub use step::{after_last, after_reply, send_line};
