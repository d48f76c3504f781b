//! Tests of the shared scan by public calls alone, of what no output of the program shows.
//!
//! They test the board's answers, two seats at one board, two boards of which one is called first, threads that meet,
//! visits that no thread loses, and queries whose work fails. Callers: none. No crate depends on this one, so that a
//! crate of the scan is proved once, and its tests over its contracts. Below: `turn_lock` (`turns`), `scan_core`
//! (`machine`, `moments`), `scan_board` (`boards`), `scan_classes` (`classes`), `scan_worker` (`refusals`), and
//! `scan_session` over it (`sessions`, `teams`).
#![tactic(auto)]

#[cfg(test)]
mod boards;
#[cfg(test)]
mod classes;
#[cfg(test)]
mod machine;
#[cfg(test)]
mod moments;
#[cfg(test)]
mod refusals;
#[cfg(test)]
mod sessions;
#[cfg(test)]
mod teams;
#[cfg(test)]
mod turns;
