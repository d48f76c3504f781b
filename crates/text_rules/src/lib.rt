//! The syntax shared by all text formats: numbers, lines, names and reading part by part, as definitions for contracts.
//!
//! Callers see a text as a list of bytes and a number as a whole number (`specs/Numbers.antt`). A line is its number
//! and its text (`specs/Lines.antt`). `specs/Words.antt` defines the bytes of a word, and `specs/Readings.antt` a text
//! that is read part by part.
//!
//! Below: nothing. This crate has no algorithms, only worked examples that the checker evaluates.
#![tactic(auto)]

pub mod examples;
pub mod limits;
