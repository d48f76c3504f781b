//! The lines of replies: no line of a transcript begins with `+`, so the line `+ ok` after it ends the reply.
//!
//! Callers see the lines of a text, which of them begin with `+` (`specs/Lines.antt`), and the replies that a client
//! finds by these (`specs/Found.antt`), as lemmas (`specs/Laws.antt`). Below: `transcript_rules` for a transcript,
//! `request_loop` for the lines of a text and for replies, `print_rules` for the symbols of a heading. There is no code
//! here: definitions and lemmas. Not in it: the answer to a script with a fault, which `script_server` defines as one
//! line.
#![tactic(auto)]

pub mod laws;
