//! That the demo's sky plan and script are accepted, and none of its queries is refused, over its catalogue of any seed.
//!
//! Callers see the two texts as the partition and the steps of `specs/DemoInput.antt`, and the rest as a lemma on the
//! refusal that `transcript_rules` defines (`specs/Laws.antt`). Below: `demo_rules` for the catalogue and the two
//! texts, `sky_rules` and `session_script` for what the texts say. How the script's queries are read and bound is
//! worked out here. No code: functions that carry the lemmas.
#![tactic(auto)]

pub mod laws;
pub mod texts;
