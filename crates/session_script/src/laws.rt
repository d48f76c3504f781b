//! Lemmas about the definition of scripts, stated as functions that do nothing: a caller obtains what they ensure.
ghost use Rattle.std.specs.Prelude.{◌≡◌, ℕ, List, All, Ok, Some, slice_get, slice_range};
ghost use Rattle.sql_token.specs.declared.token.Span.{Span};
ghost use Rattle.session_script.specs.declared.step.Step.{Step};
ghost use Rattle.session_script.specs.declared.step.Step.TheVariants.{Query};
ghost use Rattle.session_script.specs.Laws.{LinesAreTexts, NumberedFrom, StandsAt};
ghost use Rattle.session_script.specs.Places.{placed_lines};
ghost use Rattle.session_script.specs.Scripts.{query_text, script_of};

/// Queries are numbered from 1 in the order of their lines, and a wait or a cancel names an earlier one.
#[tactic(auto, using(crate::proofs::Numbered::script_numbered))]
pub fn queries_are_numbered_in_order()
    ensures { (text : List ℕ) (ss : List Step) → script_of text ≡ Ok ss → NumberedFrom 0 ss }
{}

/// The text of the query that a step starts is that of the step's span.
#[tactic(auto, using(crate::proofs::Numbered::own_text))]
pub fn a_query_has_its_own_text()
    ensures { (text : List ℕ) (ss : List Step) (i n : ℕ) (span : Span) → NumberedFrom 0 ss
        → slice_get ss i ≡ Some (Query n span)
        → query_text ss text n ≡ slice_range text span.from span.to }
{}

/// The bytes of a line are in the text at its position.
#[tactic(auto, using(crate::proofs::Standing::lines_stand))]
pub fn lines_stand_at_their_places()
    ensures { (text : List ℕ) → All (StandsAt text) (placed_lines text) }
{}

/// The lines of the queries, counted from 0, are the texts of the queries, counted from 1.
#[tactic(auto, using(crate::proofs::Numbered::lines_are_texts))]
pub fn query_lines_are_query_texts()
    ensures { LinesAreTexts }
{}
