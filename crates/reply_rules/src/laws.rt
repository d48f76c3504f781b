//! Lemmas about the lines of transcripts and replies, stated as functions that do nothing: a caller obtains what they
//! ensure.

ghost use Rattle.reply_rules.specs.Laws.{AcceptedIsNamed, AnsweredEndsAtPlus, AnswersAreFound};
ghost use Rattle.reply_rules.specs.Laws.{FixedRepliesEndAtPlus, NoLineBeginsWithPlus, RepliesAreFound};
ghost use Rattle.reply_rules.specs.Laws.{TranscriptsAreLines};

/// No line of the transcript of an accepted script begins with `+`, over any sky plan and any catalogue whose columns
/// have names. A transcript is whole lines, so what follows it begins a line.
#[tactic(auto, using(crate::proofs::Transcripts::no_line_begins_with_plus, crate::proofs::Transcripts::transcripts_are_lines))]
pub fn no_line_of_a_transcript_begins_with_plus()
    ensures none { NoLineBeginsWithPlus }
    ensures whole { TranscriptsAreLines }
{}

/// The columns of an accepted catalogue have names.
#[tactic(auto, using(crate::proofs::Named::accepted_is_named))]
pub fn accepted_columns_have_names()
    ensures { AcceptedIsNamed }
{}

/// The reply to an accepted script ends at its one line that begins with `+`, which is `+ ok`.
#[tactic(auto, using(crate::proofs::Transcripts::answered_ends_at_plus))]
pub fn the_reply_to_an_accepted_script_ends_at_plus()
    ensures { AnsweredEndsAtPlus }
{}

/// A reply that is no answer ends at its one line that begins with `+`. If each reply does so, a client that reads up to
/// such a line, again and again, finds them all. So if each answer does so, it finds the reply to each request.
#[tactic(auto, using(crate::proofs::Finding::fixed_replies_end_at_plus, crate::proofs::Finding::replies_are_found, crate::proofs::Finding::answers_are_found))]
pub fn replies_are_found()
    ensures fixed { FixedRepliesEndAtPlus }
    ensures found { RepliesAreFound }
    ensures each { AnswersAreFound }
{}
