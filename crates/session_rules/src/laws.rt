//! Lemmas about ends, stated as functions that do nothing: a caller obtains what they ensure.

ghost use Rattle.session_rules.specs.Laws.{CancelStands, FitsByEach, PromptIsASplit};

/// Ends fit if each of them fits its query.
pub fn ends_fit_by_each()
    ensures { FitsByEach }
{}

/// A cancel after its query with no wait for that query between comes in time. A prompt cancel splits the steps, with
/// no wait at all between the query and the cancel.
pub fn cancels_part_the_steps()
    ensures stands { CancelStands }
    ensures prompt { PromptIsASplit }
{}
