//! Lemmas about replies, stated as functions that do nothing: a caller obtains what they ensure.

ghost use Rattle.script_server.specs.Laws.{AnswersEndAtPlus, EachReplyIsFound, RepliesEndAtPlus};

/// Each answer ends at its one line that begins with `+`: to a script that is accepted, and to one with a fault. So does
/// each reply. So a client that reads lines up to such a line has exactly one reply, and it finds the reply to each
/// request, one after another.
pub fn replies_end_at_plus()
    ensures answers { AnswersEndAtPlus }
    ensures replies { RepliesEndAtPlus }
    ensures found { EachReplyIsFound }
{}
