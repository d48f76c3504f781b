//! Lemmas about the language, stated as functions that do nothing: a caller obtains what they ensure.

ghost use Rattle.sql_rules.specs.Laws.{OneTree, SyntaxIsNothing};
ghost use Rattle.sql_rules.specs.Laws.{WhatIsReadIsWritten, WhatIsWrittenIsRead};

/// Reading agrees with the grammar: the tree of a text is spelled by its tokens, and the tree that its tokens spell is
/// the tree of the text.
#[tactic(auto, using(crate::proofs::Law::read_is_written))]
pub fn reading_is_the_grammar()
    ensures found { WhatIsReadIsWritten }
    ensures only { WhatIsWrittenIsRead }
{}

/// A text spells at most one tree, spans included, and none if its fault is `Syntax`.
#[tactic(auto, using(crate::proofs::Law::one_tree, crate::proofs::Law::nothing))]
pub fn a_text_has_one_tree()
    ensures one { OneTree }
    ensures none { SyntaxIsNothing }
{}
