//! Lemmas about binding over objects and their sources, stated as functions that do nothing: a caller obtains what they
//! ensure.

ghost use Rattle.child_bind_rules.specs.ChildLaws.{BoundIsChild, ChildWhereHoldsAsBound};

/// What a query is bound to can be run over the pairs of objects and their sources, if its limit is a number that the
/// grammar allows. The tree of a text has such a limit.
pub fn bound_is_child()
    ensures { BoundIsChild }
{}

/// If a query binds, its written WHERE is true of a pair exactly if all conditions of the bound query hold.
pub fn child_where_holds_as_bound()
    ensures { ChildWhereHoldsAsBound }
{}
