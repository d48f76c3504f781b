//! The expression of an item.
ghost use Rattle.std.specs.Prelude.{◌≡◌, option_to_list};
ghost use Rattle.std.specs.Option.{option_copied};
ghost use Rattle.bind_rules.specs.Mentions.{expr_of};

use sql_tree::{Expr, ItemKind};

/// Returns the expression of an item; `COUNT(*)` has none.
pub fn expr_of(what: &ItemKind) -> Option<&Expr>
    ensures { option_to_list (option_copied result) ≡ expr_of what.now }
{
    match what {
        ItemKind::Count => None,
        ItemKind::Plain(e)
        | ItemKind::CountOf(e)
        | ItemKind::Sum(e)
        | ItemKind::Min(e)
        | ItemKind::Max(e)
        | ItemKind::Avg(e) => Some(e),
    }
}
