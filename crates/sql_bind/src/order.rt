//! The order of a query, with a column or an item's index in place of its key's name.
ghost use Rattle.std.specs.Prelude.{◌≡◌};
ghost use Rattle.std.specs.Option.{option_map};
ghost use Rattle.bind_rules.specs.Binding.{key_of, order_of};
ghost use Rattle.bind_rules.specs.Checks.{alias_place};

use bind_checks::{Columns, alias_place};
use sql_bound::{BoundKey, BoundOrder};
use sql_tree::{Col, OrderBy, Query};

// Binds an order key. An alias is preferred to a column.
fn bound_key<C: Columns>(columns: &C, query: &Query, col: &Col) -> BoundKey
    ensures { result ≡ key_of (C.means columns.now) col.now (alias_place query.now col.now) }
{
    match alias_place(query, col) {
        Some(place) => BoundKey::Item(place),
        None => BoundKey::Column(columns.column(col)),
    }
}

/// Returns the order, if there is one. Does not allocate.
pub(crate) fn bound_order<C: Columns>(columns: &C, query: &Query) -> Option<BoundOrder>
    ensures { result ≡ option_map (order_of (C.means columns.now) query.now) query.now.order }
{
    match &query.order {
        Some(order) => Some(BoundOrder {
            key: bound_key(columns, query, &order.key),
            down: order.down,
        }),
        None => None,
    }
}
