//! The scan of a chunk for a grouped query: the piece of the selected rows, as groups.
//!
//! Callers see one call, `piece_of_groups`, and its piece as the groups of the selected rows. The rows are brought into
//! an order in which rows with the same key are adjacent (`key_order`). The values of the first key column are copied
//! in that order (`prefetched_key`), and the values of the aggregates are computed a column at a time (`arguments`).
//! Adjacent rows with the same key (`runs`) are pushed into the piece as one group (`group_piece`). Without GROUP BY all
//! selected rows are one group (`one_group`). If most rows seem to have a key of their own, the values of the one key
//! column are the piece instead (`ungrouped`, `key_values`). Below: `chunk_filter` for what scans reuse, `column_eval` for columns of
//! values, `partial_merge` for the piece. No conditions.
#![tactic(auto)]

mod arguments;
mod clustering;
pub mod group_piece;
mod key_order;
mod key_values;
mod one_group;
mod packed_key;
mod prefetched_key;
mod radix_partition;
mod runs;
mod states;
mod ungrouped;
