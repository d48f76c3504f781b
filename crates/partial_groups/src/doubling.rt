//! When an aggregation table is consolidated: each time that it has doubled in length.

ghost use Rattle.partial_groups.specs.Adding.{IsAs};
ghost use Rattle.partial_groups.specs.Groups.{AreAddable};
ghost use Rattle.partial_groups.specs.Sharing.{HaveOwnParts};

use crate::consolidate::consolidate;
use crate::group_cache::GroupCache;
use crate::group_entry::GroupEntry;
use crate::tally::Tally;
use std::alloc::Global;

/// Consolidates an aggregation table that is twice as long as after the last consolidation, and creates new cache
/// entries for it. If memory is short, the next call tries again.
pub(crate) fn consolidate_if_doubled(
    alloc: Global,
    groups: &mut Vec<GroupEntry>,
    tallies: &mut Vec<Tally>,
    cache: &mut GroupCache,
    consolidated: usize,
) -> usize
    requires addable { AreAddable tallies.old.items groups.old.items }
    requires own { HaveOwnParts groups.old.items }
    ensures same { IsAs tallies.old.items groups.old.items tallies.new.items groups.new.items }
    ensures own { HaveOwnParts groups.new.items }
{
    if groups.len() / 2 < consolidated {
        return consolidated;
    }
    match consolidate(alloc, groups, tallies) {
        Ok(()) => with_new_cache(alloc, groups, cache),
        Err(_) => consolidated,
    }
}

/// Creates cache entries for the groups, and returns the number of groups.
fn with_new_cache(alloc: Global, groups: &Vec<GroupEntry>, cache: &mut GroupCache) -> usize {
    *cache = GroupCache::of(alloc, groups);
    groups.len()
}
