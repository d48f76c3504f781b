//! Where the groups of a batch may be found in an aggregation table.
//!
//! A batch is searched for in three short loops: they read its cache entries, the groups to which these lead, and the first
//! aggregate states of these groups. A short loop waits for many of its reads at once, and a loop that adds up each group
//! before it searches for the next waits for them one by one.
//!
//! A candidate is not relied on: it is used only if the group at that position has the key.

ghost use Rattle.std.specs.Prelude.{◌+◌, ◌<◌, ◌≤◌, ℕ, length};
ghost use Rattle.partial_groups.specs.declared.candidates.TheConstants.{BATCH};

use crate::group_cache::GroupCache;
use crate::group_entry::GroupEntry;
use crate::tally::Tally;
use group_key::Key;

/// The number of groups that are looked up together.
const BATCH: usize = 64;

/// The candidate of a key that is not found: a position that no aggregation table has.
const NONE: usize = usize::MAX;

/// A position in an aggregation table for each group of a batch.
#[derive(Drop)]
pub(crate) struct Candidates {
    places: [usize; BATCH],
}

impl Candidates {
    /// Creates candidates of which none leads to a group. Does not allocate.
    pub(crate) fn none() -> Candidates {
        Candidates {
            places: [NONE; BATCH],
        }
    }

    /// Returns the position at which the group with this index may be found, if its batch was looked up last.
    pub(crate) fn at(&self, i: usize) -> usize {
        self.places[i % BATCH]
    }

    /// Looks up the batch of groups that begins at this index, if one does. Does not allocate.
    pub(crate) fn look_up(
        &mut self,
        cache: &GroupCache,
        groups: &Vec<GroupEntry>,
        tallies: &Vec<Tally>,
        others: &Vec<GroupEntry>,
        i: usize,
    ) {
        if i % BATCH != 0 {
            return;
        }
        read_entries(&mut self.places, cache, others, i);
        read_groups(&mut self.places, groups, others, i);
        read_states(&mut self.places, groups, tallies);
    }
}

/// Returns the number of groups of the batch that begins at this index, among the given number of groups.
fn batch_len(count: usize, from: usize) -> usize
    ensures there { (j : ℕ) → j < result → from + j < count }
    ensures few { result ≤ BATCH }
{
    count.saturating_sub(from).min(BATCH)
}

/// Makes each candidate the cache entry for its key.
fn read_entries(
    places: &mut [usize; BATCH],
    cache: &GroupCache,
    others: &Vec<GroupEntry>,
    from: usize,
) {
    for j in 0..batch_len(others.len(), from) {
        places[j] = cache.at(&others[from + j].key);
    }
}

/// Keeps the candidates at which a group is that may have the key.
fn read_groups(
    places: &mut [usize; BATCH],
    groups: &Vec<GroupEntry>,
    others: &Vec<GroupEntry>,
    from: usize,
) {
    for j in 0..batch_len(others.len(), from) {
        places[j] = if_alike(groups, places[j], &others[from + j].key);
    }
}

/// Keeps the candidates whose first aggregate state can count one more value.
fn read_states(places: &mut [usize; BATCH], groups: &Vec<GroupEntry>, tallies: &Vec<Tally>) {
    for j in 0..BATCH {
        places[j] = unless_full(groups, tallies, places[j]);
    }
}

/// Returns the position, if the group there may have the key: keys of one number differ if their numbers do.
fn if_alike(groups: &Vec<GroupEntry>, place: usize, key: &Key) -> usize {
    if place < groups.len() && groups[place].key.single_value() == key.single_value() {
        return place;
    }
    NONE
}

/// Returns the position, unless the first aggregate state of the group there counts as many values as it can.
fn unless_full(groups: &Vec<GroupEntry>, tallies: &Vec<Tally>, place: usize) -> usize {
    if place < groups.len() && is_full(tallies, groups[place].from) {
        return NONE;
    }
    place
}

/// Returns whether the aggregate state at the position counts as many values as it can.
fn is_full(tallies: &Vec<Tally>, at: usize) -> bool {
    at < tallies.len() && tallies[at].seen() == u32::MAX
}
