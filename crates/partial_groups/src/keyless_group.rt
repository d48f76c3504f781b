//! The one group of a query without keys, if it found no rows.

ghost use Rattle.std.specs.Prelude.{◌≡◌, ℕ, All, List, map, OnOk};
ghost use Rattle.answer_rules.specs.Finish.{groups_merged};
ghost use Rattle.answer_rules.specs.Parts.{Part};
ghost use Rattle.partial_groups.specs.Groups.{IsThere, group_of};

use crate::group_entry::GroupEntry;
use group_key::Key;
use sky_io::Memory;
use sql_bound::ColList;

/// Adds the one group of a query without keys, if it found no rows.
pub(crate) fn put_keyless_group(groups: &mut Vec<GroupEntry>, keys: &ColList) -> Result<(), Memory>
    ensures groups { OnOk result ((parts : List Part) → map (group_of parts) groups.new.items
        ≡ groups_merged keys.now (map (group_of parts) groups.old.items)) }
    ensures there { OnOk result ((n : ℕ) → All (IsThere n) groups.old.items
        → All (IsThere n) groups.new.items) }
{
    if keys.len() > 0 || groups.len() > 0 {
        return Ok(());
    }
    let group = GroupEntry {
        key: Key::none(),
        rows: 0,
        from: 0,
        to: 0,
    };
    Ok(groups.push(group)?)
}
