//! Masks: a truth value for each row. Each loop goes over equal slices without a branch.
ghost use Rattle.std.specs.Prelude.{◌≡◌, ◌≤◌, ◌<◌, ◌&&◌, ◌||◌, ℕ, [], false, length, get_or, not, vec_capacity};
ghost use Rattle.column_vectors.specs.Masks.{IsMask};

/// Replaces the mask by its AND with the other mask.
pub fn both(mask: &mut [bool], other: &[bool])
    requires { length other.now ≡ length mask.old }
    ensures { IsMask (length mask.old)
        (λ k. get_or mask.old k false && get_or other.now k false) mask.new }
{
    for i in 0..other.len() {
        mask[i] = mask[i] & other[i];
    }
}

/// Replaces the mask by its OR with the other mask.
pub(crate) fn either(mask: &mut [bool], other: &[bool])
    requires { length other.now ≡ length mask.old }
    ensures { IsMask (length mask.old)
        (λ k. get_or mask.old k false || get_or other.now k false) mask.new }
{
    for i in 0..other.len() {
        mask[i] = mask[i] | other[i];
    }
}

/// Clears the mask at each row at which the other mask is true.
pub(crate) fn without(mask: &mut [bool], other: &[bool])
    requires { length other.now ≡ length mask.old }
    ensures { IsMask (length mask.old)
        (λ k. get_or mask.old k false && not (get_or other.now k false)) mask.new }
{
    for i in 0..other.len() {
        mask[i] = mask[i] & !other[i];
    }
}

/// Copies the mask. `found` is an empty vector that has room for it.
pub fn copied(mask: &[bool], found: Vec<bool>) -> Vec<bool>
    requires empty { found.items ≡ [] }
    requires room { length mask.now ≤ vec_capacity found }
    ensures { result.items ≡ mask.now }
{
    let mut found = found;
    for flag in mask {
        found.push_reserved(*flag);
    }
    found
}
