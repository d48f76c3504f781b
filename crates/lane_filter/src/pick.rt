//! The rows that have a value, and the selection vector of those that are left.
ghost use Rattle.std.specs.Prelude.{◌≡◌, ◌≤◌, ◌<◌, ◌^◌, false, length, get_or, take};
ghost use Rattle.lane_filter.specs.Tests.{IsKeptBy, places_of};

/// Clears the mask at each row that has no value. Does not allocate.
pub fn keep_present(present: &[bool], mask: &mut [bool])
    requires { length present.now ≡ length mask.old }
    ensures len { length mask.new ≡ length mask.old }
    ensures each { IsKeptBy (λ k. get_or present.now k false) mask.old mask.new }
{
    for i in 0..present.len() {
        mask[i] = mask[i] & present[i];
    }
}

/// Writes the row numbers at which the mask is true, ascending, to the beginning of `places`, and returns how many
/// there are. What follows them has no meaning. Does not allocate.
pub fn picked(mask: &[bool], places: &mut [u32]) -> usize
    requires few { length mask.now < 2 ^ 32 }
    requires room { length mask.now ≤ length places.old }
    ensures value { take result places.new ≡ places_of mask.now }
    ensures most { result ≤ length mask.now }
    ensures len { length places.new ≡ length places.old }
{
    let mut count = 0usize;
    for i in 0..mask.len() {
        places[count] = i as u32;
        count += usize::from(mask[i]);
    }
    count
}
