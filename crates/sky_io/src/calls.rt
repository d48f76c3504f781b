//! Calls that are numbered from 1, some of which are to fail.
ghost use Rattle.std.specs.Prelude.{◌≡◌};
ghost use Rattle.sky_io.specs.Counts.{counted, is_listed};

/// The number of calls so far, and the numbers of those that are to fail.
#[derive(Drop)]
pub(crate) struct Calls {
    pub(crate) made: u64,
    pub(crate) failing: Vec<u64>,
}

impl Calls {
    /// Counts a call and reports whether it is to fail.
    pub(crate) fn next_fails(&mut self) -> bool
        ensures value { result ≡ is_listed self.old.made self.old.failing.items }
        ensures counted { self.new ≡ record self.old { made = counted self.old.made } }
    {
        self.made = self.made.saturating_add(1);
        self.failing.as_slice().contains(&self.made)
    }
}
