//! A value that only grows, by entries that each carry the number of a participant.
ghost use Rattle.std.specs.Prelude.{◌≡◌, ℕ, ◌<◌, ◌^◌, List, length};

/// A value with a history: a list of entries that grows only at its end.
pub trait Lineage {
    /// The type of the root, the constant that the value depends on.
    type Root;

    /// The type of an entry.
    type Entry;

    /// The constant that the value depends on from its start.
    ghost root: { Self → Self.Root };

    /// The history: the entries so far, oldest first.
    ghost past: { Self → List Self.Entry };

    /// The number of the participant that an entry carries.
    ghost seat_of: { Self.Entry → ℕ };

    /// The length of the history, if it is below 2^62. Does not allocate.
    fn past_len(&self) -> u64
        ensures { length (past self.now) < 2 ^ 62 → result ≡ length (past self.now) };
}
