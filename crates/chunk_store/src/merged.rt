//! A merge of two ascending lists of row numbers. The rows that may be near a subchunk are in two such lists: those of
//! its chunk, and those of the chunk's full overlap.

ghost use Rattle.std.specs.Prelude.{◌≡◌, [], ◌∷◌, IfSome, IfNone};
ghost use Rattle.chunk_store.specs.Merged.{merged, takes_first};

use std::marker::Model;

/// Returns whether the next element is the first list's.
fn takes_first(first: &[u32], second: &[u32]) -> bool
    ensures { result ≡ takes_first first.now second.now }
{
    match (first, second) {
        ([], _) => false,
        (_, []) => true,
        ([x, ..], [y, ..]) => *x < *y,
    }
}

/// The rest of two ascending lists, whose elements are returned in ascending order.
#[derive(Drop)]
pub(crate) struct Merged<'a> {
    first: &'a [u32],
    second: &'a [u32],
}

impl<'a> Model for Merged<'a> {
    ghost use Rattle.std.specs.Prelude.{ℕ, List};
    ghost use Rattle.chunk_store.specs.Merged.{merged};

    ghost Value = { List ℕ };

    ghost view = { λ m. merged m.first.now m.second.now };
}

impl<'a> Merged<'a> {
    /// Creates the merge of all elements of both lists.
    pub(crate) fn new(first: &'a [u32], second: &'a [u32]) -> Merged<'a>
        ensures { result ≡ merged first.now second.now }
    {
        Merged { first, second }
    }

    /// Returns the next element, or `None` if none is left.
    #[tactic(auto, using(crate::proofs::Merging::first_next, crate::proofs::Merging::second_next, crate::proofs::Merging::none_next))]
    pub(crate) fn next(&mut self) -> Option<u32>
        ensures none { IfNone result (self.old ≡ []) }
        ensures some { IfSome result (λ n. self.old ≡ n ∷ self.new) }
    {
        if takes_first(self.first, self.second) {
            let [n, rest @ ..] = self.first else {
                return None;
            };
            self.first = rest;
            Some(*n)
        } else {
            let [n, rest @ ..] = self.second else {
                return None;
            };
            self.second = rest;
            Some(*n)
        }
    }
}
