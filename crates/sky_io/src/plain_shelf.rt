//! A shelf in memory that never fails.
ghost use Rattle.std.specs.Prelude.{◌≡◌};
ghost use Rattle.sky_io.specs.Shelves.{pairs_of};

use crate::shelf::{Fetch, Shelf, find_text, give};
use std::marker::Model;

/// Texts in memory. A fetch never fails, and a name that no pair has gives the empty text.
#[derive(Drop)]
pub struct PlainShelf {
    texts: Vec<(String, Vec<u8>)>,
}

impl Model for PlainShelf {
    ghost use Rattle.std.specs.Prelude.{ℕ, List};
    ghost use Rattle.sky_io.specs.Shelves.{pairs_of};

    ghost Value = { List (List ℕ × List ℕ) };

    ghost view = { λ shelf. pairs_of shelf.texts.items };
}

impl PlainShelf {
    /// A shelf of these pairs of a name and a text. Does not allocate.
    pub fn new(texts: Vec<(String, Vec<u8>)>) -> PlainShelf
        ensures { result ≡ pairs_of texts.items }
    {
        PlainShelf { texts }
    }
}

impl Shelf for PlainShelf {
    ghost use Rattle.std.specs.Prelude.{Some, []};

    ghost state = { λ texts. record { texts = Some texts; failed = [] } };

    #[tactic(auto, using(crate::proofs::Fetches::fetch_done, crate::proofs::Fetches::fetch_memory))]
    fn fetch(&mut self, name: &str, limit: usize, into: &mut Vec<u8>) -> Fetch {
        match find_text(self.texts.as_slice(), name) {
            Some(text) => give(text, limit, into),
            None => Fetch::Done,
        }
    }
}
