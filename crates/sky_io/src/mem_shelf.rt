//! A shelf in memory with injected failures.
ghost use Rattle.std.specs.Prelude.{◌≡◌, ◌≢◌, ◌↔◌, []};
ghost use Rattle.sky_io.specs.Shelves.{pairs_of};
ghost use Rattle.sky_io.specs.MemShelves.{shelf_of, new_shelf, Fails, after_fetch, FetchedOf};

use crate::calls::Calls;
use crate::shelf::{Fetch, Shelf, find_text, give, note};
use std::alloc::Global;
use std::marker::Model;

/// Texts in memory. A fetch fails if its number, from 1, is listed, and if no pair has the name.
#[derive(Drop)]
pub struct MemShelf {
    alloc: Global,
    texts: Vec<(String, Vec<u8>)>,
    failed: Vec<String>,
    calls: Calls,
}

impl Model for MemShelf {
    ghost use Rattle.sky_io.specs.Shelves.{names_of, pairs_of};
    ghost use Rattle.sky_io.specs.MemShelves.{MemShelfState};

    ghost Value = { MemShelfState };

    ghost view = { λ s. record {
      texts = pairs_of s.texts.items;
      failed = names_of s.failed.items;
      calls = s.calls.made;
      failing = s.calls.failing.items;
    } };
}

impl MemShelf {
    /// A shelf of these pairs of a name and a text, none of which has been fetched yet. Does not allocate.
    pub fn new(alloc: Global, texts: Vec<(String, Vec<u8>)>, failing: Vec<u64>) -> MemShelf
        ensures { result ≡ new_shelf (pairs_of texts.items) failing.items }
    {
        MemShelf {
            alloc,
            texts,
            failed: Vec::new(alloc),
            calls: Calls { made: 0, failing },
        }
    }
}

impl Shelf for MemShelf {
    ghost state = { shelf_of };

    /// Fetches as every shelf does. A fetch that runs out of memory counts as a call too.
    #[tactic(auto, using(crate::proofs::Fetches::fetch_done, crate::proofs::Fetches::fetch_memory, crate::proofs::Fetches::fetch_failed))]
    fn fetch(&mut self, name: &str, limit: usize, into: &mut Vec<u8>) -> Fetch
        requires { into.old.items ≡ [] }
        ensures fetched { FetchedOf self.old self.new name.now limit into.new.items result }
        ensures fails { result ≢ Fetch.Memory → (result ≡ Fetch.Failed) ↔ Fails self.old name.now }
        ensures after { self.new ≡ after_fetch self.old name.now result }
    {
        let fails = self.calls.next_fails();
        let Ok(noted) = String::from_str(self.alloc, name) else {
            return Fetch::Memory;
        };
        if self.failed.reserve(1).is_err() {
            return Fetch::Memory;
        }
        if fails {
            return note(&mut self.failed, noted);
        }
        match find_text(self.texts.as_slice(), name) {
            Some(text) => give(text, limit, into),
            None => note(&mut self.failed, noted),
        }
    }
}
