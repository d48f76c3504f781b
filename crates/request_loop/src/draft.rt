//! A request while it is read.
ghost use Rattle.std.specs.Prelude.{◌≡◌, ◌++◌, ◌∷◌, ℕ, List, [], true};
ghost use Rattle.request_loop.specs.Drafts.{IsDraft, may_end};
ghost use Rattle.request_loop.specs.Readings.{Adds, IsRequestOf, IsRestOf, Takes};

use crate::line_start::LineStart;
use crate::request::Request;
use std::alloc::Global;
use text_rules::limits::SCRIPT_TEXT_MOST;

/// The most bytes that a draft keeps: a text above the limit, and the line that ends its request.
pub(crate) const DRAFT_MOST: usize = SCRIPT_TEXT_MOST + 3;

/// Why the reading of a draft stopped.
#[derive(Clone, Copy, Debug, PartialEq, Eq)]
pub(crate) enum Stop {
    /// The line was read that ends the request.
    Ended,
    /// The input is at its end.
    Over,
    /// The source failed.
    Failed,
}

/// What was read of a request: its first bytes, and how its current line begins.
#[derive(Drop)]
pub(crate) struct Draft {
    pub(crate) text: Vec<u8>,
    pub(crate) start: LineStart,
    pub(crate) is_spent: bool,
}

impl Draft {
    /// A draft of which nothing was read. Does not allocate.
    #[tactic(auto, using(crate::proofs::Drafting::draft_none))]
    pub(crate) fn new(alloc: Global) -> Draft
        ensures { IsDraft [] result }
    {
        Draft {
            text: Vec::new(alloc),
            start: LineStart::Empty,
            is_spent: false,
        }
    }

    /// Takes the next byte, and reports whether it ends the request. Allocates memory.
    pub(crate) fn take(&mut self, byte: u8) -> Option<Stop>
        ensures { Takes self.old self.new byte result }
    {
        if byte == b'\n' && self.start.may_end() {
            return Some(Stop::Ended);
        }
        self.add(byte);
        None
    }

    // Appends a byte, if there is room for it.
    fn add(&mut self, byte: u8)
        ensures { Adds self.old self.new byte }
    {
        if self.text.len() < DRAFT_MOST && self.text.push(byte).is_err() {
            self.is_spent = true;
        }
        self.start = self.start.after(byte);
    }

    /// Returns the request of a draft whose line ends it. Does not allocate.
    pub(crate) fn ended(self) -> Request
        requires { may_end self.start ≡ true }
        ensures { (read : List ℕ) → IsDraft read self → IsRequestOf (read ++ 10 ∷ []) result }
    {
        let Draft {
            mut text,
            start,
            is_spent,
        } = self;
        if is_spent {
            drop(text);
            return Request::Memory;
        }
        let size = text.len().saturating_sub(start.bytes());
        if size > SCRIPT_TEXT_MOST {
            drop(text);
            return Request::Long;
        }
        text.truncate(size);
        Request::Text(text)
    }

    /// Returns what an input is that ends in a draft. Does not allocate.
    pub(crate) fn over(self) -> Request
        ensures { (read : List ℕ) → IsDraft read self → IsRestOf read result }
    {
        let Draft { text, is_spent, .. } = self;
        if is_spent {
            drop(text);
            return Request::Open;
        }
        let size = text.len();
        drop(text);
        if size > 0 {
            return Request::Open;
        }
        Request::Nothing
    }
}
