//! The lines of a text, one by one.
ghost use Rattle.std.specs.Prelude.{◌≡◌, ◌≤◌, ◌==◌, length};
ghost use Rattle.std.specs.Iterator.{YieldsFirstBy, item_count};
ghost use Rattle.std.specs.Str.Lines.{strip_carriage_return};
ghost use Rattle.std.specs.List.{list_all, position};
ghost use Rattle.text_rules.specs.Lines.{begins_with_hash, is_note, is_space_or_tab, lines_of};
ghost use Rattle.text_rules.specs.declared.limits.TheConstants.{TEXT_MOST};
ghost use Rattle.sky_text.specs.LineItems.{line_of};

use std::marker::Model;

/// A line of a text.
#[derive(Clone, Copy, Debug, PartialEq, Eq)]
pub struct Line<'a> {
    /// Its number, from 1.
    pub number: u32,
    /// Its text, without the end of the line.
    pub text: &'a [u8],
}

/// The lines that are left of a text, in order.
#[derive(Drop)]
pub struct Lines<'a> {
    rest: &'a [u8],
    number: u32,
}

impl<'a> Model for Lines<'a> {
    ghost use Rattle.std.specs.Prelude.{◌+◌, ◌≤◌, List, length};
    ghost use Rattle.std.specs.Str.Lines.{lines};
    ghost use Rattle.text_rules.specs.Lines.{Line as TextLine, numbered};
    ghost use Rattle.text_rules.specs.declared.limits.TheConstants.{TEXT_MOST};

    ghost Value = { List TextLine };

    ghost view = { λ l. numbered l.number (lines l.rest.now) };

    ghost invariant = { λ l. l.number + length l.rest.now ≤ TEXT_MOST + 1 };
}

impl<'a> Lines<'a> {
    /// The lines of a text of at most 2^29 bytes. Does not allocate.
    pub fn new(text: &'a [u8]) -> Lines<'a>
        requires { length text.now ≤ TEXT_MOST }
        ensures { result ≡ lines_of text.now }
    {
        Lines {
            rest: text,
            number: 1,
        }
    }
}

// The position of the first line feed, if there is one.
fn end_of_line(text: &[u8]) -> Option<usize>
    ensures { result ≡ position (λ b. b == 10) text.now }
{
    text.iter().position(|b| *b == b'\n')
}

// A line without one carriage return at its end.
fn without_return(line: &[u8]) -> &[u8]
    ensures { result.now ≡ strip_carriage_return line.now }
{
    match line {
        [front @ .., b'\r'] => front,
        _ => line,
    }
}

impl<'a> Iterator for Lines<'a> {
    type Item = Line<'a>;

    ghost next_gives = { YieldsFirstBy line_of (λ s. s) };

    ghost remaining = { item_count (λ s. s) };

    #[tactic(auto, using(crate::proofs::LineEnds::line_found, crate::proofs::LineEnds::line_last))]
    fn next(&mut self) -> Option<Line<'a>> {
        if self.rest.is_empty() {
            return None;
        }
        let number = self.number;
        self.number += 1;
        match end_of_line(self.rest) {
            Some(end) => {
                let text = without_return(&self.rest[..end]);
                self.rest = &self.rest[end + 1..];
                Some(Line { number, text })
            }
            None => {
                let text = self.rest;
                self.rest = &[];
                Some(Line { number, text })
            }
        }
    }
}

// Whether a line is spaces and tabs alone. An empty line is.
fn is_blank(text: &[u8]) -> bool
    ensures { result ≡ list_all is_space_or_tab text.now }
{
    text.iter().all(|b| *b == b' ' || *b == b'\t')
}

// Whether the first byte of a line is `#`.
fn begins_with_hash(text: &[u8]) -> bool
    ensures { result ≡ begins_with_hash text.now }
{
    matches!(text, [b'#', ..])
}

/// Whether the line is a comment line, which is skipped: it is spaces and tabs alone, or its first byte is `#`. Does
/// not allocate.
pub fn is_note(text: &[u8]) -> bool
    ensures { result ≡ is_note text.now }
{
    is_blank(text) || begins_with_hash(text)
}
