//! The numbers on a line of a sky text.
ghost use Rattle.std.specs.Prelude.{◌≡◌, ◌<◌, [], ◌∷◌, ◌++◌, IfNone, IfSome, length, map};
ghost use Rattle.std.specs.Option.{option_and_then};
ghost use Rattle.text_rules.specs.Numbers.{int_of};
ghost use Rattle.sky_rules.specs.SkyWords.{all_there, numbers_on};
ghost use Rattle.sky_plan.specs.Reading.{at_most_five};

use sky_text::{Pieces, read_int};
use std::marker::Model;

/// At most five numbers.
#[derive(Drop)]
pub(crate) struct Numbers {
    room: [i128; 5],
    len: usize,
}

impl Model for Numbers {
    ghost use Rattle.std.specs.Prelude.{◌≤◌, ℤ, List, take};

    ghost Value = { List ℤ };

    ghost view = { λ n. take n.len n.room };

    ghost invariant = { λ n. n.len ≤ 5 };
}

impl Numbers {
    /// Creates an empty list of numbers.
    fn new() -> Numbers
        ensures { result ≡ [] }
    {
        Numbers {
            room: [0; 5],
            len: 0,
        }
    }

    /// Returns the numbers, in order.
    pub(crate) fn as_slice(&self) -> &[i128]
        ensures { result.now ≡ self.now }
    {
        &self.room[..self.len]
    }

    /// Appends a number, if there are fewer than five; else returns `None`, and nothing changes.
    pub(crate) fn push(&mut self, number: i128) -> Option<()>
        ensures some { IfSome result (λ _. self.new ≡ self.old ++ number ∷ []) }
        ensures fits { IfSome result (λ _. length self.old < 5) }
        ensures full { IfNone result (length self.old ≡ 5) }
    {
        if self.len == 5 {
            return None;
        }
        self.room[self.len] = number;
        self.len += 1;
        Some(())
    }
}

/// Returns the numbers that the words spell, if each spells one and there are at most five.
fn numbers_in(words: Pieces<'_>) -> Option<Numbers>
    ensures { result ≡ option_and_then at_most_five (all_there (map int_of words.entry)) }
{
    let mut words = words;
    let mut numbers = Numbers::new();
    while let Some(word) = words.next() {
        numbers.push(read_int(word)?)?;
    }
    Some(numbers)
}

/// Returns the numbers of the line `KEYWORD NUMBER ..`, if the words after the keyword spell numbers and there are at
/// most five.
pub(crate) fn numbers_on(keyword: &[u8], text: &[u8]) -> Option<Numbers>
    ensures { result ≡ option_and_then at_most_five (numbers_on keyword.now text.now) }
{
    let mut words = Pieces::new(text, b' ');
    if words.next()? == keyword {
        numbers_in(words)
    } else {
        None
    }
}
