//! The meaning of a line of a script by itself.
ghost use Rattle.std.specs.Prelude.{◌≡◌};
ghost use Rattle.text_rules.specs.Numbers.{natural};
ghost use Rattle.session_script.specs.declared.limits.TheConstants.{QUERY_DIGITS_MOST};
ghost use Rattle.session_script.specs.Scripts.{command_of, number_after};

use crate::limits::QUERY_DIGITS_MOST;
use sky_text::{is_note, read_natural};

/// What a line asks for by itself, whatever precedes it.
#[derive(Clone, Copy, Debug, PartialEq, Eq)]
pub(crate) enum Command {
    /// Nothing: it is a comment line.
    Note,
    /// `cancel N`
    Cancels(u32),
    /// `wait N`
    Waits(u32),
    /// The query that the line is: any line that is none of the others.
    Asks,
}

// The number of a query, if it has few enough digits.
#[tactic(auto, using(crate::proofs::NineDigits::natural_small))]
fn query_number(text: &[u8]) -> Option<u32>
    ensures { result ≡ natural QUERY_DIGITS_MOST text.now }
{
    let n = read_natural(text, QUERY_DIGITS_MOST)?;
    Some(n as u32)
}

// The number that is the whole rest of the text after a word at its start.
fn number_after(word: &[u8], text: &[u8]) -> Option<u32>
    ensures { result ≡ number_after word.now text.now }
{
    if text.starts_with(word) {
        query_number(&text[word.len()..])
    } else {
        None
    }
}

/// The meaning of a line by itself. Does not allocate.
pub(crate) fn command_of(text: &[u8]) -> Command
    ensures { result ≡ command_of text.now }
{
    if is_note(text) {
        return Command::Note;
    }
    if let Some(number) = number_after(b"cancel ", text) {
        return Command::Cancels(number);
    }
    match number_after(b"wait ", text) {
        Some(number) => Command::Waits(number),
        None => Command::Asks,
    }
}
