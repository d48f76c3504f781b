//! Reads numbers in decimal, scanning the bytes of each once.
ghost use Rattle.std.specs.Prelude.{◌≡◌, ◌≤◌, length, None, Some, if◌then◌else◌};
ghost use Rattle.std.specs.List.{list_all};
ghost use Rattle.text_rules.specs.Numbers.{int_of, is_digit, natural, value_after, whole_number};
ghost use Rattle.text_rules.specs.declared.limits.TheConstants.{INT_DIGITS_MOST};

use text_rules::limits::INT_DIGITS_MOST;

// The number that at most 19 digits write, or `None` if a byte is no digit.
#[tactic(auto, using(crate::proofs::Digits::more_digits, crate::proofs::Digits::few_digits))]
fn read_digits(text: &[u8]) -> Option<u64>
    requires { length text.now ≤ INT_DIGITS_MOST }
    ensures { result ≡ (if list_all is_digit text.now
        then Some (value_after 0 text.now) else None) }
{
    let mut n: u64 = 0;
    for b in text {
        if !b.is_ascii_digit() {
            return None;
        }
        n = n * 10 + u64::from(*b - b'0');
    }
    Some(n)
}

/// The number that one to `most` digits write, or `None` if the text is something else. Leading zeros are accepted.
/// Does not allocate.
pub fn read_natural(text: &[u8], most: usize) -> Option<u64>
    requires { most ≤ INT_DIGITS_MOST }
    ensures { result ≡ natural most text.now }
{
    if text.is_empty() || text.len() > most {
        return None;
    }
    read_digits(text)
}

/// The number of an optional minus and one to `most` digits, or `None` if the text is something else. Does not
/// allocate.
pub fn read_whole(text: &[u8], most: usize) -> Option<i128>
    requires { most ≤ INT_DIGITS_MOST }
    ensures { result ≡ whole_number most text.now }
{
    match text {
        [] => None,
        [b'-', digits @ ..] => read_natural(digits, most).map(|n| -(n as i128)),
        _ => read_natural(text, most).map(|n| n as i128),
    }
}

/// The number of an optional minus and 1 to 19 digits, or `None` if the text is something else. Does not allocate.
pub fn read_int(text: &[u8]) -> Option<i128>
    ensures { result ≡ int_of text.now }
{
    read_whole(text, INT_DIGITS_MOST)
}
