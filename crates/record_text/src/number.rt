//! The number of a field, read without a branch on its sign.
//!
//! Fields of both signs are in no particular order, so such a branch is mispredicted half of the time. The call is kept
//! out of the loop over the records, which otherwise leaves no register for the digits.
ghost use Rattle.std.specs.Prelude.{◌≡◌, ◌<◌, ◌^◌, IfSome, Some, length, drop};
ghost use Rattle.text_rules.specs.Numbers.{int_of};
ghost use Rattle.record_text.specs.Signs.{has_minus, sign_len, signed};

use sky_text::read_natural;
use text_rules::limits::INT_DIGITS_MOST;

/// Returns whether a text that is not empty begins with a minus.
#[tactic(auto, using(crate::proofs::Signed::minus_first))]
fn has_minus(text: &[u8]) -> bool
    requires { 0 < length text.now }
    ensures { result ≡ has_minus text.now }
{
    text[0] == b'-'
}

/// Returns what follows the minus, if there is one, else the whole text.
#[tactic(auto, using(crate::proofs::Signed::sign_within))]
fn unsigned(text: &[u8], minus: bool) -> &[u8]
    requires { minus ≡ has_minus text.now }
    ensures { result.now ≡ drop (sign_len minus) text.now }
{
    &text[usize::from(minus)..]
}

/// Returns the number with its sign.
fn signed(n: u64, minus: bool) -> i64
    requires { n < 2 ^ 63 }
    ensures { result ≡ signed minus n }
{
    let n = n as i64;
    if minus { -n } else { n }
}

/// Returns the number of an optional minus and 1 to 19 digits, if it is below 2^63 in size. `None` if it is not, or if
/// the text is something else. Does not allocate.
#[inline(never)]
#[tactic(auto, using(crate::proofs::Signed::int_signed))]
pub(crate) fn read_short(text: &[u8]) -> Option<i64>
    ensures { IfSome result (λ z. int_of text.now ≡ Some z) }
{
    if text.is_empty() {
        return None;
    }
    let minus = has_minus(text);
    let n = read_natural(unsigned(text, minus), INT_DIGITS_MOST)?;
    if n < 1 << 63 {
        Some(signed(n, minus))
    } else {
        None
    }
}
