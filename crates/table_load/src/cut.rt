//! A text in two, cut after a line feed.
ghost use Rattle.std.specs.Prelude.{◌≡◌, ◌≢◌, ◌<◌, ◌+◌, ◌-◌, ◌≤◌, length, get_or, All, IfSome};
ghost use Rattle.std.specs.Bool.{OnFalse};
ghost use Rattle.csv.specs.Reading.{strip_bom};
ghost use Rattle.table_load.specs.InParts.{AreParts};

use memchr::memchr;

/// The first byte of a byte order mark.
const MARK: u8 = 0xEF;

/// The first byte of a text, and 0 if it is empty.
fn first_byte(text: &[u8]) -> u8
    ensures { result ≡ get_or text.now 0 0 }
{
    if text.is_empty() { 0 } else { text[0] }
}

/// Whether the text may begin with a byte order mark.
#[tactic(auto, using(crate::proofs::Cuts::mark_first))]
pub(crate) fn may_have_mark(text: &[u8]) -> bool
    ensures { OnFalse result (strip_bom text.now ≡ text.now) }
{
    first_byte(text) == MARK
}

/// Whether the text has a double quote.
#[tactic(auto, using(crate::proofs::Cuts::none_found))]
pub(crate) fn has_quote(text: &[u8]) -> bool
    ensures { OnFalse result (All (λ b. b ≢ 34) text.now) }
{
    memchr(b'"', text).is_some()
}

/// The text in two, cut after the line feed at a position.
#[tactic(auto, using(crate::proofs::Cuts::cut_there))]
fn cut_behind(text: &[u8], place: usize) -> (&[u8], &[u8])
    requires there { place < length text.now }
    requires feed { get_or text.now place 0 ≡ 10 }
    ensures { AreParts text.now result.0.now result.1.now }
{
    text.split_at(place + 1)
}

/// The text in two, cut after the first line feed from a position on, or `None` if there is none.
pub(crate) fn cut(text: &[u8], from: usize) -> Option<(&[u8], &[u8])>
    ensures { IfSome result (λ parts. AreParts text.now parts.0.now parts.1.now) }
{
    for place in from..text.len() {
        if text[place] == b'\n' {
            return Some(cut_behind(text, place));
        }
    }
    None
}
