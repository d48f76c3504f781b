//! Records of a text without double quotes and carriage returns: its lines that are not empty, each split at its commas.
//!
//! `csv` reads a byte at a time. Here the end of each field is searched for, 32 bytes at a time, and fields are not copied.
ghost use Rattle.std.specs.Prelude.{◌≡◌, ◌≢◌, ◌+◌, ◌≤◌, ◌<◌, [], IfOk, drop, get_or, length};
ghost use Rattle.std.specs.Bool.{OnFalse, OnTrue};
ghost use Rattle.csv.specs.Machine.{next_record};
ghost use Rattle.csv.specs.Reading.{default_config, strip_bom};
ghost use Rattle.csv.specs.declared.parser.State.TheVariants.{StartRecord};
ghost use Rattle.record_text.specs.PlainText.{EndsAt, IsLine, IsPlain, TookLine, bytes_of};

use memchr::memchr2;
use sky_io::Memory;

/// The first byte of a byte order mark.
const MARK: u8 = 0xEF;

/// Returns the first byte of a text, and 0 if it is empty.
fn first_byte(text: &[u8]) -> u8
    ensures { result ≡ get_or text.now 0 0 }
{
    if text.is_empty() { 0 } else { text[0] }
}

/// Returns whether a text has neither a double quote nor a carriage return.
#[tactic(auto, using(crate::proofs::PlainLines::none_found))]
fn has_lines_alone(text: &[u8]) -> bool
    ensures { OnTrue result (IsPlain text.now) }
{
    memchr2(b'"', b'\r', text).is_none()
}

/// Returns whether the records of a text are its lines: it has no double quote, no carriage return and no byte order mark.
#[tactic(auto, using(crate::proofs::PlainLines::unmarked))]
pub(crate) fn is_plain(text: &[u8]) -> bool
    ensures plain { OnTrue result (IsPlain text.now) }
    ensures unmarked { OnTrue result (strip_bom text.now ≡ text.now) }
{
    first_byte(text) != MARK && has_lines_alone(text)
}

/// Returns what follows the empty lines at the start of a text.
#[tactic(auto, using(crate::proofs::PlainLines::empty_more))]
fn after_empty_lines(text: &[u8]) -> &[u8]
    ensures same { next_record default_config StartRecord [] [] result.now
        ≡ next_record default_config StartRecord [] [] text.now }
    ensures plain { IsPlain text.now → IsPlain result.now }
    ensures first { 0 < length result.now → get_or result.now 0 0 ≢ 10 }
{
    for at in 0..text.len() {
        if text[at] != b'\n' {
            return &text[at..];
        }
    }
    &text[text.len()..]
}

/// Returns the number of bytes before the first comma or line feed, and that of all bytes if there is none.
#[tactic(auto, using(crate::proofs::PlainLines::ends_found, crate::proofs::PlainLines::ends_missing))]
fn field_len(text: &[u8]) -> usize
    ensures { EndsAt text.now result }
{
    match memchr2(b',', b'\n', text) {
        Some(at) => at,
        None => text.len(),
    }
}

/// Returns whether the field of this length is the last of its line.
fn is_last(text: &[u8], len: usize) -> bool
    requires { len ≤ length text.now }
    ensures yes { OnTrue result (len < length text.now → get_or text.now len 0 ≡ 10) }
    ensures there { OnFalse result (len < length text.now) }
    ensures other { OnFalse result (get_or text.now len 0 ≢ 10) }
{
    len == text.len() || text[len] == b'\n'
}

/// Returns what follows the byte at a position, and nothing if there is no such byte.
#[tactic(auto, using(crate::proofs::PlainLines::none_after))]
fn after(text: &[u8], place: usize) -> &[u8]
    requires { place ≤ length text.now }
    ensures { result.now ≡ drop (place + 1) text.now }
{
    if place == text.len() {
        &text[place..]
    } else {
        &text[place + 1..]
    }
}

/// Reads the fields of the first line of a text, and returns what follows the line.
#[tactic(auto, using(crate::proofs::PlainLines::reads_start))]
fn read_fields<'a>(text: &'a [u8], fields: &mut Vec<&'a [u8]>) -> Result<&'a [u8], Memory>
    requires { fields.old.items ≡ [] }
    ensures { IfOk result (λ rest.
        IsPlain text.now → IsLine text.now (bytes_of fields.new.items) rest.now) }
{
    let mut rest = text;
    for turn in 0..u64::MAX {
        let len = field_len(rest);
        fields.push(&rest[..len])?;
        if is_last(rest, len) {
            return Ok(after(rest, len));
        }
        rest = after(rest, len);
    }
    Err(Memory)
}

/// Reads the fields of the first line that is not empty, and returns whether there is one. `rest` is then what follows the
/// line.
#[tactic(auto, using(crate::proofs::PlainLines::no_line))]
pub(crate) fn next_line<'a>(rest: &mut &'a [u8], fields: &mut Vec<&'a [u8]>) -> Result<bool, Memory>
    ensures { IfOk result (λ found. IsPlain rest.old.now
        → TookLine found rest.old.now (bytes_of fields.new.items) rest.new.now) }
{
    let text = after_empty_lines(*rest);
    fields.clear();
    if text.is_empty() {
        return Ok(false);
    }
    *rest = read_fields(text, fields)?;
    Ok(true)
}
