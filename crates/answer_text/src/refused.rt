//! The block of a query that is refused. One function writes one rule of the syntax.
ghost use Rattle.std.specs.Prelude.{◌≡◌, ◌++◌, codes, slice_range};
ghost use Rattle.std.specs.Fmt.{signed_decimal};
ghost use Rattle.sky_io.specs.Sinks.{Wrote};
ghost use Rattle.transcript_rules.specs.Blocks.{number_line};
ghost use Rattle.transcript_rules.specs.RefusalLines.{bind_words, quoted, radius_words, refusal_line, refusal_words};
ghost use Rattle.transcript_rules.specs.RefusalLines.{sql_words, total_words};

use answer_rules::{Radius, TotalOut};
use bind_rules::BindFault;
use column_text::pieces::{put_led_count, put_number_line};
use sky_io::{Put, Sink};
use sky_text::put_int;
use sql_rules::SqlFault;
use sql_token::Span;
use transcript_rules::Refusal;

/// Writes the block of query `number`, which is refused; `text` is its line. Does not allocate.
pub fn put_refusal<K: Sink>(sink: &mut K, number: u32, what: &Refusal, text: &[u8]) -> Put
    ensures { Wrote (K.state sink.old) (K.state sink.new)
        (number_line number ++ refusal_line text.now what.now) result }
{
    match put_number_line(sink, number) {
        Put::Failed => Put::Failed,
        Put::Done => put_refusal_line(sink, what, text),
    }
}

// Writes the line of a refusal.
fn put_refusal_line<K: Sink>(sink: &mut K, what: &Refusal, text: &[u8]) -> Put
    ensures { Wrote (K.state sink.old) (K.state sink.new) (refusal_line text.now what.now) result }
{
    match put_refused(sink, what, text) {
        Put::Failed => Put::Failed,
        Put::Done => sink.put(b"\n"),
    }
}

// Writes the line without its end.
fn put_refused<K: Sink>(sink: &mut K, what: &Refusal, text: &[u8]) -> Put
    ensures { Wrote (K.state sink.old) (K.state sink.new)
        (codes "refused: " ++ refusal_words text.now what.now) result }
{
    match sink.put(b"refused: ") {
        Put::Failed => Put::Failed,
        Put::Done => put_words(sink, what, text),
    }
}

// Writes why the query is refused.
fn put_words<K: Sink>(sink: &mut K, what: &Refusal, text: &[u8]) -> Put
    ensures { Wrote (K.state sink.old) (K.state sink.new) (refusal_words text.now what.now) result }
{
    match what {
        Refusal::Sql(fault) => put_sql_words(sink, fault),
        Refusal::Bind(fault) => put_bind_words(sink, fault, text),
        Refusal::Radius(radius) => put_radius_words(sink, radius),
        Refusal::Total(out) => put_total_words(sink, out),
    }
}

// Writes the fault of a text that is no query.
fn put_sql_words<K: Sink>(sink: &mut K, fault: &SqlFault) -> Put
    ensures { Wrote (K.state sink.old) (K.state sink.new) (sql_words fault.now) result }
{
    match fault {
        SqlFault::BadByte { place } => put_led_count(sink, b"bad byte at ", u64::from(*place)),
        SqlFault::Literal { place } => {
            put_led_count(sink, b"number too large at ", u64::from(*place))
        }
        SqlFault::TooMany => sink.put(b"more than 2048 tokens"),
        SqlFault::Depth { place } => put_led_count(
            sink,
            b"brackets too deep at ",
            u64::from(*place),
        ),
        SqlFault::Syntax => sink.put(b"not a query"),
    }
}

// Returns the part of a text that a span is. If the span goes past the end, the part ends there.
fn part_of(text: &[u8], span: Span) -> &[u8]
    ensures { result.now ≡ quoted text.now span }
{
    let to = text.len().min(span.to as usize);
    let from = to.min(span.from as usize);
    &text[from..to]
}

// Writes words, and a part of the text after them.
fn put_led_part<K: Sink>(sink: &mut K, words: &[u8], text: &[u8], span: Span) -> Put
    ensures { Wrote (K.state sink.old) (K.state sink.new)
        (words.now ++ quoted text.now span) result }
{
    match sink.put(words) {
        Put::Failed => Put::Failed,
        Put::Done => sink.put(part_of(text, span)),
    }
}

// Writes a part of the text, and words after it.
fn put_part_before<K: Sink>(sink: &mut K, text: &[u8], span: Span, words: &[u8]) -> Put
    ensures { Wrote (K.state sink.old) (K.state sink.new)
        (quoted text.now span ++ words.now) result }
{
    match sink.put(part_of(text, span)) {
        Put::Failed => Put::Failed,
        Put::Done => sink.put(words),
    }
}

// Writes what does not fit the schema.
fn put_bind_words<K: Sink>(sink: &mut K, fault: &BindFault, text: &[u8]) -> Put
    ensures { Wrote (K.state sink.old) (K.state sink.new) (bind_words text.now fault.now) result }
{
    match fault {
        BindFault::UnknownName { span } => put_led_part(sink, b"unknown name ", text, *span),
        BindFault::NotGrouped { span } => put_part_before(sink, text, *span, b" is not grouped"),
        BindFault::JoinForm => sink.put(b"join form"),
        BindFault::AreaForm { span } => put_led_part(sink, b"area form ", text, *span),
        BindFault::TooWide => sink.put(b"expression too wide"),
        BindFault::OrderName { span } => put_led_part(sink, b"unknown order key ", text, *span),
    }
}

// Writes a limit on squared chords.
fn put_limit<K: Sink>(sink: &mut K, limit: &i64) -> Put
    ensures { Wrote (K.state sink.old) (K.state sink.new) (signed_decimal limit.now) result }
{
    put_int(sink, i128::from(*limit))
}

// Writes words, and a limit on squared chords after them.
fn put_led_limit<K: Sink>(sink: &mut K, words: &[u8], limit: &i64) -> Put
    ensures { Wrote (K.state sink.old) (K.state sink.new)
        (words.now ++ signed_decimal limit.now) result }
{
    match sink.put(words) {
        Put::Failed => Put::Failed,
        Put::Done => put_limit(sink, limit),
    }
}

// Writes the radius that is asked for, and the one that is allowed, both squared.
fn put_two_radii<K: Sink>(sink: &mut K, radius: &Radius) -> Put
    ensures { Wrote (K.state sink.old) (K.state sink.new)
        (signed_decimal radius.now.asked ++ (codes " above " ++ signed_decimal radius.now.allowed))
        result }
{
    match put_limit(sink, &radius.asked) {
        Put::Failed => Put::Failed,
        Put::Done => put_led_limit(sink, b" above ", &radius.allowed),
    }
}

// Writes that a radius is above the allowed one.
fn put_radius_words<K: Sink>(sink: &mut K, radius: &Radius) -> Put
    ensures { Wrote (K.state sink.old) (K.state sink.new) (radius_words radius.now) result }
{
    match sink.put(b"radius ") {
        Put::Failed => Put::Failed,
        Put::Done => put_two_radii(sink, radius),
    }
}

// Writes a whole number.
fn put_whole<K: Sink>(sink: &mut K, n: &i128) -> Put
    ensures { Wrote (K.state sink.old) (K.state sink.new) (signed_decimal n.now) result }
{
    put_int(sink, *n)
}

// Writes a total, and that it is out of range.
fn put_total<K: Sink>(sink: &mut K, out: &TotalOut) -> Put
    ensures { Wrote (K.state sink.old) (K.state sink.new)
        (signed_decimal out.now.total ++ codes " out of range") result }
{
    match put_whole(sink, &out.total) {
        Put::Failed => Put::Failed,
        Put::Done => sink.put(b" out of range"),
    }
}

// Writes that a total is out of range.
fn put_total_words<K: Sink>(sink: &mut K, out: &TotalOut) -> Put
    ensures { Wrote (K.state sink.old) (K.state sink.new) (total_words out.now) result }
{
    match sink.put(b"total ") {
        Put::Failed => Put::Failed,
        Put::Done => put_total(sink, out),
    }
}
