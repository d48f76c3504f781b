//! What a text is: a query, or its first fault.
use crate::told::put_number;
use sky_io::{Put, Sink, Stop};
use sql_print::put_query;
use sql_reader::{SqlFault, read};
use sql_tree::Query;
use std::alloc::Global;
use text_rules::limits::QUERY_TEXT_MOST;

// Writes a fault, with the byte that it is at.
fn put_fault<K: Sink>(sink: &mut K, fault: SqlFault) -> Put {
    match fault {
        SqlFault::BadByte { place } => put_number(sink, b"bad byte ", i128::from(place)),
        SqlFault::Literal { place } => put_number(sink, b"number too large ", i128::from(place)),
        SqlFault::TooMany => sink.put(b"too many tokens"),
        SqlFault::Depth { place } => put_number(sink, b"brackets too deep ", i128::from(place)),
        SqlFault::Syntax => sink.put(b"not a query"),
    }
}

// Writes `query`, or with `prints` the printed text.
fn put_read<K: Sink>(sink: &mut K, query: &Query, prints: bool) -> Put {
    if prints {
        put_query(sink, query)
    } else {
        sink.put(b"query")
    }
}

// Writes what was read of a text. The result is borrowed here, so that its tree is dropped in one place.
fn put_answer<K: Sink>(sink: &mut K, answer: &Result<Query, Stop<SqlFault>>, prints: bool) -> Put {
    match answer {
        Ok(query) => put_read(sink, query, prints),
        Err(Stop::Memory) => sink.put(b"out of memory"),
        Err(Stop::Bad(fault)) => put_fault(sink, *fault),
    }
}

/// Writes what a text is: `query`, or with `prints` its printed text, or its first fault.
pub(crate) fn put_text<K: Sink>(sink: &mut K, alloc: Global, text: &[u8], prints: bool) -> Put {
    if text.len() > QUERY_TEXT_MOST {
        return sink.put(b"too long");
    }
    let answer = read(alloc, text);
    let put = put_answer(sink, &answer, prints);
    drop(answer);
    put
}
