//! The line that reports an outcome.
ghost use Rattle.std.specs.Prelude.{◌≡◌, ◌++◌, Some};
ghost use Rattle.sky_io.specs.Sinks.{Wrote};
ghost use Rattle.top_call.specs.Outcomes.{outcome_line, name_in, name_of};
ghost use Rattle.top_call.specs.Words.{Check, form_of, bytes_of, names_from, names_of};

use crate::fault_lines::{put_journal_fault, put_sky_fault, put_table_fault};
use crate::outcome::{Outcome, Which};
use crate::script_lines::put_script_fault;
use crate::words::{Form, ScriptNames, SourceNames, read_words};
use sky_io::{Put, Sink};

/// The line of `Usage`: the commands.
const USAGE: &[u8] =
    b"usage: qserv load SKY CSV; query SKY CSV SCRIPT WORKERS; explain SKY CSV SCRIPT; demo COUNT SEED WORKERS; sources SKY CSV SOURCES SCRIPT WORKERS; trace SKY CSV SCRIPT WORKERS; check JOURNAL; classes SKY CSV SCRIPT WORKERS\n";

/// Writes the line of an outcome with its line feed, and nothing for `Done`. Does not allocate.
pub fn put_outcome<K: Sink>(sink: &mut K, outcome: &Outcome, words: &[String]) -> Put
    ensures { Wrote (K.state sink.old) (K.state sink.new)
        (outcome_line outcome.now (form_of (bytes_of words.now))) result }
{
    match outcome {
        Outcome::Done { .. } => Put::Done,
        Outcome::Usage => sink.put(USAGE),
        Outcome::BadSky { fault } => put_sky_fault(sink, fault),
        Outcome::BadCatalogue { fault } => put_table_fault(sink, b"catalogue", fault),
        Outcome::BadSources { fault } => put_table_fault(sink, b"sources", fault),
        Outcome::BadScript { fault } => put_script_fault(sink, fault),
        Outcome::TooLong { which } => put_named(sink, name_in(words, *which), b": too long\n"),
        Outcome::ShelfFault { which } => put_named(
            sink,
            name_in(words, *which),
            b": cannot be read\n",
        ),
        Outcome::SinkFault { .. } => sink.put(b"output failed\n"),
        Outcome::Memory => sink.put(b"out of memory\n"),
        Outcome::BadJournal { fault } => put_journal_fault(sink, fault),
    }
}

// Returns the name that the arguments give to a text, and the empty name if they give none.
fn name_in(words: &[String], which: Which) -> &str
    ensures { result.now ≡ name_in (form_of (bytes_of words.now)) which }
{
    match read_words(words) {
        None | Some(Form::Demo { .. }) => "",
        Some(Form::Check { journal }) => journal_name(journal, which),
        Some(Form::Load { sky, catalogue }) => name_among(sky, catalogue, "", "", which),
        Some(
            Form::Asks {
                names: ScriptNames {
                    sky,
                    catalogue,
                    script,
                },
                ..
            },
        ) => name_among(sky, catalogue, "", script, which),
        Some(
            Form::AsksSources {
                names: SourceNames {
                    sky,
                    catalogue,
                    sources,
                    script,
                },
                ..
            },
        ) => name_among(sky, catalogue, sources, script, which),
    }
}

// Returns the name of a journal, and the empty name for every other text.
fn journal_name(journal: &str, which: Which) -> &str
    ensures { result.now ≡ name_of (names_of (Check journal.now)) which }
{
    match which {
        Which::Sky | Which::Catalogue | Which::Sources | Which::Script => "",
        Which::Journal => journal,
    }
}

// Returns the name of a text among the four; one that the command lacks has the empty name.
fn name_among<'a>(
    sky: &'a str,
    catalogue: &'a str,
    sources: &'a str,
    script: &'a str,
    which: Which,
) -> &'a str
    ensures { result.now
        ≡ name_of (names_from sky.now catalogue.now (Some sources.now) (Some script.now)) which }
{
    match which {
        Which::Sky => sky,
        Which::Catalogue => catalogue,
        Which::Sources => sources,
        Which::Script => script,
        Which::Journal => "",
    }
}

// Writes a name, and the text after it.
#[tactic(auto, using(sky_io::proofs::Writes::wrote_one, sky_io::proofs::Writes::wrote_two))]
fn put_named<K: Sink>(sink: &mut K, name: &str, rest: &[u8]) -> Put
    ensures { Wrote (K.state sink.old) (K.state sink.new) (name.now ++ rest.now) result }
{
    match sink.put(name.as_bytes()) {
        Put::Failed => Put::Failed,
        Put::Done => sink.put(rest),
    }
}
