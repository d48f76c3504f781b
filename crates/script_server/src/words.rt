//! The arguments of `serve`.
ghost use Rattle.std.specs.Prelude.{◌≡◌, ◌≤◌, IfNone, IfSome, None, Some};
ghost use Rattle.session_rules.specs.declared.limits.TheConstants.{WORKERS_MOST};
ghost use Rattle.top_call.specs.Words.{bytes_of, workers_by};
ghost use Rattle.script_server.specs.WordForms.{asked_by};
ghost use Rattle.script_server.specs.Words.{words_by, words_of};

use session_rules::limits::WORKERS_MOST;
use sky_text::read_natural;
use top_call::limits::WORD_DIGITS_MOST;

/// A survey to be served, as the arguments give it.
#[derive(Clone, Copy)]
pub(crate) struct ReadWords<'a> {
    pub(crate) sky: &'a str,
    pub(crate) catalogue: &'a str,
    pub(crate) workers: u32,
}

/// Returns the survey that the arguments give, or `None` if they give none. Does not allocate.
pub(crate) fn read_words(words: &[String]) -> Option<ReadWords<'_>>
    ensures none { IfNone result (words_of (bytes_of words.now) ≡ None) }
    ensures some { IfSome result (λ it. words_of (bytes_of words.now) ≡ Some (asked_by it)) }
    ensures within { IfSome result (λ it. it.workers ≤ WORKERS_MOST) }
{
    match words {
        [sky, catalogue, workers] => with_workers(sky, catalogue, workers.as_bytes()),
        _ => None,
    }
}

// Returns the survey of these names, if the number of workers is one.
fn with_workers<'a>(sky: &'a str, catalogue: &'a str, workers: &[u8]) -> Option<ReadWords<'a>>
    ensures none { IfNone result
        (words_by sky.now catalogue.now (workers_by workers.now) ≡ None) }
    ensures some { IfSome result (λ it.
        words_by sky.now catalogue.now (workers_by workers.now) ≡ Some (asked_by it)) }
    ensures within { IfSome result (λ it. it.workers ≤ WORKERS_MOST) }
{
    let workers = read_workers(workers)?;
    Some(ReadWords {
        sky,
        catalogue,
        workers,
    })
}

// Returns the number of workers that the argument spells.
fn read_workers(word: &[u8]) -> Option<u32>
    ensures number { result ≡ workers_by word.now }
    ensures most { IfSome result (λ n. n ≤ WORKERS_MOST) }
{
    let n = read_natural(word, WORD_DIGITS_MOST)?;
    if u64::from(WORKERS_MOST) < n {
        return None;
    }
    Some(n as u32)
}
