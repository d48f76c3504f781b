//! The commands, and the arguments that give them.
ghost use Rattle.std.specs.Prelude.{◌≡◌, ◌≤◌, ◌^◌, [], ◌∷◌, None, Some, IfNone, IfSome};
ghost use Rattle.text_rules.specs.Numbers.{natural};
ghost use Rattle.top_call.specs.declared.limits.TheConstants.{WORD_DIGITS_MOST};
ghost use Rattle.top_call.specs.Words.{IsManned, bytes_of, demo_by, form_of, form_of_five, form_of_four, form_of_six, number_between, task_of, workers_by};
ghost use Rattle.session_rules.specs.declared.limits.TheConstants.{WORKERS_MOST};
ghost use Rattle.top_call.specs.WordForms.{IsWithin, asked_by};

use crate::limits::WORD_DIGITS_MOST;
use crate::task::Task;
use demo_rules::limits::SEED_MOST;
use session_rules::limits::WORKERS_MOST;
use sky_text::read_natural;
use table_rules::limits::ROWS_MOST;

/// The names of the texts of a command on a script.
#[derive(Clone, Copy)]
pub struct ScriptNames<'a> {
    pub sky: &'a str,
    pub catalogue: &'a str,
    pub script: &'a str,
}

/// The names of the texts of a command on a script over objects and their sources.
#[derive(Clone, Copy)]
pub struct SourceNames<'a> {
    pub sky: &'a str,
    pub catalogue: &'a str,
    pub sources: &'a str,
    pub script: &'a str,
}

/// A command, with the names of the texts as the arguments give them.
#[derive(Clone, Copy)]
pub enum Form<'a> {
    /// To report how the rows of a catalogue are distributed over the chunks of a sky plan.
    Load {
        sky: &'a str,
        catalogue: &'a str,
    },
    /// To answer or to explain the queries of a script over them.
    Asks {
        task: Task,
        names: ScriptNames<'a>,
    },
    /// To answer them over the objects of a catalogue and their sources, with the given number of workers.
    AsksSources {
        workers: u32,
        names: SourceNames<'a>,
    },
    /// To check whether a journal is right.
    Check {
        journal: &'a str,
    },
    /// To answer the queries of the demo's script, with the given number of workers. They range over the demo's sky
    /// plan and the given number of objects, drawn from a seed.
    Demo {
        count: u32,
        seed: u32,
        workers: u32,
    },
}

/// Returns the command of the arguments, or `None` if they are no command. Does not allocate.
pub fn read_words(words: &[String]) -> Option<Form<'_>>
    ensures none { IfNone result (form_of (bytes_of words.now) ≡ None) }
    ensures form { IfSome result (λ form. form_of (bytes_of words.now) ≡ Some (asked_by form)) }
    ensures within { IfSome result IsWithin }
{
    match words {
        [word, journal] => read_check(word, journal),
        [word, sky, catalogue] => read_load(word, sky, catalogue),
        [word, second, third, fourth] => read_four(word, second, third, fourth),
        [word, sky, catalogue, script, workers] => {
            read_five(word, sky, catalogue, script, workers)
        }
        [word, sky, catalogue, sources, script, workers] => {
            read_six(word, sky, catalogue, sources, script, workers)
        }
        _ => None,
    }
}

// Returns the command `check JOURNAL`.
fn read_check<'a>(word: &str, journal: &'a str) -> Option<Form<'a>>
    ensures none { IfNone result (form_of (word.now ∷ journal.now ∷ []) ≡ None) }
    ensures form { IfSome result (λ form.
        form_of (word.now ∷ journal.now ∷ []) ≡ Some (asked_by form)) }
    ensures within { IfSome result IsWithin }
{
    if word != "check" {
        return None;
    }
    Some(Form::Check { journal })
}

// Returns the command `load SKY CSV`.
fn read_load<'a>(word: &str, sky: &'a str, catalogue: &'a str) -> Option<Form<'a>>
    ensures none { IfNone result
        (form_of (word.now ∷ sky.now ∷ catalogue.now ∷ []) ≡ None) }
    ensures form { IfSome result (λ form.
        form_of (word.now ∷ sky.now ∷ catalogue.now ∷ []) ≡ Some (asked_by form)) }
    ensures within { IfSome result IsWithin }
{
    if word != "load" {
        return None;
    }
    Some(Form::Load { sky, catalogue })
}

// Returns the command of four arguments: `explain SKY CSV SCRIPT` or `demo COUNT SEED WORKERS`.
fn read_four<'a>(word: &str, second: &'a str, third: &'a str, fourth: &'a str) -> Option<Form<'a>>
    ensures none { IfNone result
        (form_of_four word.now second.now third.now fourth.now ≡ None) }
    ensures form { IfSome result (λ form.
        form_of_four word.now second.now third.now fourth.now ≡ Some (asked_by form)) }
    ensures within { IfSome result IsWithin }
{
    if word == "explain" {
        return Some(Form::Asks {
            task: Task::Explain,
            names: ScriptNames {
                sky: second,
                catalogue: third,
                script: fourth,
            },
        });
    }
    if word != "demo" {
        return None;
    }
    read_demo(second.as_bytes(), third.as_bytes(), fourth.as_bytes())
}

// Returns the command of a demo with these numbers.
fn read_demo<'a>(count: &[u8], seed: &[u8], workers: &[u8]) -> Option<Form<'a>>
    ensures none { IfNone result (demo_by count.now seed.now workers.now ≡ None) }
    ensures form { IfSome result (λ form.
        demo_by count.now seed.now workers.now ≡ Some (asked_by form)) }
    ensures within { IfSome result IsWithin }
{
    let count = read_between(count, 0, ROWS_MOST as u32)?;
    let seed = read_between(seed, 1, SEED_MOST)?;
    let workers = read_between(workers, 0, WORKERS_MOST)?;
    Some(Form::Demo {
        count,
        seed,
        workers,
    })
}

// Returns the number that the argument spells, if it has few enough digits and is between two others.
fn read_between(word: &[u8], least: u32, most: u32) -> Option<u32>
    ensures number { result ≡ number_between least most (natural WORD_DIGITS_MOST word.now) }
    ensures from { IfSome result (λ n. least ≤ n) }
    ensures to { IfSome result (λ n. n ≤ most) }
{
    let n = read_natural(word, WORD_DIGITS_MOST)?;
    if n < u64::from(least) || u64::from(most) < n {
        return None;
    }
    Some(n as u32)
}

// Returns the command of five arguments: `query`, `classes` or `trace`, and SKY CSV SCRIPT WORKERS.
fn read_five<'a>(
    word: &str,
    sky: &'a str,
    catalogue: &'a str,
    script: &'a str,
    workers: &str,
) -> Option<Form<'a>>
    ensures none { IfNone result
        (form_of_five word.now sky.now catalogue.now script.now workers.now ≡ None) }
    ensures form { IfSome result (λ form.
        form_of_five word.now sky.now catalogue.now script.now workers.now ≡ Some (asked_by form)) }
    ensures within { IfSome result IsWithin }
{
    let workers = read_between(workers.as_bytes(), 0, WORKERS_MOST)?;
    let task = read_task(word, workers)?;
    Some(Form::Asks {
        task,
        names: ScriptNames {
            sky,
            catalogue,
            script,
        },
    })
}

// Returns the command `sources SKY CSV SOURCES SCRIPT WORKERS`.
fn read_six<'a>(
    word: &str,
    sky: &'a str,
    catalogue: &'a str,
    sources: &'a str,
    script: &'a str,
    workers: &str,
) -> Option<Form<'a>>
    ensures none { IfNone result (
        form_of_six word.now sky.now catalogue.now sources.now script.now workers.now ≡ None) }
    ensures form { IfSome result (λ form.
        form_of_six word.now sky.now catalogue.now sources.now script.now workers.now
        ≡ Some (asked_by form)) }
    ensures within { IfSome result IsWithin }
{
    if word != "sources" {
        return None;
    }
    let workers = read_between(workers.as_bytes(), 0, WORKERS_MOST)?;
    Some(Form::AsksSources {
        workers,
        names: SourceNames {
            sky,
            catalogue,
            sources,
            script,
        },
    })
}

// Returns the task of the first argument, with a number of workers.
fn read_task(word: &str, workers: u32) -> Option<Task>
    ensures task { result ≡ task_of word.now workers }
    ensures manned { workers ≤ WORKERS_MOST → IfSome result IsManned }
{
    if word == "query" {
        return Some(Task::Answer { workers });
    }
    if word == "classes" {
        return Some(Task::ByClass { workers });
    }
    if word != "trace" {
        return None;
    }
    Some(Task::Trace { workers })
}
