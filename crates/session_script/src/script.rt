//! A script: its text and its steps.
ghost use Rattle.std.specs.Prelude.{◌≡◌, ◌≤◌, ◌<◌, ◌+◌, [], ◌∷◌, ◌++◌, length, vec_len, vec_capacity};
ghost use Rattle.std.specs.Prelude.{IfOk, IfErr, OnOk, OnErr, Ok};
ghost use Rattle.text_rules.specs.declared.limits.TheConstants.{QUERIES_MOST, QUERY_TEXT_MOST, TEXT_MOST};
ghost use Rattle.sky_text.specs.LineItems.{line_of};
ghost use Rattle.session_script.specs.Answers.{Adds, StopsBy, after_end};
ghost use Rattle.session_script.specs.Laws.{NumberedFrom};
ghost use Rattle.session_script.specs.Scripts.{query_count, query_spans, query_text, script_of, step_of};

use crate::fault::ScriptFault;
use crate::line_step::step_of;
use crate::step::Step;
use sky_io::Stop;
use sky_text::{Line, Lines};
use sql_token::Span;
use std::alloc::Global;
use std::marker::Model;

/// A script that was read, borrowing the text that it was read from.
#[derive(Drop)]
pub struct Script<'a> {
    text: &'a [u8],
    steps: Vec<Step>,
    queries: Vec<Span>,
}

impl<'a> Model for Script<'a> {
    ghost use Rattle.std.specs.Prelude.{◌≡◌, ◌≤◌, All, length};
    ghost use Rattle.session_script.specs.Scripts.{query_spans};
    ghost use Rattle.session_script.specs.Views.{IsLine, ScriptView};
    ghost use Rattle.session_script.specs.Laws.{NumberedFrom};
    ghost use Rattle.text_rules.specs.declared.limits.TheConstants.{QUERIES_MOST};

    ghost Value = { ScriptView };

    ghost view = { λ s. record { text = s.text.now; steps = s.steps.items } };

    ghost invariant = { λ s. (s.queries.items ≡ query_spans s.steps.items)
        × All (IsLine (length s.text.now)) s.queries.items
        × (length s.queries.items ≤ QUERIES_MOST)
        × NumberedFrom 0 s.steps.items };
}

// The position after the end of a line whose text ends at a position.
fn after_end(text: &[u8], end: usize) -> usize
    requires { end ≤ TEXT_MOST }
    ensures { result ≡ after_end text.now end }
{
    match text.get(end) {
        Some(b'\r') => end + 2,
        _ => end + 1,
    }
}

// Appends the span of a query. Another step has none.
fn put_span(queries: &mut Vec<Span>, step: Step)
    requires { vec_len queries.old < vec_capacity queries.old }
    ensures { queries.new.items ≡ queries.old.items ++ query_spans (step ∷ []) }
{
    if let Step::Query { span, .. } = step {
        queries.push_reserved(span);
    }
}

// Appends a step, and its span if it is a query. After an error both lists are unchanged.
fn put(steps: &mut Vec<Step>, queries: &mut Vec<Span>, step: Step) -> Result<(), Stop<ScriptFault>>
    ensures steps { OnOk result (steps.new.items ≡ steps.old.items ++ step ∷ []) }
    ensures queries { OnOk result
        (queries.new.items ≡ queries.old.items ++ query_spans (step ∷ [])) }
    ensures memory { IfErr result (λ why. why ≡ Stop.Memory) }
    ensures same { OnErr result
        ((steps.new.items ≡ steps.old.items) × (queries.new.items ≡ queries.old.items)) }
{
    if steps.reserve(1).is_err() || queries.reserve(1).is_err() {
        return Err(Stop::Memory);
    }
    put_span(queries, step);
    steps.push_reserved(step);
    Ok(())
}

impl<'a> Script<'a> {
    fn new(alloc: Global, text: &'a [u8]) -> Script<'a>
        ensures { result ≡ record { text = text.now; steps = [] } }
    {
        Script {
            text,
            steps: Vec::new(alloc),
            queries: Vec::new(alloc),
        }
    }

    // Appends the step of a line that begins at a position.
    fn add(&mut self, place: usize, line: &Line<'_>) -> Result<(), Stop<ScriptFault>>
        requires within { place + length line.now.text.now ≤ length self.old.text }
        requires fits { length self.old.text ≤ TEXT_MOST }
        ensures { Adds (step_of (query_count self.old.steps) place (line_of line.now))
            self.old self.new result }
    {
        match step_of(self.queries.len() as u32, place, line) {
            Err(fault) => Err(Stop::Bad(fault)),
            Ok(None) => Ok(()),
            Ok(Some(step)) => put(&mut self.steps, &mut self.queries, step),
        }
    }

    /// The steps of a text of at most 2^29 bytes, or its first fault. Allocates memory. An allocation failure can take
    /// the place of any result.
    pub fn read(alloc: Global, text: &'a [u8]) -> Result<Script<'a>, Stop<ScriptFault>>
        requires { length text.now ≤ TEXT_MOST }
        ensures text { IfOk result (λ script. script.text ≡ text.now) }
        ensures steps { IfOk result (λ script. script_of text.now ≡ Ok script.steps) }
        ensures fault { IfErr result (StopsBy (script_of text.now)) }
    {
        let mut script = Script::new(alloc, text);
        let mut place = 0;
        for line in Lines::new(text) {
            script.add(place, &line)?;
            place = after_end(text, place + line.text.len());
        }
        Ok(script)
    }

    /// The steps, in the order of their lines. Queries are numbered from 1, and a wait or a cancel names an earlier
    /// one. Does not allocate.
    pub fn steps(&self) -> &[Step]
        ensures steps { result.now ≡ self.now.steps }
        ensures numbered { NumberedFrom 0 self.now.steps }
    {
        self.steps.as_slice()
    }

    /// The number of queries of the script. Does not allocate.
    pub fn queries(&self) -> u32
        ensures count { result ≡ query_count self.now.steps }
        ensures few { result ≤ QUERIES_MOST }
    {
        self.queries.len() as u32
    }

    /// The text of a query, numbered from 1: its line without the end. Does not allocate.
    pub fn text_of(&self, number: u32) -> &'a [u8]
        requires from { 1 ≤ number }
        requires to { number ≤ query_count self.now.steps }
        ensures text { result.now ≡ query_text self.now.steps self.now.text number }
        ensures short { length result.now ≤ QUERY_TEXT_MOST }
    {
        let span = self.queries[number as usize - 1];
        &self.text[span.from as usize..span.to as usize]
    }
}
