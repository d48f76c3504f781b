//! How lines are evaluated.
use sky_io::{Fetch, Shelf};
use sky_plan::SkyPlan;
use std::alloc::Global;
use text_rules::limits::SKY_TEXT_MOST;

/// How lines are evaluated.
#[derive(Drop)]
pub(crate) enum Form {
    /// As queries.
    Read,
    /// As queries, which are printed back.
    Print,
    /// As positions of a sky.
    Place(SkyPlan),
}

// Returns the plan that a file describes.
fn plan_of<S: Shelf>(shelf: &mut S, alloc: Global, name: &str) -> Option<SkyPlan> {
    let mut text = Vec::new(alloc);
    match shelf.fetch(name, SKY_TEXT_MOST, &mut text) {
        Fetch::Done if text.len() <= SKY_TEXT_MOST => SkyPlan::read(alloc, text.as_slice()).ok(),
        _ => None,
    }
}

/// Returns the way of evaluation that the words of a command name, if they name one.
pub(crate) fn form_of<S: Shelf>(shelf: &mut S, alloc: Global, words: &str) -> Option<Form> {
    let mut words = words.split_whitespace();
    let form = words.next()?;
    if form == "read" {
        Some(Form::Read)
    } else if form == "print" {
        Some(Form::Print)
    } else if form == "place" {
        Some(Form::Place(plan_of(shelf, alloc, words.next()?)?))
    } else {
        None
    }
}
