//! The texts of a command, each fetched and read before the next is fetched: sky, catalogue, sources, script.
//!
//! A text is fetched to one byte past its limit: one that has this byte is refused as too long. The raw texts of the
//! sky plan, the catalogue and the sources are dropped before the next is fetched. The store is built before the script is
//! fetched, so a script that arrives late, through a pipe, is answered at once. A script borrows its text, so its text
//! is returned raw, and its owner reads it.
ghost use Rattle.std.specs.Prelude.{◌≡◌, ◌≤◌, ◌^◌, IfOk, IfErr, length, None, Some};
ghost use Rattle.catalogue_load.specs.Catalogue.{catalogue_of};
ghost use Rattle.top_call.specs.Words.{names_from};
ghost use Rattle.top_call.specs.Jobs.{AreTablesOf, IsSurveyOf, tables_of};
ghost use Rattle.top_call.specs.Reached.{IsCatalogueOf, IsSkyOf, IsSourcesOf, limit_of};
ghost use Rattle.top_call.specs.Steps.{AreGiven, IsCatalogueStop, IsFetchFault, IsGiven, IsRead, IsShelfStop};
ghost use Rattle.top_call.specs.Steps.{IsSkyStop, IsSourcesStop, IsSurveyStop, IsWhole, IsWholeStop, OfNamed};

use crate::outcome::{Outcome, Which};
use crate::words::{ScriptNames, SourceNames};
use catalogue_load::load;
use chunk_store::Store;
use sky_io::{Fetch, Shelf, Stop};
use sky_plan::SkyPlan;
use sky_row::Rows;
use source_load::load_sources;
use source_row::Sources;
use std::alloc::Global;
use std::thread::Threads;
use text_rules::limits::{SCRIPT_TEXT_MOST, SKY_TEXT_MOST, TEXT_MOST};

/// Fetches and reads the sky plan and the catalogue of these names, and builds the store of its rows. The given number
/// of threads read and build. Allocates memory. If it stops, the shelf alone explains the outcome.
pub fn fetch_survey<R: Threads + Sync, S: Shelf>(
    alloc: Global,
    rt: &R,
    threads: u32,
    shelf: &mut S,
    sky: &str,
    catalogue: &str,
) -> Result<Store, Outcome>
    ensures ok { IfOk result (λ store. IsRead (IsSurveyOf sky.now catalogue.now store)
        (S.state shelf.old) (S.state shelf.new)) }
    ensures err { IfErr result
        (IsSurveyStop sky.now catalogue.now (S.state shelf.old) (S.state shelf.new)) }
{
    let plan = fetch_sky(alloc, shelf, sky)?;
    match fetch_catalogue(alloc, rt, threads, shelf, catalogue) {
        Ok(rows) => stored(alloc, rt, threads, plan, rows),
        Err(outcome) => {
            drop(plan);
            Err(outcome)
        }
    }
}

/// Fetches the texts of these names, reads the sky plan and the catalogue, and builds the store of its rows. Then it
/// fetches the script, and returns it as its text. The given number of threads read and build. Allocates memory. If it
/// stops, the shelf alone explains the outcome.
pub fn fetch_all<R: Threads + Sync, S: Shelf>(
    alloc: Global,
    rt: &R,
    threads: u32,
    shelf: &mut S,
    names: &ScriptNames<'_>,
) -> Result<(Store, Vec<u8>), Outcome>
    ensures ok { IfOk result (λ given.
        AreGiven names.now.sky.now names.now.catalogue.now names.now.script.now
        given.0 given.1.items (S.state shelf.old) (S.state shelf.new)) }
    ensures err { IfErr result (IsShelfStop
        (names_from names.now.sky.now names.now.catalogue.now None (Some names.now.script.now))
        (S.state shelf.old) (S.state shelf.new)) }
{
    match fetch_survey(alloc, rt, threads, shelf, names.sky, names.catalogue) {
        Err(outcome) => Err(outcome),
        Ok(store) => match fetch_script(alloc, shelf, names.script) {
            Err(outcome) => {
                drop(store);
                Err(outcome)
            }
            Ok(text) => Ok((store, text)),
        },
    }
}

/// Fetches the texts of these names up to that of the source table, reads them, and builds the store of the catalogue's
/// rows before the source table is fetched. The given number of threads read both tables and build. Allocates memory.
/// If it stops, the shelf alone explains the outcome.
pub fn fetch_tables<R: Threads + Sync, S: Shelf>(
    alloc: Global,
    rt: &R,
    threads: u32,
    shelf: &mut S,
    names: &SourceNames<'_>,
) -> Result<(Store, Sources), Outcome>
    ensures ok { IfOk result (λ given. IsRead (AreTablesOf
        names.now.sky.now names.now.catalogue.now names.now.sources.now (tables_of given.0 given.1))
        (S.state shelf.old) (S.state shelf.new)) }
    ensures err { IfErr result (IsShelfStop (names_from names.now.sky.now
        names.now.catalogue.now (Some names.now.sources.now) (Some names.now.script.now))
        (S.state shelf.old) (S.state shelf.new)) }
{
    match fetch_survey(alloc, rt, threads, shelf, names.sky, names.catalogue) {
        Err(outcome) => Err(outcome),
        Ok(store) => match fetch_sources(alloc, rt, threads, shelf, names.sources) {
            Err(outcome) => {
                drop(store);
                Err(outcome)
            }
            Ok(sources) => Ok((store, sources)),
        },
    }
}

/// Fetches the whole of the script's text of this name. Allocates. If it stops, the shelf alone explains the outcome.
pub fn fetch_script<S: Shelf>(alloc: Global, shelf: &mut S, name: &str) -> Result<Vec<u8>, Outcome>
    ensures ok { IfOk result (λ text.
        IsWhole name.now Which.Script text.items (S.state shelf.old) (S.state shelf.new)) }
    ensures err { IfErr result
        (IsWholeStop name.now Which.Script (S.state shelf.old) (S.state shelf.new)) }
{
    fetch_whole(alloc, shelf, name, SCRIPT_TEXT_MOST, Which::Script)
}

/// Fetches the whole of the journal's text of this name. Allocates. If it stops, the shelf alone explains the outcome.
pub fn fetch_journal<S: Shelf>(alloc: Global, shelf: &mut S, name: &str) -> Result<Vec<u8>, Outcome>
    ensures ok { IfOk result (λ text.
        IsWhole name.now Which.Journal text.items (S.state shelf.old) (S.state shelf.new)) }
    ensures err { IfErr result
        (IsWholeStop name.now Which.Journal (S.state shelf.old) (S.state shelf.new)) }
{
    fetch_whole(alloc, shelf, name, TEXT_MOST, Which::Journal)
}

// Returns the store of a catalogue's rows under a plan, built by the given number of threads.
fn stored<R: Threads + Sync>(
    alloc: Global,
    rt: &R,
    threads: u32,
    plan: SkyPlan,
    rows: Rows,
) -> Result<Store, Outcome>
    ensures ok { IfOk result (λ store. store ≡ record { plan = plan; rows = rows }) }
    ensures err { IfErr result (λ outcome. outcome ≡ Outcome.Memory) }
{
    match Store::build(rt, alloc, threads, plan, rows) {
        Ok(store) => Ok(store),
        Err(_) => Err(Outcome::Memory),
    }
}

// Fetches and reads the sky plan.
fn fetch_sky<S: Shelf>(alloc: Global, shelf: &mut S, name: &str) -> Result<SkyPlan, Outcome>
    ensures ok { IfOk result (λ plan. IsRead (OfNamed name.now (λ text. IsSkyOf text plan))
        (S.state shelf.old) (S.state shelf.new)) }
    ensures err { IfErr result (IsSkyStop name.now (S.state shelf.old) (S.state shelf.new)) }
{
    let text = fetch_whole(alloc, shelf, name, SKY_TEXT_MOST, Which::Sky)?;
    match SkyPlan::read(alloc, text.as_slice()) {
        Ok(plan) => Ok(plan),
        Err(Stop::Bad(fault)) => Err(Outcome::BadSky { fault }),
        Err(Stop::Memory) => Err(Outcome::Memory),
    }
}

// Fetches the catalogue, and reads it by the given number of threads.
fn fetch_catalogue<R: Threads + Sync, S: Shelf>(
    alloc: Global,
    rt: &R,
    threads: u32,
    shelf: &mut S,
    name: &str,
) -> Result<Rows, Outcome>
    ensures ok { IfOk result (λ rows. IsRead (OfNamed name.now (λ text. IsCatalogueOf text rows))
        (S.state shelf.old) (S.state shelf.new)) }
    ensures err { IfErr result (IsCatalogueStop name.now (S.state shelf.old) (S.state shelf.new)) }
{
    let text = fetch_whole(alloc, shelf, name, TEXT_MOST, Which::Catalogue)?;
    match load(rt, alloc, threads, text.as_slice()) {
        Ok(rows) => Ok(rows),
        Err(Stop::Bad(fault)) => Err(Outcome::BadCatalogue { fault }),
        Err(Stop::Memory) => Err(Outcome::Memory),
    }
}

// Fetches the source table, and reads it by the given number of threads.
fn fetch_sources<R: Threads + Sync, S: Shelf>(
    alloc: Global,
    rt: &R,
    threads: u32,
    shelf: &mut S,
    name: &str,
) -> Result<Sources, Outcome>
    ensures ok { IfOk result (λ table. IsRead (OfNamed name.now (λ text. IsSourcesOf text table))
        (S.state shelf.old) (S.state shelf.new)) }
    ensures err { IfErr result (IsSourcesStop name.now (S.state shelf.old) (S.state shelf.new)) }
{
    let text = fetch_whole(alloc, shelf, name, TEXT_MOST, Which::Sources)?;
    match load_sources(rt, alloc, threads, text.as_slice()) {
        Ok(sources) => Ok(sources),
        Err(Stop::Bad(fault)) => Err(Outcome::BadSources { fault }),
        Err(Stop::Memory) => Err(Outcome::Memory),
    }
}

// Fetches the whole of a text, if it is within its limit.
fn fetch_whole<S: Shelf>(
    alloc: Global,
    shelf: &mut S,
    name: &str,
    limit: usize,
    which: Which,
) -> Result<Vec<u8>, Outcome>
    requires { limit ≡ limit_of which }
    ensures ok { IfOk result (λ text.
        IsWhole name.now which text.items (S.state shelf.old) (S.state shelf.new)) }
    ensures err { IfErr result
        (IsWholeStop name.now which (S.state shelf.old) (S.state shelf.new)) }
{
    let text = fetch_text(alloc, shelf, name, limit, which)?;
    if text.len() > limit {
        return Err(Outcome::TooLong { which });
    }
    Ok(text)
}

// Fetches a text, up to one byte past its limit.
fn fetch_text<S: Shelf>(
    alloc: Global,
    shelf: &mut S,
    name: &str,
    limit: usize,
    which: Which,
) -> Result<Vec<u8>, Outcome>
    ensures ok { IfOk result (λ text.
        IsGiven name.now limit text.items (S.state shelf.old) (S.state shelf.new)) }
    ensures err { IfErr result
        (IsFetchFault name.now which (S.state shelf.old) (S.state shelf.new)) }
{
    let mut text = Vec::new(alloc);
    match shelf.fetch(name, limit, &mut text) {
        Fetch::Done => Ok(text),
        Fetch::Failed => Err(Outcome::ShelfFault { which }),
        Fetch::Memory => Err(Outcome::Memory),
    }
}
