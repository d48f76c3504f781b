//! Reads the plan of the sky from its text, in one traversal of the lines.
//!
//! Each line that is no comment line is split into its numbers (`numbers.rt`), which spell a version or a stripe
//! (`said.rt`). A stripe is validated by itself and against those before it (`stripes.rt`), and the first fault ends
//! the reading.
ghost use Rattle.std.specs.Prelude.{◌≡◌, ◌≤◌, [], Ok, Err, IfOk, IfErr, length};
ghost use Rattle.text_rules.specs.declared.limits.TheConstants.{TEXT_MOST};
ghost use Rattle.sky_rules.specs.SkyText.{judged_version, sky_of};
ghost use Rattle.sky_rules.specs.Limits.{IsSky};
ghost use Rattle.sky_rules.specs.SkyWords.{version_on};
ghost use Rattle.sky_io.specs.Stops.{IfBad};
ghost use Rattle.sky_plan.specs.Reading.{sky_left, sky_on};

mod lines;
mod numbers;
mod said;
mod stripes;

use crate::plan::SkyPlan;
use crate::reading::lines::PlanLines;
use crate::reading::said::{Version, version_on};
use crate::reading::stripes::{Stripes, is_overlap};
use sky_io::{Memory, Stop};
use sky_rules::SkyFault;
use std::alloc::Global;

impl SkyPlan {
    /// Returns the plan that a sky text of at most 2^29 bytes spells, or its first fault. Allocates memory for the
    /// stripes. If an allocation fails, no memory is kept.
    #[tactic(auto, using(crate::proofs::SkyLines::sky_of_text, crate::proofs::SkyLines::text_within))]
    pub fn read(alloc: Global, text: &[u8]) -> Result<SkyPlan, Stop<SkyFault>>
        requires { length text.now ≤ TEXT_MOST }
        ensures ok { IfOk result (λ plan. sky_of text.now ≡ Ok plan) }
        ensures bad { IfErr result (λ stop. IfBad stop (λ fault. sky_of text.now ≡ Err fault)) }
    {
        match stripes_of(alloc, PlanLines::new(text)) {
            Ok(stripes) => plan_of(alloc, stripes),
            Err(stop) => Err(stop),
        }
    }
}

/// Returns the plan of the stripes.
fn plan_of(alloc: Global, stripes: Stripes) -> Result<SkyPlan, Stop<SkyFault>>
    requires { IsSky (record { stripes = stripes }) }
    ensures ok { IfOk result (λ plan. plan ≡ record { stripes = stripes }) }
    ensures bad { IfErr result (λ stop. stop ≡ Stop.Memory) }
{
    match SkyPlan::of(alloc, stripes.into_vec()) {
        Ok(plan) => Ok(plan),
        Err(Memory) => Err(Stop::Memory),
    }
}

/// Returns the stripes on the lines of a text.
fn stripes_of(alloc: Global, mut lines: PlanLines<'_>) -> Result<Stripes, Stop<SkyFault>>
    ensures ok { IfOk result (λ stripes. sky_on lines.entry ≡ Ok (record { stripes = stripes })) }
    ensures bad { IfErr result (λ stop. IfBad stop (λ fault. sky_on lines.entry ≡ Err fault)) }
{
    let Some(first) = lines.next() else {
        return Err(Stop::Bad(SkyFault::Syntax {
            line: lines.number(),
        }));
    };
    match judged_version(first.number, first.text) {
        Ok(version) => stripes_under(alloc, &version, lines),
        Err(fault) => Err(Stop::Bad(fault)),
    }
}

/// Returns the version on the first line, or its fault.
fn judged_version(number: u32, text: &[u8]) -> Result<Version, SkyFault>
    ensures { result ≡ judged_version number (version_on text.now) }
{
    let Some(version) = version_on(text) else {
        return Err(SkyFault::Syntax { line: number });
    };
    match version.shared {
        Some(r) if !is_overlap(r) => Err(SkyFault::Overlap { line: number }),
        _ => Ok(version),
    }
}

/// Returns the stripes on the lines after the first, of which there is at least one.
#[tactic(auto, using(sky_rules::proofs::Steps::read_line_by_line))]
fn stripes_under(
    alloc: Global,
    version: &Version,
    mut lines: PlanLines<'_>,
) -> Result<Stripes, Stop<SkyFault>>
    ensures ok { IfOk result (λ stripes.
        sky_left version.now lines.entry ≡ Ok (record { stripes = stripes })) }
    ensures bad { IfErr result (λ stop. IfBad stop (λ fault.
        sky_left version.now lines.entry ≡ Err fault)) }
{
    let mut stripes = Stripes::new(alloc);
    while let Some(line) = lines.next() {
        stripes.add(version, line.number, line.text)?;
    }
    if stripes.is_empty() {
        return Err(Stop::Bad(SkyFault::Syntax {
            line: lines.number(),
        }));
    }
    Ok(stripes)
}
