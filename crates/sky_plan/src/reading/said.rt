//! The content of a line of a sky text, before it is validated.
ghost use Rattle.std.specs.Prelude.{◌≡◌, ◌<◌, IfNone, IfSome, length};
ghost use Rattle.sky_rules.specs.SkyWords.{five_said, said_on, version_on, with_overlap};

use crate::reading::numbers::{Numbers, numbers_on};
use std::marker::Model;

/// The version on a first line: `overlap R`, with one overlap for all stripes, or `version 2`, in which each stripe has
/// its own.
#[derive(Drop)]
pub(crate) struct Version {
    pub(crate) shared: Option<i128>,
}

impl Model for Version {
    ghost use Rattle.sky_rules.specs.SkyWords.{Version as VersionSaid};
    ghost use Rattle.sky_plan.specs.Reading.{version_of};

    ghost Value = { VersionSaid };

    ghost view = { λ v. version_of v.shared };
}

/// The numbers of a stripe line, of up to 19 digits each.
#[derive(Drop)]
pub(crate) struct Said {
    pub(crate) z_low: i128,
    pub(crate) chunks: i128,
    pub(crate) columns: i128,
    pub(crate) rows: i128,
    pub(crate) overlap: i128,
}

impl Model for Said {
    ghost use Rattle.sky_rules.specs.SkyWords.{Said as StripeSaid};

    ghost Value = { StripeSaid };

    ghost view = { λ s. record {
      z_low = s.z_low;
      chunks = s.chunks;
      columns = s.columns;
      rows = s.rows;
      overlap = s.overlap;
    } };
}

/// Returns the version that a first line spells.
pub(crate) fn version_on(text: &[u8]) -> Option<Version>
    ensures { result ≡ version_on text.now }
{
    if text == b"version 2".as_slice() {
        return Some(Version { shared: None });
    }
    let numbers = numbers_on(b"overlap", text)?;
    match numbers.as_slice() {
        [r] => Some(Version { shared: Some(*r) }),
        _ => None,
    }
}

/// Returns the numbers of a stripe with its overlap, if there are at most five.
fn with_overlap(version: &Version, mut numbers: Numbers) -> Option<Numbers>
    ensures some { IfSome result (λ all. all ≡ with_overlap version.now numbers) }
    ensures none { IfNone result (5 < length (with_overlap version.now numbers)) }
{
    if let Some(r) = version.shared {
        numbers.push(r)?;
    }
    Some(numbers)
}

/// Returns the stripe that five numbers spell; any other count spells none.
fn five_said(numbers: &[i128]) -> Option<Said>
    ensures { result ≡ five_said numbers.now }
{
    match numbers {
        [z_low, chunks, columns, rows, overlap] => Some(Said {
            z_low: *z_low,
            chunks: *chunks,
            columns: *columns,
            rows: *rows,
            overlap: *overlap,
        }),
        _ => None,
    }
}

/// Returns the numbers of the stripe that a stripe line spells.
pub(crate) fn said_on(version: &Version, text: &[u8]) -> Option<Said>
    ensures { result ≡ said_on version.now text.now }
{
    five_said(with_overlap(version, numbers_on(b"stripe", text)?)?.as_slice())
}
