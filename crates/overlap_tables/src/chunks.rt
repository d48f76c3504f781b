//! The chunks that need a position as overlap.

ghost use Rattle.std.specs.Prelude.{◌≡◌, [], ◌∷◌, ◌++◌, ◌<◌, ◌≤◌, IfErr, IfOk, if◌then◌else◌, length};
ghost use Rattle.sky_vector.specs.Points.{IsAdmissible};
ghost use Rattle.sky_vector.specs.Pos.{point};
ghost use Rattle.sky_rules.specs.Partition.{chunk_count};
ghost use Rattle.overlap_tables.specs.Overlaps.{AddsFront, IsOwn, in_full_overlap, near_others, others_between};

use crate::held::is_held;
use crate::near::in_near;
use crate::stripes::{push_in_stripes, stripes_near};
use sky_io::Memory;
use sky_plan::SkyPlan;
use sky_vector::{Pos, length_ok};
use std::alloc::Global;

/// Returns the numbers of the chunks whose full overlap contains the position, ascending: the position is near them,
/// and not in them. Allocates memory for them.
pub fn near_chunks(alloc: Global, plan: &SkyPlan, p: &Pos) -> Result<Vec<u32>, Memory>
    ensures { IfOk result (λ chunks. chunks.items ≡ near_others plan.now (point p.now)) }
{
    let mut chunks = Vec::new(alloc);
    push_near_chunks(plan, p, &mut chunks)?;
    Ok(chunks)
}

/// Appends the numbers of the chunks whose full overlap contains the position to a list, ascending. Allocates memory
/// for them. If an allocation fails, a prefix of them may have been appended.
pub fn push_near_chunks(plan: &SkyPlan, p: &Pos, into: &mut Vec<u32>) -> Result<(), Memory>
    ensures all { IfOk result (λ _.
        into.new.items ≡ into.old.items ++ near_others plan.now (point p.now)) }
    ensures part { AddsFront into.old.items into.new.items (near_others plan.now (point p.now)) }
{
    if length_ok(p) {
        let stripe = plan.stripe_of(p);
        push_near_others(plan, stripe, plan.chunk_in(stripe, p), p, into)
    } else {
        push_by_test(plan, p, into)
    }
}

/// Appends the numbers of the chunks whose full overlap contains an admissible position to a list, ascending, if the
/// position's own chunk is known. If an allocation fails, a prefix of them may have been appended. The search for their
/// stripes begins at the given stripe. Any will do; the one that contains the position is mostly the one in which they
/// are found.
pub fn push_near_others(
    plan: &SkyPlan,
    stripe: usize,
    own: u32,
    p: &Pos,
    into: &mut Vec<u32>,
) -> Result<(), Memory>
    requires admissible { IsAdmissible (point p.now) }
    requires stripe { stripe < length plan.now.stripes }
    requires own { IsOwn plan.now own (point p.now) }
    ensures all { IfOk result (λ _.
        into.new.items ≡ into.old.items ++ near_others plan.now (point p.now)) }
    ensures part { AddsFront into.old.items into.new.items (near_others plan.now (point p.now)) }
{
    let (from, to) = stripes_near(plan, stripe, p);
    push_in_stripes(plan, own, from, to, p, into)
}

/// Appends the same numbers, by a test of each chunk.
fn push_by_test(plan: &SkyPlan, p: &Pos, into: &mut Vec<u32>) -> Result<(), Memory>
    ensures all { IfOk result (λ _.
        into.new.items ≡ into.old.items ++ near_others plan.now (point p.now)) }
    ensures part { AddsFront into.old.items into.new.items (near_others plan.now (point p.now)) }
{
    for chunk in 0..plan.chunks() {
        push_if(needs(plan, chunk, p), chunk, into)?;
    }
    Ok(())
}

/// Returns whether the full overlap of the chunk contains the position, which may be any.
fn needs(plan: &SkyPlan, chunk: u32, p: &Pos) -> bool
    requires { chunk < chunk_count plan.now }
    ensures { result ≡ in_full_overlap plan.now chunk (point p.now) }
{
    in_near(plan, chunk, p) && !is_held(plan, chunk, p)
}

/// Appends those of the chunks from one number up to but not including another.
pub(crate) fn push_others(
    plan: &SkyPlan,
    own: u32,
    from: u32,
    to: u32,
    p: &Pos,
    into: &mut Vec<u32>,
) -> Result<(), Memory>
    requires own { IsOwn plan.now own (point p.now) }
    requires from { from ≤ to }
    requires to { to ≤ chunk_count plan.now }
    ensures all { IfOk result (λ _.
        into.new.items ≡ into.old.items ++ others_between plan.now (point p.now) from to) }
    ensures part { AddsFront into.old.items into.new.items
        (others_between plan.now (point p.now) from to) }
{
    for chunk in from..to {
        push_if(is_other(plan, own, chunk, p), chunk, into)?;
    }
    Ok(())
}

/// Appends the chunk if it is needed there.
fn push_if(is_needed: bool, chunk: u32, into: &mut Vec<u32>) -> Result<(), Memory>
    ensures all { IfOk result (λ _.
        into.new.items ≡ into.old.items ++ (if is_needed then chunk ∷ [] else [])) }
    ensures none { IfErr result (λ _. into.new.items ≡ into.old.items) }
{
    if is_needed {
        into.push(chunk)?;
    }
    Ok(())
}

/// Returns whether the full overlap of the chunk contains the position, if the chunk that contains the position is
/// known.
#[tactic(auto, using(crate::proofs::Own::other_near))]
fn is_other(plan: &SkyPlan, own: u32, chunk: u32, p: &Pos) -> bool
    requires own { IsOwn plan.now own (point p.now) }
    requires there { chunk < chunk_count plan.now }
    ensures { result ≡ in_full_overlap plan.now chunk (point p.now) }
{
    chunk != own && in_near(plan, chunk, p)
}
