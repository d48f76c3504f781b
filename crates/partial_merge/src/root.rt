//! What the pieces of a session are defined over: a plan of the sky, a catalogue, and the chunk queries by their
//! numbers.
//!
//! A root is read by contracts alone, so it has a snapshot of each chunk query in place of a copy. A snapshot has no
//! bytes and borrows nothing.

ghost use Rattle.std.specs.Prelude.{◌≡◌, ◌<◌, ◌≤◌, ◌++◌, ◌∷◌, [], All, length, OnErr, OnOk};
ghost use Rattle.answer_rules.specs.Bases.{IsBase, columns_in};
ghost use Rattle.answer_rules.specs.SoundChunks.{IsSoundChunk};
ghost use Rattle.partial_merge.specs.Roots.{shown, with_query};
ghost use Rattle.scan_rules.specs.declared.limits.TheConstants.{QUERY_MOST};

use answer_rules::ChunkQuery;
use sky_io::Memory;
use sky_plan::SkyPlan;
use sky_row::Rows;
use std::alloc::Global;
use std::marker::Model;
use std::snapshot::Snapshot;

/// What the pieces of a session are defined over. It holds references to the plan and the rows, and the number of each
/// chunk query, from 1 to 255. The chunk queries themselves are visible to contracts alone.
pub struct PieceRoot<'w> {
    plan: &'w SkyPlan,
    rows: &'w Rows,
    queries: Vec<(u32, Snapshot<ChunkQuery>)>,
}

// A derived drop would be proved again in each crate that drops one.
impl Drop for PieceRoot<'_> {
    fn drop(self) {
        let PieceRoot {
            plan,
            rows,
            queries,
        } = self;
    }
}

impl<'w> Model for PieceRoot<'w> {
    ghost use Rattle.std.specs.Coded.{codes};
    ghost use Rattle.sql_bound.specs.contracts.cond.BoundPred as pred;
    ghost use Rattle.sql_bound.specs.contracts.expr.BoundExpr as expr;
    ghost use Rattle.answer_rules.specs.Bases.{Base, IsBase};
    ghost use Rattle.partial_merge.specs.Roots.{shown};

    ghost Value = { Base };

    ghost coded = { Prim.hlevel (codes, expr.the_row.coded, pred.the_row.coded) };

    ghost view = { λ r. record {
      plan = r.plan.now;
      rows = r.rows.now;
      queries = shown r.queries.items (λ s. s.value);
    } };

    ghost invariant = { λ r. IsBase (record {
      plan = r.plan.now;
      rows = r.rows.now;
      queries = shown r.queries.items (λ s. s.value);
    }) };
}

/// Appends the snapshot of a chunk query with its number. After `Err` nothing has changed.
#[tactic(auto, using(crate::proofs::Rooting::shown_more))]
fn give(
    queries: &mut Vec<(u32, Snapshot<ChunkQuery>)>,
    q: u32,
    query: &ChunkQuery,
) -> Result<(), Memory>
    ensures given { OnOk result (shown queries.new.items (λ s. s.value)
        ≡ shown queries.old.items (λ s. s.value) ++ (q, query.now) ∷ []) }
    ensures same { OnErr result (shown queries.new.items (λ s. s.value)
        ≡ shown queries.old.items (λ s. s.value)) }
{
    let snapshot = Snapshot::of(query);
    Ok(queries.push((q, snapshot))?)
}

impl<'w> PieceRoot<'w> {
    /// Creates a root without chunk queries. Does not allocate.
    pub fn new(alloc: Global, plan: &'w SkyPlan, rows: &'w Rows) -> PieceRoot<'w>
        ensures { result ≡ record { plan = plan.now; rows = rows.now; queries = [] } }
    {
        let _chunks = plan.chunks();
        let _count = rows.len();
        PieceRoot {
            plan,
            rows,
            queries: Vec::new(alloc),
        }
    }

    /// Adds a chunk query under a number above all those in use. Allocates memory for the number. After `Err` nothing
    /// has changed.
    pub fn push(&mut self, q: u32, query: &ChunkQuery) -> Result<(), Memory>
        requires above { All (λ e. e.0 < q) self.old.queries }
        requires from_1 { 1 ≤ q }
        requires to_255 { q ≤ QUERY_MOST }
        requires sound { IsSoundChunk (columns_in self.old) query.now }
        ensures given { OnOk result (self.new ≡ with_query self.old q query.now) }
        ensures same { OnErr result (self.new ≡ self.old) }
    {
        give(&mut self.queries, q, query)
    }

    /// Returns the number of chunk queries. Does not allocate.
    #[tactic(auto, using(crate::proofs::Rooting::shown_long))]
    pub fn len(&self) -> usize
        ensures count { result ≡ length self.now.queries }
        ensures base { IsBase self.now }
    {
        self.queries.len()
    }
}
