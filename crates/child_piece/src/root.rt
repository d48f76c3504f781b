//! What the pieces of a session over a child table are defined over: a plan of the sky, a catalogue, the sources, and the
//! child queries by their numbers.

ghost use Rattle.std.specs.Prelude.{◌≡◌, ◌<◌, ◌≤◌, ◌++◌, ◌∷◌, [], All, length, OnErr, OnOk};
ghost use Rattle.child_rules.specs.ChildBases.{IsChildBase};
ghost use Rattle.child_rules.specs.Children.{IsChild};
ghost use Rattle.child_piece.specs.ChildRoots.{with_child};
ghost use Rattle.scan_rules.specs.declared.limits.TheConstants.{QUERY_MOST};

use child_rules::ChildBound;
use sky_io::Memory;
use sky_plan::SkyPlan;
use sky_row::Rows;
use source_row::Sources;
use std::alloc::Global;
use std::marker::Model;

/// What the pieces of a session are defined over. It holds references to the plan, the rows and the sources, and owns each
/// child query, with its number from 1 to 255.
#[derive(Drop)]
pub struct ChildRoot<'w> {
    plan: &'w SkyPlan,
    rows: &'w Rows,
    sources: &'w Sources,
    queries: Vec<(u32, ChildBound)>,
}

impl<'w> Model for ChildRoot<'w> {
    ghost use Rattle.std.specs.Coded.{codes};
    ghost use Rattle.sql_bound.specs.contracts.cond.BoundPred as pred;
    ghost use Rattle.sql_bound.specs.contracts.expr.BoundExpr as expr;
    ghost use Rattle.child_rules.specs.ChildBases.{ChildBase, IsChildBase};

    ghost Value = { ChildBase };

    ghost coded = { Prim.hlevel (codes, expr.the_row.coded, pred.the_row.coded) };

    ghost view = { λ r. record {
      plan = r.plan.now;
      rows = r.rows.now;
      table = r.sources.now;
      queries = r.queries.items;
    } };

    ghost invariant = { λ r. IsChildBase (record {
      plan = r.plan.now;
      rows = r.rows.now;
      table = r.sources.now;
      queries = r.queries.items;
    }) };
}

/// Appends a child query with its number. After `Err` nothing has changed.
fn give(queries: &mut Vec<(u32, ChildBound)>, q: u32, query: ChildBound) -> Result<(), Memory>
    ensures given { OnOk result (queries.new.items ≡ queries.old.items ++ (q, query) ∷ []) }
    ensures same { OnErr result (queries.new.items ≡ queries.old.items) }
{
    Ok(queries.push((q, query))?)
}

impl<'w> ChildRoot<'w> {
    /// Creates a root without child queries. Does not allocate.
    pub fn new(
        alloc: Global,
        plan: &'w SkyPlan,
        rows: &'w Rows,
        sources: &'w Sources,
    ) -> ChildRoot<'w>
        ensures { result
            ≡ record { plan = plan.now; rows = rows.now; table = sources.now; queries = [] } }
    {
        let _chunks = plan.chunks();
        let _count = rows.len();
        let _known = sources.len();
        ChildRoot {
            plan,
            rows,
            sources,
            queries: Vec::new(alloc),
        }
    }

    /// Adds a child query under a number above all those in use. Allocates memory for its place. After `Err` nothing has
    /// changed.
    pub fn push(&mut self, q: u32, query: ChildBound) -> Result<(), Memory>
        requires above { All (λ e. e.0 < q) self.old.queries }
        requires from_1 { 1 ≤ q }
        requires to_255 { q ≤ QUERY_MOST }
        requires child { IsChild query.bound }
        ensures given { OnOk result (self.new ≡ with_child self.old q query) }
        ensures same { OnErr result (self.new ≡ self.old) }
    {
        give(&mut self.queries, q, query)
    }

    /// Returns the number of child queries. Does not allocate.
    pub fn len(&self) -> usize
        ensures count { result ≡ length self.now.queries }
        ensures base { IsChildBase self.now }
    {
        self.queries.len()
    }
}
