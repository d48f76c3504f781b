//! The text that explains a script: the block of each query, by its plan.

ghost use Rattle.session_script.specs.Views.{query_lines};
ghost use Rattle.sky_io.specs.Sinks.{Wrote};
ghost use Rattle.transcript_rules.specs.Explained.{explain_block, explained};
ghost use Rattle.czar.specs.Plans.{ArePlans, IsPlanned, PlanFor};

use crate::plan::Plan;
use crate::world::World;
use answer_rules::Rewritten;
use answer_text::{Blocks, Explained, put_blocks, put_explain, put_refusal};
use scan_rules::ChunkSet;
use session_script::Script;
use sky_io::{Put, Sink};
use sql_tree::Query;

/// Writes the block that explains a query that can be run; `text` is its line.
fn put_planned<K: Sink>(
    sink: &mut K,
    world: &World<'_>,
    number: u32,
    text: &[u8],
    head: &Query,
    query: &Rewritten,
    chunks: &ChunkSet,
) -> Put
    requires { IsPlanned world.now.plan world.now.rows text.now head.now query.now chunks.now }
    ensures { Wrote (K.state sink.old) (K.state sink.new)
        (explain_block world.now.plan world.now.rows number text.now) result }
{
    let schema = world.rows().schema();
    let shown = Explained {
        head,
        schema,
        query,
        chunks,
    };
    put_explain(sink, number, &shown)
}

/// Writes the block that explains a query with this plan; `text` is its line.
fn put_plan<K: Sink>(sink: &mut K, world: &World<'_>, number: u32, text: &[u8], plan: &Plan) -> Put
    requires { PlanFor world.now.plan world.now.rows text.now plan.now }
    ensures { Wrote (K.state sink.old) (K.state sink.new)
        (explain_block world.now.plan world.now.rows number text.now) result }
{
    match plan {
        Plan::Planned {
            head,
            query,
            chunks,
        } => put_planned(sink, world, number, text, head, query, chunks),
        Plan::Refused(why) => put_refusal(sink, number, why, text),
    }
}

/// A script whose queries have these plans, over a world.
#[derive(Drop)]
struct Explanation<'a, 't> {
    world: &'a World<'a>,
    script: &'a Script<'t>,
    plans: &'a [Plan],
}

impl<'a, 't> Blocks for Explanation<'a, 't> {
    ghost use Rattle.session_script.specs.Views.{query_lines};
    ghost use Rattle.transcript_rules.specs.Explained.{explain_blocks_of};
    ghost use Rattle.czar.specs.Plans.{ArePlans};

    ghost blocks = { λ t. explain_blocks_of t.world.now.plan t.world.now.rows t.script.now };

    ghost fits = { λ t. ArePlans t.world.now.plan t.world.now.rows (query_lines t.script.now) t.plans.now };

    fn put_block<K: Sink>(&self, sink: &mut K, place: u32) -> Put {
        let _ = self.script.queries();
        let plans = self.plans;
        let number = place + 1;
        put_plan(
            sink,
            self.world,
            number,
            self.script.text_of(number),
            &plans[place as usize],
        )
    }
}

/// Writes the text that explains a script. Does not allocate.
pub fn put_explained<K: Sink>(
    sink: &mut K,
    world: &World<'_>,
    script: &Script<'_>,
    plans: &[Plan],
) -> Put
    requires plans { ArePlans world.now.plan world.now.rows (query_lines script.now) plans.now }
    ensures { Wrote (K.state sink.old) (K.state sink.new)
        (explained world.now.plan world.now.rows script.now) result }
{
    let explanation = Explanation {
        world,
        script,
        plans,
    };
    put_blocks(sink, &explanation, script.queries())
}
