//! Runs the parts of a turn: a record arrives at a port, and then packets in rings are served.
ghost use Rattle.std.specs.Prelude.{◌≡◌, ℕ, ◌+◌, ◌*◌, ◌^◌, ◌<◌, ◌≤◌, Bool, List, length, IsTrue, IsFalse, IfSome};
ghost use Rattle.dp_pcap.specs.declared.format.TheConstants.{MAX_RECORD};
ghost use Rattle.dp_model.specs.Limits.{max_ring_runs};
ghost use Rattle.dp_model.specs.Runs.{Serves, Consumed, runs_of};
ghost use Rattle.dp_model.specs.Safety.{IsPipeline, KeepsSafe};
ghost use Rattle.dp_engine.specs.Outcomes.{outcome_of, max_steps};
ghost use Rattle.dp_engine.specs.Tallies.{packet_count};
ghost use Rattle.dp_engine.specs.Serving.{ArrivesAt, ServesOne, Rests, WatchesArrival, WatchesOne, WatchesServing};

use crate::compiled_programs::CompiledPrograms;
use crate::context::Context;
use crate::engine::Outcome;
use crate::machine::Machine;
use crate::run::NodeRun;
use crate::view::View;
use crate::watch::Watch;
use dp_model::Entry;

// The maximum number of node runs of a turn on packets in rings.
const MAX_RING_RUNS: u8 = 32;

const NO_RUN: NodeRun = NodeRun { steps: 0, cuts: 0 };

// Whether a record needs more segments than its port allows. A port allows one, so a record that fits into one is not compared.
#[inline(always)]
fn is_oversize(needed: usize, segs: u32) -> bool
    requires { 1 ≤ segs }
    ensures over { IsTrue result → segs < needed }
    ensures fits { IsFalse result → needed ≤ segs }
{
    needed > 1 && needed > segs as usize
}

// Receives or drops a record at a port, and runs the port's node on it if it is received.
#[inline(always)]
pub(crate) fn arrive<K: CompiledPrograms, W: Watch>(
    context: &Context<K>,
    m: &mut Machine,
    port: u8,
    bytes: &[u8],
    watch: &mut W,
) -> (Outcome, NodeRun)
    requires exists { port < length context.now.setting.env.ports }
    requires size { length bytes.now ≤ MAX_RECORD }
    requires rests { Rests context.now m.old }
    requires few { m.old.state.world.calls + max_steps + 1 < 2 ^ 64 }
    requires few_cuts { m.old.state.world.cuts + 1 < 2 ^ 64 }
    ensures arrives { (answers : List Bool) × ArrivesAt context.now port bytes.now m.old.state.world (outcome_of result.0) answers m.new.state.world }
    ensures took { Consumed m.old.state.world m.new.state.world result.1.steps result.1.cuts }
    ensures few_steps { result.1.steps ≤ runs_of (outcome_of result.0) * max_steps }
    ensures few_cuts { result.1.cuts ≤ 1 }
    // There is one call for the record, and at most one for each step.
    ensures calls { m.new.state.world.calls ≤ m.old.state.world.calls + max_steps + 1 }
    ensures packets { packet_count m.new.state + m.old.state.world.calls ≤ packet_count m.old.state + m.new.state.world.calls }
    ensures rests { Rests context.now m.new }
    ensures frames { m.new.frames ≡ m.old.frames }
    ensures watched { WatchesArrival W.sees watch.old watch.new context.now port bytes.now m.old.state.world (outcome_of result.0) m.new.state.world }
    ensures pipeline { IsPipeline context.now.setting context.now.nodes }
    ensures safe { KeepsSafe context.now.setting context.now.nodes }
{
    let setting = context.setting();
    let spec = setting.env().ports()[usize::from(port)];
    if is_oversize(m.needed(spec.pool, bytes.len()), spec.segs) {
        return (Outcome::Oversize, NO_RUN);
    }
    if !m.receive(setting, spec.pool, bytes, port) {
        return (Outcome::NoBuffer, NO_RUN);
    }
    watch.begin(Entry::Port(port), View::of(m));
    let program = context.port_program(port);
    (Outcome::Got, program.run(m, setting, watch))
}

// Runs the lowest non-empty ring's program on its front packet, if there is such a ring.
#[inline(always)]
fn serve_one<K: CompiledPrograms, W: Watch>(
    context: &Context<K>,
    m: &mut Machine,
    watch: &mut W,
) -> Option<NodeRun>
    requires rests { Rests context.now m.old }
    requires few { m.old.state.world.calls + max_steps < 2 ^ 64 }
    requires few_cuts { m.old.state.world.cuts + 1 < 2 ^ 64 }
    ensures serves { ServesOne context.now m.old.state.world result m.new.state.world }
    ensures few_steps { IfSome result (λ r. (r.steps ≤ max_steps) × (r.cuts ≤ 1)) }
    ensures calls { m.new.state.world.calls ≤ m.old.state.world.calls + max_steps }
    ensures packets { packet_count m.new.state + m.old.state.world.calls ≤ packet_count m.old.state + m.new.state.world.calls }
    ensures rests { Rests context.now m.new }
    ensures frames { m.new.frames ≡ m.old.frames }
    ensures watched { WatchesOne W.sees watch.old watch.new context.now m.old.state.world result m.new.state.world }
{
    let ring = m.take_waiting()?;
    let setting = context.setting();
    watch.begin(Entry::Ring(ring), View::of(m));
    let program = context.ring_program(ring);
    Some(program.run(m, setting, watch))
}

/// Counts of a turn's ring runs.
#[derive(Clone, Copy)]
pub(crate) struct Served {
    /// Runs, at most 32.
    pub runs: u8,
    /// How many instructions they ran.
    pub steps: u32,
    /// How many of them were cut.
    pub cuts: u8,
}

// Runs the lowest non-empty ring's program on its front packet, up to 32 times.
#[inline(always)]
pub(crate) fn serve<K: CompiledPrograms, W: Watch>(
    context: &Context<K>,
    m: &mut Machine,
    watch: &mut W,
) -> Served
    requires rests { Rests context.now m.old }
    requires few { m.old.state.world.calls + max_ring_runs * max_steps < 2 ^ 64 }
    requires few_cuts { m.old.state.world.cuts + max_ring_runs < 2 ^ 64 }
    ensures serves { (answers : List Bool) × Serves context.now.setting context.now.nodes.rings max_ring_runs m.old.state.world
        answers result.runs m.new.state.world }
    ensures took { Consumed m.old.state.world m.new.state.world result.steps result.cuts }
    ensures few_runs { result.runs ≤ max_ring_runs }
    ensures few_steps { result.steps ≤ result.runs * max_steps }
    ensures few_cuts { result.cuts ≤ max_ring_runs }
    ensures calls { m.new.state.world.calls ≤ m.old.state.world.calls + max_ring_runs * max_steps }
    ensures packets { packet_count m.new.state + m.old.state.world.calls ≤ packet_count m.old.state + m.new.state.world.calls }
    ensures rests { Rests context.now m.new }
    ensures frames { m.new.frames ≡ m.old.frames }
    ensures watched { WatchesServing W.sees watch.old watch.new context.now m.old.state.world result.runs m.new.state.world }
{
    let mut served = Served {
        runs: 0,
        steps: 0,
        cuts: 0,
    };
    // Counted down: a test for zero needs no comparison.
    let mut left = MAX_RING_RUNS;
    while left != 0 {
        left -= 1;
        let Some(NodeRun { steps, cuts }) = serve_one(context, m, watch) else {
            return served;
        };
        served.runs += 1;
        served.steps += steps;
        served.cuts += cuts;
    }
    served
}
