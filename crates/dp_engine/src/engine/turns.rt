//! One turn of an engine: a record is received, its port's program runs, then up to 32 programs on packets of rings.
ghost use Rattle.std.specs.Prelude.{◌≡◌, ◌<◌, ◌≤◌, length};
ghost use Rattle.dp_pcap.specs.declared.format.TheConstants.{MAX_RECORD};
ghost use Rattle.dp_model.specs.Runs.{runs_of};
ghost use Rattle.dp_engine.specs.Engines.{max_turns, tallies_at, counted_at, records_of, TakesTurn};
ghost use Rattle.dp_engine.specs.Outcomes.{outcome_of};
ghost use Rattle.dp_engine.specs.Watching.{WatchesTurn};

use crate::compiled_programs::CompiledPrograms;
use crate::engine::{Engine, Outcome, Turn};
use crate::report::Tallies;
use crate::serving::{arrive, serve};
use crate::view::View;
use crate::watch::{Silent, Watch};
use dp_model::budgets_are_as_they_read;

// Counts one record at `port` by its outcome.
fn count(tallies: &mut [Tallies; 8], port: u8, outcome: Outcome)
    requires there { port < 8 }
    requires few { records_of (tallies_at tallies.old port) < max_turns }
    ensures { tallies.new ≡ counted_at port (outcome_of outcome) tallies.old }
{
    match outcome {
        Outcome::Got => tallies[usize::from(port)].received += 1,
        Outcome::NoBuffer => tallies[usize::from(port)].nobuf += 1,
        Outcome::Oversize => tallies[usize::from(port)].oversize += 1,
    }
}

impl<K: CompiledPrograms> Engine<K> {
    /// Takes a turn with a record of at most 262,144 bytes at a port, which must exist: receives it and runs the port's program, or drops it. Then up
    /// to 32 node runs follow, each on the front packet of the lowest ring that has one. An engine takes at most 1,099,511,627,776 turns (2^40). No
    /// node run is ever stuck.
    pub fn turn(&mut self, port: u8, bytes: &[u8]) -> Turn
        requires exists { port < length self.old.setting.env.ports }
        requires limit { self.old.turns < max_turns }
        requires size { length bytes.now ≤ MAX_RECORD }
        ensures { TakesTurn self.old self.new port bytes.now result }
    {
        self.watched_turn(port, bytes, &mut Silent)
    }

    /// Takes a turn, as [`turn`](Engine::turn) does, under a watcher, which is shown the start of each node run, and each instruction after it ran,
    /// in order, and nothing else.
    #[inline(always)]
    pub fn watched_turn<W: Watch>(&mut self, port: u8, bytes: &[u8], watch: &mut W) -> Turn
        requires exists { port < length self.old.setting.env.ports }
        requires limit { self.old.turns < max_turns }
        requires size { length bytes.now ≤ MAX_RECORD }
        ensures taken { TakesTurn self.old self.new port bytes.now result }
        ensures watched { WatchesTurn W.sees watch.old watch.new self.old.setting self.old.nodes port bytes.now self.old.world (outcome_of result.outcome)
            result.runs self.new.world }
    {
        budgets_are_as_they_read();
        self.turns += 1;
        let (outcome, own) = arrive(&self.context, &mut self.machine, port, bytes, watch);
        count(&mut self.tallies, port, outcome);
        let served = serve(&self.context, &mut self.machine, watch);
        Turn {
            outcome,
            runs: runs_of(outcome) + served.runs,
            cuts: own.cuts + served.cuts,
            steps: own.steps + served.steps,
        }
    }

    /// The machine between two turns.
    pub fn view(&self) -> View<'_>
        ensures { result.state.world ≡ self.now.world }
    {
        View::of(&self.machine)
    }
}

// The number of node runs on a record with this outcome.
fn runs_of(outcome: Outcome) -> u8
    ensures value { result ≡ runs_of (outcome_of outcome) }
    ensures bound { result ≤ 1 }
{
    match outcome {
        Outcome::Got => 1,
        Outcome::NoBuffer | Outcome::Oversize => 0,
    }
}
