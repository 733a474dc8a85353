//! Reports of an engine.
ghost use Rattle.std.specs.Prelude.{◌≡◌, ◌+◌, ◌≤◌, None, length, map, take};
ghost use Rattle.std.specs.List.{AllByRecursion};
ghost use Rattle.dp_model.specs.Machine.{live};
ghost use Rattle.dp_model.specs.Packets.{available};
ghost use Rattle.dp_model.specs.Runs.{between};
ghost use Rattle.dp_engine.specs.Reports.{IsReport, port_report, pool_reports};
ghost use Rattle.dp_engine.specs.Tallies.{refused_of};

use crate::compiled_programs::CompiledPrograms;
use crate::engine::Engine;
use crate::machine::Machine;
use crate::report::{InputState, PoolReport, PortReport, Report, Tallies};
use arrayvec::ArrayVec;
use dp_model::PoolSpec;

// How many numbers of the pattern are at most `calls`.
fn reached(pattern: &[u64], calls: u64) -> u64
    ensures { result ≡ refused_of pattern.now calls }
{
    let mut count = 0u64;
    for n in pattern {
        if *n <= calls {
            count += 1;
        }
    }
    count
}

// The counts of the ports.
fn port_reports(tallies: &[Tallies]) -> ArrayVec<PortReport, 8>
    requires { length tallies.now ≤ 8 }
    ensures { result.items ≡ map (port_report InputState.Open) tallies.now }
{
    let mut ports = ArrayVec::new();
    for t in tallies {
        ports.push(PortReport {
            received: t.received,
            nobuf: t.nobuf,
            oversize: t.oversize,
            sent: t.sent,
            state: InputState::Open,
        });
    }
    ports
}

// The counts of the rings.
fn ring_reports(left: &[u64]) -> ArrayVec<u64, 8>
    requires { length left.now ≤ 8 }
    ensures { result.items ≡ left.now }
{
    let mut rings = ArrayVec::new();
    for n in left {
        rings.push(*n);
    }
    rings
}

// The counts of the pools, between two node runs.
fn pool_reports(machine: &Machine, specs: &[PoolSpec]) -> ArrayVec<PoolReport, 8>
    requires idle { AllByRecursion (λ o. o ≡ None) machine.now.state.packets }
    requires pools { machine.now.pools ≡ specs.now }
    requires few { length specs.now ≤ 8 }
    ensures { result.items ≡ pool_reports (available specs.now (live (between machine.now.state.world))) 0 specs.now }
{
    let mut pools = ArrayVec::new();
    for (k, spec) in specs.iter().enumerate() {
        pools.push(PoolReport {
            free: u64::from(machine.free_buffers(k as u32)),
            count: u64::from(spec.count),
        });
    }
    pools
}

impl<K: CompiledPrograms> Engine<K> {
    /// The counts so far. The states of the inputs are open.
    pub fn report(&self) -> Report
        ensures { IsReport self.now result }
    {
        let env = self.context.env();
        let calls = self.machine.calls();
        Report {
            ports: port_reports(&self.tallies[..env.ports().len()]),
            rings: ring_reports(&self.left[..env.rings().len()]),
            pools: pool_reports(&self.machine, env.pools()),
            calls,
            refused: reached(self.context.pattern(), calls),
            cut: self.machine.cuts(),
        }
    }
}
