//! The engine: its types, opening it in a region, and finishing it.
ghost use Rattle.std.specs.Prelude.{◌≡◌, ℕ, ◌+◌, ◌<◌, ◌≤◌, List, [], length, slice_get, Some, IfOk, IfErr, OnOk};
ghost use Rattle.dp_model.specs.Packets.{Packet};
ghost use Rattle.dp_engine.specs.Needs.{bytes_needed};
ghost use Rattle.dp_engine.specs.Schemes.{AreNodes};
ghost use Rattle.dp_engine.specs.Engines.{IsOpened, IsAscending, IsFlushed, flushed};
ghost use Rattle.dp_engine.specs.Reports.{IsReport, IsWhole};
ghost use Rattle.dp_engine.specs.Memories.{IsOneFree};

mod drains;
mod pass;
mod reporting;
mod routes;
mod turns;

use crate::compiled_programs::{CompiledPrograms, Nothing};
use crate::context::Context;
use crate::machine::Machine;
use crate::memory::{EngineMemory, Parts};
use crate::queues::Queues;
use crate::report::{NO_TALLIES, Report, Tallies};
use dp_check::Checked;
use dp_lpm::Lpm;
use dp_mbuf::Mbufs;
use dp_model::{Env, Queue};
use dp_region::Region;
pub use pass::Pass;
use std::marker::Model;

/// The outcome of a record: received, or why it was dropped.
#[derive(Clone, Copy, PartialEq, Eq)]
pub enum Outcome {
    /// Received; the port's program ran on it.
    Got,
    /// Dropped: the pattern refused its buffers, or too few were free.
    NoBuffer,
    /// Dropped: it needs more segments than the port takes.
    Oversize,
}

/// What a turn did.
#[derive(Clone, Copy, PartialEq, Eq)]
pub struct Turn {
    /// The outcome of the record.
    pub outcome: Outcome,
    /// The number of node runs: one if the record was received, and up to 32 on packets in rings.
    pub runs: u8,
    /// How many of them were cut.
    pub cuts: u8,
    /// How many instructions they ran.
    pub steps: u32,
}

/// The writer failed.
#[derive(Clone, Copy, PartialEq, Eq)]
pub struct WriteFault {
    /// How many records were written whole before that.
    pub sent: u32,
}

/// The region is smaller than the engine needs. The error returns everything that was handed in.
pub struct OpenFault {
    /// The region that is too small.
    pub region: Region,
    /// The tables, as they were handed in.
    pub tables: Vec<Lpm>,
    /// The checked programs.
    pub nodes: Vec<Checked>,
}

/// An engine: pools of mbufs, rings and transmit lists in one region, tables, and a checked program for each port and ring. `finish` ends it.
/// Programs that are among `K` run as machine code, others are interpreted; nothing else depends on `K`.
pub struct Engine<K: CompiledPrograms = Nothing> {
    context: Context<K>,
    machine: Machine,
    memory: EngineMemory,
    turns: u64,
    tallies: [Tallies; 8],
    left: [u64; 8],
}

impl<K: CompiledPrograms> Model for Engine<K> {
    ghost use Rattle.dp_engine.specs.Engines.{EngineState, engine_of, IsEngine};

    ghost Value = { EngineState };

    ghost view = { λ e. engine_of e.context e.machine e.memory e.turns e.tallies e.left };

    ghost invariant = { λ e. IsEngine e.context e.machine e.memory e.turns e.tallies e.left };
}

impl<K: CompiledPrograms> Engine<K> {
    /// Opens an engine in a region with nothing lent. The tables are as many as the environment has; the checked programs are one for each
    /// port and then one for each ring, each of this environment and its own entry. No allocation call is refused at first. It fails exactly
    /// if the region has fewer bytes than `need` returns; the error returns the region, tables and programs.
    pub fn open(
        region: Region,
        env: &Env,
        tables: Vec<Lpm>,
        nodes: Vec<Checked>,
    ) -> Result<Engine<K>, OpenFault>
        requires lent { region.lent ≡ [] }
        requires tables { length tables.items ≡ env.now.tables }
        requires nodes { AreNodes env.now nodes.items }
        ensures opened { IfOk result (λ e. IsOpened region.home (length region.bytes) env.now tables.items nodes.items e) }
        ensures room { OnOk result (bytes_needed env.now ≤ length region.bytes) }
        ensures refused { IfErr result (λ f. (length region.bytes < bytes_needed env.now) × (f.region ≡ region) × (f.tables ≡ tables) × (f.nodes ≡ nodes)) }
    {
        let (memory, parts) = match EngineMemory::open(region, env) {
            Ok(opened) => opened,
            Err(region) => {
                return Err(OpenFault {
                    region,
                    tables,
                    nodes,
                });
            }
        };
        let Parts {
            pools,
            rings,
            lists,
        } = parts;
        let context = Context::new(env, tables, nodes);
        let mbufs = Mbufs::over(pools);
        mbufs.is_well_formed();
        let machine = Machine::over(mbufs, Queues::over(rings, lists));
        Ok(Engine {
            context,
            machine,
            memory,
            turns: 0,
            tallies: [NO_TALLIES; 8],
            left: [0; 8],
        })
    }

    /// Replaces the pattern: the numbers of the allocation calls to refuse, ascending, from 1. Call it before the first turn.
    pub fn refuse(&mut self, pattern: Vec<u64>)
        requires ascending { IsAscending 0 pattern.items }
        requires first { self.old.turns ≡ 0 }
        ensures { self.new ≡ record self.old { setting = record self.old.setting { pattern = pattern.items } } }
    {
        self.context.refuse(pattern);
    }

    /// The number of turns so far.
    pub fn turns(&self) -> u64
        ensures { result ≡ self.now.turns }
    {
        self.turns
    }

    /// The number of packets in the transmit list of a port. The port must exist.
    pub fn queued(&self, port: u8) -> usize
        requires exists { port < length self.now.setting.env.ports }
        ensures { (packets : List Packet) × (slice_get self.now.world.outboxes port ≡ Some packets) × (result ≡ length packets) }
    {
        self.machine.count(Queue::Tx(port)) as usize
    }

    /// Ends the engine: frees what is left in rings and transmit lists. Returns the report, in which all buffers are free, and the region, with
    /// nothing lent: its heap is one free element.
    pub fn finish(self) -> (Report, Region)
        ensures report { IsReport (flushed self) result.0 }
        ensures whole { IsWhole self.setting.env result.0 }
        ensures region { (result.1.home ≡ self.home) × (length result.1.bytes ≡ self.size) }
        ensures lent { result.1.lent ≡ [] }
        ensures heap { IsOneFree result.1.bytes }
    {
        let mut engine = self;
        engine.flush();
        let report = engine.report();
        (report, engine.close())
    }

    // Takes the engine apart. No packet may be left.
    fn close(self) -> Region
        requires none { IsFlushed self }
        ensures region { (result.home ≡ self.home) × (length result.bytes ≡ self.size) }
        ensures lent { result.lent ≡ [] }
        ensures heap { IsOneFree result.bytes }
    {
        let Engine {
            context: _,
            machine,
            memory,
            turns: _,
            tallies: _,
            left: _,
        } = self;
        let (mbufs, queues) = machine.into_parts();
        let pools = mbufs.into_pools();
        let (rings, lists) = queues.into_rings();
        memory.close(Parts {
            pools,
            rings,
            lists,
        })
    }
}
