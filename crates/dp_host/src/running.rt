//! An open engine, with a test for each condition of its calls.

ghost use Rattle.std.specs.Prelude.{◌≡◌, ◌+◌, ◌<◌, ◌≤◌, length, Some, None, IfOk, IfErr, IfSome, IfNone, OnOk, ℕ, List, Option};
ghost use Rattle.dp_model.specs.Prefixes.{hop_for};
ghost use Rattle.dp_lpm.specs.declared.error.LpmError.{LpmError};
ghost use Rattle.dp_lpm.specs.Changes.{AddsRoute, DeletesRoute, HasTable};
ghost use Rattle.dp_lpm.specs.Faults.{add_fault, delete_fault};
ghost use Rattle.dp_lpm.specs.Routes.{RouteTable};
ghost use Rattle.dp_model.specs.Meaning.{TablesFit};
ghost use Rattle.dp_engine.specs.Rerouting.{RefusesRoute, with_tables};
ghost use Rattle.dp_engine.specs.Batches.{KeepsRest, Passes, max_batch};
ghost use Rattle.dp_engine.specs.Engines.{flushed};
ghost use Rattle.dp_engine.specs.Reports.{IsReport, IsWhole};
ghost use Rattle.dp_engine.specs.Shapes.{AreWaiting};
ghost use Rattle.dp_host.specs.Hosts.{pass_fault, RefusesChange, RefusesLookup};

use crate::refusal::Refusal;
use dp_engine::{BatchSize, Engine, Pass, Report, RouteFault, SentRecord};
use dp_lpm::LpmError;
use dp_pcap::MAX_RECORD;
use std::marker::Model;

/// The maximum number of turns of an engine: 2^40.
pub const MAX_ENGINE_TURNS: u64 = 1_099_511_627_776;

/// The depth of the deepest route, in bits of the address.
pub const MAX_DEPTH: u32 = 32;

/// How many ports, rings and tables an engine has.
#[derive(Drop)]
pub struct Counts {
    pub ports: u32,
    pub rings: u32,
    pub tables: u8,
}

/// An engine, its counts, and the size that a batch needs.
pub struct Running {
    engine: Engine,
    counts: Counts,
    room: BatchSize,
}

impl Model for Running {
    ghost use Rattle.std.specs.Prelude.{◌≡◌, ◌≤◌, length};
    ghost use Rattle.dp_engine.specs.Batches.{max_batch};
    ghost use Rattle.dp_engine.specs.Engines.{EngineState};

    ghost Value = { EngineState };

    ghost view = { λ r. r.engine };

    ghost invariant = { λ r. (r.counts.ports ≡ length r.engine.setting.env.ports) × (r.counts.ports ≤ 8)
        × (r.counts.rings ≡ length r.engine.setting.env.rings) × (r.counts.rings ≤ 8)
        × (r.counts.tables ≡ length r.engine.tables)
        × (r.room ≡ max_batch r.engine.setting.env) };
}

// The refusal of a change of a route.
fn refusal_of(fault: RouteFault) -> Refusal
    ensures { (refuses : RouteTable → Option LpmError) (table : ℕ) (tables : List RouteTable) → RefusesRoute refuses table tables fault →
        RefusesChange refuses table tables result }
{
    match fault {
        RouteFault::NoTable => Refusal::NoTable,
        RouteFault::Refused(LpmError::BadDepth) => Refusal::BadDepth,
        RouteFault::Refused(LpmError::BadHop) => Refusal::BadHop,
        RouteFault::Refused(LpmError::RulesFull) => Refusal::RulesFull,
        RouteFault::Refused(LpmError::GroupsFull) => Refusal::GroupsFull,
        RouteFault::Refused(LpmError::NoRule) => Refusal::NoRule,
    }
}

impl Running {
    /// Wraps an engine that has these counts.
    pub fn of(engine: Engine, counts: Counts) -> Running
        requires ports { counts.ports ≡ length engine.setting.env.ports }
        requires few_ports { counts.ports ≤ 8 }
        requires rings { counts.rings ≡ length engine.setting.env.rings }
        requires few_rings { counts.rings ≤ 8 }
        requires tables { counts.tables ≡ length engine.tables }
        ensures { result ≡ engine }
    {
        let room = engine.batch_size();
        Running {
            engine,
            counts,
            room,
        }
    }

    /// The size that a batch needs.
    pub fn room(&self) -> BatchSize
        ensures { result ≡ max_batch self.now.setting.env }
    {
        self.room
    }

    /// Takes a pass, or returns why it is refused.
    pub fn pass(
        &mut self,
        port: u32,
        time: u64,
        frame: &[u8],
        records: &mut [SentRecord],
        bytes: &mut [u8],
    ) -> Result<Pass, Refusal>
        ensures ok { IfOk result (λ p. Passes self.old self.new port frame.now p.turn time records.new bytes.new p.sent) }
        ensures rest { IfOk result (λ p. KeepsRest p.sent records.old records.new bytes.old bytes.new) }
        ensures err { IfErr result (λ why. (self.new ≡ self.old) × (records.new ≡ records.old) × (bytes.new ≡ bytes.old)
            × (pass_fault self.old port (length frame.now) (length records.old) (length bytes.old) ≡ Some why)) }
        ensures taken { OnOk result (pass_fault self.old port (length frame.now) (length records.old) (length bytes.old) ≡ None) }
    {
        if port >= self.counts.ports {
            return Err(Refusal::NoPort);
        }
        if frame.len() > MAX_RECORD {
            return Err(Refusal::TooLong);
        }
        if self.engine.turns() >= MAX_ENGINE_TURNS {
            return Err(Refusal::NoTurns);
        }
        if records.len() < self.room.records || bytes.len() < self.room.bytes {
            return Err(Refusal::BatchTooSmall);
        }
        Ok(self.engine.pass(port as u8, frame, time, records, bytes))
    }

    /// Adds a route to a table, or returns why it is refused.
    pub fn add_route(&mut self, table: u32, ip: u32, depth: u32, hop: u32) -> Result<(), Refusal>
        ensures rest { OnOk result (self.new ≡ with_tables self.new.tables self.old) }
        ensures fits { OnOk result (TablesFit self.new.setting) }
        ensures ok { OnOk result (AddsRoute table ip depth hop self.old.tables self.new.tables) }
        ensures err { IfErr result (λ why. RefusesChange (λ t. add_fault t ip depth hop) table self.old.tables why × (self.new ≡ self.old)) }
    {
        if table >= u32::from(self.counts.tables) {
            return Err(Refusal::NoTable);
        }
        if depth > MAX_DEPTH {
            return Err(Refusal::BadDepth);
        }
        match self.engine.add_route(table as u8, ip, depth as u8, hop) {
            Ok(()) => Ok(()),
            Err(fault) => Err(refusal_of(fault)),
        }
    }

    /// Deletes a route of a table, or returns why it is refused.
    pub fn delete_route(&mut self, table: u32, ip: u32, depth: u32) -> Result<(), Refusal>
        ensures rest { OnOk result (self.new ≡ with_tables self.new.tables self.old) }
        ensures fits { OnOk result (TablesFit self.new.setting) }
        ensures ok { OnOk result (DeletesRoute table ip depth self.old.tables self.new.tables) }
        ensures err { IfErr result (λ why. RefusesChange (λ t. delete_fault t ip depth) table self.old.tables why × (self.new ≡ self.old)) }
    {
        if table >= u32::from(self.counts.tables) {
            return Err(Refusal::NoTable);
        }
        if depth > MAX_DEPTH {
            return Err(Refusal::BadDepth);
        }
        match self.engine.delete_route(table as u8, ip, depth as u8) {
            Ok(()) => Ok(()),
            Err(fault) => Err(refusal_of(fault)),
        }
    }

    /// The hop of a table for an address, or why there is none.
    pub fn route(&self, table: u32, ip: u32) -> Result<u32, Refusal>
        ensures ok { IfOk result (λ hop. HasTable table self.now.tables (λ t. hop_for t.routes ip ≡ Some hop)) }
        ensures err { IfErr result (λ why. RefusesLookup table ip self.now.tables why) }
    {
        if table >= u32::from(self.counts.tables) {
            return Err(Refusal::NoTable);
        }
        match self.engine.route(table as u8, ip) {
            Some(hop) => Ok(hop),
            None => Err(Refusal::NoRoute),
        }
    }

    /// The report so far.
    pub fn report(&self) -> Report
        ensures { IsReport self.now result }
    {
        self.engine.report()
    }

    /// The number of packets in a ring, if it exists.
    pub fn waiting(&self, ring: u32) -> Option<u32>
        ensures some { IfSome result (AreWaiting self.now.world.rings ring) }
        ensures none { IfNone result (length self.now.setting.env.rings ≤ ring) }
    {
        if ring >= self.counts.rings {
            return None;
        }
        self.engine.waiting(ring as u8)
    }

    /// The number of turns so far.
    pub fn turns(&self) -> u64
        ensures { result ≡ self.now.turns }
    {
        self.engine.turns()
    }

    /// Ends the engine. Every buffer is free, and its memory is returned.
    pub fn end(self) -> Report
        ensures report { IsReport (flushed self) result }
        ensures whole { IsWhole self.setting.env result }
    {
        let Running {
            engine,
            counts: _,
            room: _,
        } = self;
        let (report, region) = engine.finish();
        region.close();
        report
    }
}
