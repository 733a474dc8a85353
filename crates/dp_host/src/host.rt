//! The contents of a caller's memory: an open engine, or none, with the explanation.

ghost use Rattle.std.specs.Prelude.{◌≡◌, ◌≤◌, [], ◌++◌, drop, length, IfErr, IfOk};
ghost use Rattle.dp_load.specs.Pipelines.{IsPlan};
ghost use Rattle.dp_pipe.specs.Running.{IsUnopened};
ghost use Rattle.dp_host.specs.Calls.{HasServedCalls};
ghost use Rattle.dp_host.specs.Hosts.{AddAnswers, DeleteAnswers, LookupAnswers, SetsOrRefuses, CloseAnswers, IsOpenErrorFor, IsOpenedFor, IsPoolStats};
ghost use Rattle.dp_host.specs.Hosts.{IsPortStats, IsExplanationFor, IsExplanationIn, IsRingStats, IsRoom, Opens, PassAnswers};
ghost use Rattle.dp_host.specs.Hosts.{NoPool, NoPort, NoRing, outcome_number, padded, explanation_with};

use crate::numbers::{
    Explanation, Hop, MAX_EXPLANATION, PoolStats, PortStats, RingStats, Room, Route, Totals,
};
use crate::packed::{Unread, files_in};
use crate::refusal::Refusal;
use crate::running::{Counts, Running};
use dp_copies::{clones_are_copies, uses_are_copied};
use dp_engine::{Outcome, Pass, SentRecord};
use dp_load::{How, Listed, PipeError, Pipeline, load};
use dp_model::{runs_keep_safe, uses_join, uses_keep_safe, whole_runs_end_with_whole_pools};
use dp_pipe::{RunCause, engine_of};
use std::alloc::Global;

/// An open engine, or the refusal that calls return when there is none; and why the pipeline was not loaded, if it was not.
pub struct Host {
    pub(crate) running: Option<Running>,
    pub(crate) missing: Refusal,
    pub(crate) explanation: Explanation,
}

/// Why no engine is open.
#[derive(Clone, Copy)]
pub enum OpenError {
    /// The files are not read.
    Unread(Unread),
    /// The pipeline is not loaded.
    Load(PipeError),
    /// Its engine is not opened.
    Open(RunCause),
}

// How many ports, rings and tables a pipeline has.
fn counts_of(pipeline: &Pipeline) -> Counts
    ensures ports { (result.ports ≡ length pipeline.now.env.ports) × (result.ports ≤ 8) }
    ensures rings { (result.rings ≡ length pipeline.now.env.rings) × (result.rings ≤ 8) }
    ensures tables { result.tables ≡ length pipeline.now.tables }
    ensures plan { IsPlan pipeline.now }
{
    let env = pipeline.env();
    Counts {
        ports: env.ports().len() as u32,
        rings: env.rings().len() as u32,
        tables: env.tables(),
    }
}

// Opens the engine of a pipeline.
fn running_of(alloc: Global, pipeline: Pipeline) -> Result<Running, RunCause>
    ensures ok { IfOk result (HasServedCalls pipeline []) }
    ensures err { IfErr result (IsUnopened pipeline) }
{
    let counts = counts_of(&pipeline);
    match engine_of(alloc, pipeline, Vec::new(alloc)) {
        Ok(engine) => Ok(Running::of(engine, counts)),
        Err(cause) => Err(cause),
    }
}

// Opens the engine of a pipeline's text and its files.
fn started(alloc: Global, toml: &[u8], packed: &[u8]) -> Result<Running, OpenError>
    ensures ok { IfOk result (IsOpenedFor toml.now packed.now) }
    ensures err { IfErr result (IsOpenErrorFor toml.now packed.now) }
{
    let files = match files_in(alloc, packed) {
        Ok(files) => files,
        Err(why) => return Err(OpenError::Unread(why)),
    };
    let mut listed = Listed {
        files: files.as_slice(),
    };
    let pipeline = match load(alloc, toml, &mut listed, How::Given) {
        Ok(pipeline) => pipeline,
        Err(error) => return Err(OpenError::Load(error)),
    };
    match running_of(alloc, pipeline) {
        Ok(running) => Ok(running),
        Err(cause) => Err(OpenError::Open(cause)),
    }
}

// Writes a text over the first bytes of a room.
fn put_front(room: &mut [u8], text: &[u8])
    requires { length text.now ≤ length room.old }
    ensures { room.new ≡ text.now ++ drop (length text.now) room.old }
{
    room[..text.len()].copy_from_slice(text);
}

// A text before zeros, cut so that a zero follows it.
fn padded(text: &[u8]) -> [u8; MAX_EXPLANATION]
    ensures { result ≡ padded text.now }
{
    let mut room = [0; MAX_EXPLANATION];
    let (front, _) = text.split_at(text.len().min(MAX_EXPLANATION - 1));
    put_front(&mut room, front);
    room
}

// An explanation with this cause and this text.
fn explanation_of(cause: u32, text: &[u8]) -> Explanation
    ensures { result ≡ explanation_with cause text.now }
{
    Explanation {
        cause,
        length: text.len().min(MAX_EXPLANATION - 1) as u32,
        text: padded(text),
    }
}

// The explanation of a pipeline that is not loaded, as `dpv check` prints it.
fn explanation_in(alloc: Global, error: PipeError) -> Explanation
    ensures { IsExplanationIn error result }
{
    let number = error.number();
    if number == 0 {
        return explanation_of(1, b"memory");
    }
    let cause = 10 + u32::from(number);
    match format!(in alloc; "{error}") {
        Ok(text) => explanation_of(cause, text.as_bytes()),
        Err(_) => explanation_of(cause, b"memory"),
    }
}

// The explanation of an error.
fn explanation_for(alloc: Global, error: OpenError) -> Explanation
    ensures { IsExplanationFor error result }
{
    match error {
        OpenError::Unread(Unread::Form) => explanation_of(
            2,
            b"the files are not packed as they should be",
        ),
        OpenError::Unread(Unread::Memory) => explanation_of(1, b"memory"),
        OpenError::Load(pipe_error) => explanation_in(alloc, pipe_error),
        OpenError::Open(RunCause::NoRoom) => explanation_of(3, b"the region is too small"),
        OpenError::Open(_) => explanation_of(1, b"memory"),
    }
}

/// Opens the engine of a pipeline's text and its files, or keeps the explanation why not.
pub(crate) fn opened(alloc: Global, toml: &[u8], packed: &[u8]) -> Host
    ensures { Opens toml.now packed.now result.running result.missing result.explanation }
{
    match started(alloc, toml, packed) {
        Ok(running) => Host {
            running: Some(running),
            missing: Refusal::Closed,
            explanation: explanation_of(0, b""),
        },
        Err(error) => Host {
            running: None,
            missing: Refusal::NotOpen,
            explanation: explanation_for(alloc, error),
        },
    }
}

// The number of an outcome in dpv.h.
fn outcome_number(outcome: Outcome) -> u32
    ensures { result ≡ outcome_number outcome }
{
    match outcome {
        Outcome::Got => 0,
        Outcome::NoBuffer => 1,
        Outcome::Oversize => 2,
    }
}

// The size of what was sent, as the C caller sees it.
fn room_of(pass: Pass) -> Room
    ensures { result ≡ record { records = pass.sent.records; bytes = pass.sent.bytes } }
{
    Room {
        records: pass.sent.records as u64,
        bytes: pass.sent.bytes as u64,
    }
}

/// Takes a pass; returns the number of its outcome or of a refusal.
#[tactic(auto, using(crate::proofs::Serving::pass_refused))]
pub(crate) fn passed(
    host: &mut Host,
    port: u32,
    time: u64,
    frame: &[u8],
    records: &mut [SentRecord],
    bytes: &mut [u8],
    filled: &mut Room,
) -> u32
    ensures { PassAnswers host.old.running host.old.missing host.new.running port time frame.now
        (record { records = records.old; bytes = bytes.old }) (record { records = records.new; bytes = bytes.new }) filled.new result
        × (host.new.missing ≡ host.old.missing) × (host.new.explanation ≡ host.old.explanation) }
{
    *filled = Room {
        records: 0,
        bytes: 0,
    };
    let missing = host.missing;
    match &mut host.running {
        Some(running) => match running.pass(port, time, frame, records, bytes) {
            Ok(pass) => {
                *filled = room_of(pass);
                outcome_number(pass.turn.outcome)
            }
            Err(why) => why.number(),
        },
        None => missing.number(),
    }
}

/// Adds a route to a table; returns 0 or the number of a refusal.
#[tactic(auto, using(crate::proofs::Serving::change_made, crate::proofs::Serving::change_refused))]
pub(crate) fn route_added(host: &mut Host, route: &mut Route) -> u32
    ensures { AddAnswers route.old host.old.running host.old.missing host.new.running result
        × (host.new.missing ≡ host.old.missing) × (host.new.explanation ≡ host.old.explanation) × (route.new ≡ route.old) }
{
    let Some(running) = &mut host.running else {
        return host.missing.number();
    };
    match running.add_route(route.table, route.ip, route.depth, route.hop) {
        Ok(()) => 0,
        Err(why) => why.number(),
    }
}

/// Deletes a route of a table; returns 0 or the number of a refusal.
#[tactic(auto, using(crate::proofs::Serving::change_made, crate::proofs::Serving::change_refused))]
pub(crate) fn route_deleted(host: &mut Host, route: &mut Route) -> u32
    ensures { DeleteAnswers route.old host.old.running host.old.missing host.new.running result
        × (host.new.missing ≡ host.old.missing) × (host.new.explanation ≡ host.old.explanation) × (route.new ≡ route.old) }
{
    let Some(running) = &mut host.running else {
        return host.missing.number();
    };
    match running.delete_route(route.table, route.ip, route.depth) {
        Ok(()) => 0,
        Err(why) => why.number(),
    }
}

/// Sets `hop` to that of a table for an address; returns 0 or the number of a refusal.
#[tactic(auto, using(crate::proofs::Serving::looked_up, crate::proofs::Serving::look_up_refused))]
pub(crate) fn route_found(host: &mut Host, table: u32, ip: u32, hop: &mut Hop) -> u32
    ensures { (host.new ≡ host.old) × LookupAnswers table ip host.old.running host.old.missing hop.old hop.new result }
{
    let Some(running) = &host.running else {
        return host.missing.number();
    };
    match running.route(table, ip) {
        Ok(found) => {
            hop.hop = found;
            0
        }
        Err(why) => why.number(),
    }
}

/// Sets `size` to the size that a batch needs.
pub(crate) fn batch_size(host: &mut Host, size: &mut Room) -> u32
    ensures { (host.new ≡ host.old) × SetsOrRefuses IsRoom (λ e. ⊥) Refusal.NotOpen host.old.running host.old.missing size.old size.new result }
{
    let Some(running) = &host.running else {
        return host.missing.number();
    };
    let room = running.room();
    *size = Room {
        records: room.records as u64,
        bytes: room.bytes as u64,
    };
    0
}

/// Writes the counts of a port to `stats`.
#[tactic(auto, using(crate::proofs::Reported::past_all, crate::proofs::Reported::port_missing))]
pub(crate) fn port_stats(host: &mut Host, port: u32, stats: &mut PortStats) -> u32
    ensures { (host.new ≡ host.old) × SetsOrRefuses (IsPortStats port) (NoPort port) Refusal.NoPort host.old.running host.old.missing stats.old stats.new
        result }
{
    let Some(running) = &host.running else {
        return host.missing.number();
    };
    match running.report().ports.as_slice().get(port as usize) {
        Some(report) => {
            *stats = PortStats {
                received: report.received,
                no_buffer: report.nobuf,
                oversize: report.oversize,
                sent: report.sent,
            };
            0
        }
        None => Refusal::NoPort.number(),
    }
}

/// Writes the counts of a pool to `stats`.
#[tactic(auto, using(crate::proofs::Reported::past_all, crate::proofs::Reported::pool_missing))]
pub(crate) fn pool_stats(host: &mut Host, pool: u32, stats: &mut PoolStats) -> u32
    ensures { (host.new ≡ host.old) × SetsOrRefuses (IsPoolStats pool) (NoPool pool) Refusal.NoPool host.old.running host.old.missing stats.old stats.new
        result }
{
    let Some(running) = &host.running else {
        return host.missing.number();
    };
    match running.report().pools.as_slice().get(pool as usize) {
        Some(report) => {
            *stats = PoolStats {
                free: report.free,
                count: report.count,
            };
            0
        }
        None => Refusal::NoPool.number(),
    }
}

/// Writes the counts of a ring to `stats`.
pub(crate) fn ring_stats(host: &mut Host, ring: u32, stats: &mut RingStats) -> u32
    ensures { (host.new ≡ host.old) × SetsOrRefuses (IsRingStats ring) (NoRing ring) Refusal.NoRing host.old.running host.old.missing stats.old stats.new
        result }
{
    let Some(running) = &host.running else {
        return host.missing.number();
    };
    match running.waiting(ring) {
        Some(waiting) => {
            stats.waiting = u64::from(waiting);
            0
        }
        None => Refusal::NoRing.number(),
    }
}

/// Sets the explanation why the pipeline was not loaded.
pub(crate) fn explanation(host: &mut Host, explanation: &mut Explanation) -> u32
    ensures { (host.new ≡ host.old) × (explanation.new ≡ host.old.explanation) × (result ≡ 0) }
{
    explanation.cause = host.explanation.cause;
    explanation.length = host.explanation.length;
    explanation.text = host.explanation.text;
    0
}

/// Ends the engine.
pub(crate) fn closed(host: &mut Host, totals: &mut Totals) -> u32
    ensures { CloseAnswers host.old.running host.old.missing host.new.running host.new.missing totals.old totals.new result
        × (host.new.explanation ≡ host.old.explanation) }
{
    // The laws of uses, and of uses without a change.
    uses_keep_safe::<u64>();
    uses_are_copied::<u64>();
    uses_join::<u64>();
    runs_keep_safe::<u64>();
    clones_are_copies::<u64>();
    whole_runs_end_with_whole_pools::<u64>();
    let Some(running) = host.running.take() else {
        return host.missing.number();
    };
    host.missing = Refusal::Closed;
    let turns = running.turns();
    let report = running.end();
    *totals = Totals {
        turns,
        calls: report.calls,
        cut: report.cut,
        pools: report.pools.len() as u64,
    };
    0
}
