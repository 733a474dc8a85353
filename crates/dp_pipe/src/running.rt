//! Runs a pipeline from captures to captures.

ghost use Rattle.std.specs.Prelude.{◌≡◌, ◌+◌, ◌<◌, ◌≤◌, ◌++◌, ◌∷◌, ◌⊎◌, [], Err, false, length, map, replicate, OnOk, OnErr};
ghost use Rattle.std.specs.Prelude.{IfErr, IsOk, IsTrue, vec_len};
ghost use Rattle.std.specs.List.{AllByRecursion, list_any};
ghost use Rattle.std.specs.Vec.{vec_capacity};
ghost use Rattle.dp_pcap.specs.Source.{IsStart};
ghost use Rattle.dp_engine.specs.Engines.{EngineState, IsAscending, no_tallies};
ghost use Rattle.dp_engine.specs.Reports.{port_report, IsWhole};
ghost use Rattle.dp_pipe.specs.Devices.{kind, seen, transfer, AllSound, AllFared, failed_reader, failed_writer};
ghost use Rattle.dp_pipe.specs.Forwarding as forwarding;
ghost use Rattle.dp_pipe.specs.Forwarding.{AreProgressOf, units_of};
ghost use Rattle.dp_model.specs.Environments.{Environment};
ghost use Rattle.dp_pipe.specs.Headline.{RunPromise};
ghost use Rattle.dp_load.specs.Pipelines.{IsPlan};
ghost use Rattle.dp_pipe.specs.Running as spec;
ghost use Rattle.dp_pipe.specs.Watched.{ShowsTurns, WatchesRun};

use crate::forwarding::{InputProgress, RunCause, rounds};
use crate::opening::opened;
use arrayvec::ArrayVec;
use dp_copies::clones_are_copies;
use dp_engine::{
    CompiledPrograms, Engine, InputState, Nothing, PoolReport, PortReport, Report, Silent, Watch,
};
use dp_load::Pipeline;
use dp_model::{Env, PoolSpec, PortSpec, RingSpec, runs_keep_safe};
use dp_pcap::{Feed, MAX_RECORD, Sink, Time, Unit, put_header, read_header};
use std::alloc::Global;

/// A run that stopped early.
#[derive(Drop)]
pub struct RunFault {
    /// Why it stopped.
    pub cause: RunCause,
    /// The report so far, in which every buffer is free. An input that was not read to its end is open.
    pub report: Report,
}

// Adds an open source to a list with room for it.
fn keep(inputs: &mut Vec<InputProgress>, input: InputProgress)
    requires room { vec_len inputs.old < vec_capacity inputs.old }
    ensures items { inputs.new.items ≡ inputs.old.items ++ input ∷ [] }
    ensures len { vec_len inputs.new ≡ vec_len inputs.old + 1 }
    ensures capacity { vec_capacity inputs.old ≤ vec_capacity inputs.new }
{
    match inputs.push(input) {
        Ok(()) => {}
        Err(_) => unreachable!(),
    }
}

// Reads the headers of the inputs, in port order, and adds a source for each.
pub(crate) fn read_headers<R: Feed>(
    ins: &mut [R],
    inputs: &mut Vec<InputProgress>,
) -> Result<(), RunCause>
    requires few { length ins.old ≤ 8 }
    requires none { (inputs.old.items ≡ []) × (vec_len inputs.old ≡ 0) }
    requires room { 8 ≤ vec_capacity inputs.old }
    ensures ok { OnOk result (AreProgressOf (map (seen R.remaining R.calls) ins.old) (map (seen R.remaining R.calls) ins.new) inputs.new.items
        (spec.all_begun inputs.new.items)) }
    ensures all { OnOk result (length inputs.new.items ≡ length ins.old) }
    ensures most { length inputs.new.items ≤ length ins.old }
    ensures err { IfErr result (spec.IsHeaderCause (map (seen R.remaining R.calls) ins.old) (map (seen R.remaining R.calls) ins.new)) }
    ensures begun { AllByRecursion spec.IsBegun inputs.new.items }
    ensures many { length ins.new ≡ length ins.old }
    ensures sound { IsOk result → AllSound R.is_broken ins.new }
    ensures fared { AllFared R.is_broken R.failures (failed_reader result) ins.old ins.new }
{
    for port in 0..ins.len() {
        match read_header(&mut ins[port]) {
            Ok(source) => keep(
                inputs,
                InputProgress {
                    source,
                    state: InputState::Open,
                },
            ),
            Err(error) => return Err(RunCause::In(port as u8, error)),
        }
    }
    Ok(())
}

fn is_nano(unit: Unit) -> bool
    ensures { result ≡ forwarding.is_nano unit }
{
    match unit {
        Unit::Micro => false,
        Unit::Nano => true,
    }
}

// Whether an input has nanoseconds.
fn has_nano(inputs: &[InputProgress]) -> bool
    ensures { result ≡ list_any (λ p. forwarding.is_nano p.source.unit) inputs.now }
{
    inputs.iter().any(|input| is_nano(input.source.unit()))
}

// The time unit of the outputs: nanoseconds if any input has them, else microseconds.
fn unit_for(inputs: &[InputProgress]) -> Unit
    ensures { result ≡ forwarding.unit_for (units_of (spec.all_begun inputs.now)) }
{
    if has_nano(inputs) {
        Unit::Nano
    } else {
        Unit::Micro
    }
}

// Writes the headers of the outputs, in port order.
fn put_headers<W: Sink>(outs: &mut [W], unit: Unit) -> Result<(), RunCause>
    requires few { length outs.old ≤ 8 }
    ensures ok { OnOk result (spec.HeadersWritten unit (map (seen W.contents W.calls) outs.old) (map (seen W.contents W.calls) outs.new)) }
    ensures err { IfErr result (spec.IsWriteCause unit (map (seen W.contents W.calls) outs.old) (map (seen W.contents W.calls) outs.new)) }
    ensures many { length outs.new ≡ length outs.old }
    ensures sound { IsOk result → AllSound W.is_broken outs.new }
    ensures fared { AllFared W.is_broken W.failures (failed_writer result) outs.old outs.new }
{
    for port in 0..outs.len() {
        if put_header(&mut outs[port], unit).is_err() {
            return Err(RunCause::Out(port as u8));
        }
    }
    Ok(())
}

// Runs an open engine: headers in, headers out, then record by record.
fn forward<K: CompiledPrograms, R: Feed, W: Sink, V: Watch>(
    engine: &mut Engine<K>,
    inputs: &mut Vec<InputProgress>,
    ins: &mut [R],
    outs: &mut [W],
    buf: &mut [u8],
    watch: &mut V,
) -> Result<(), RunCause>
    requires first { engine.old.turns ≡ 0 }
    requires counted { length engine.old.tallies ≡ 8 }
    requires readers { length ins.old ≡ length engine.old.setting.env.ports }
    requires writers { length outs.old ≡ length engine.old.setting.env.ports }
    requires few { length engine.old.setting.env.ports ≤ 8 }
    requires none { (inputs.old.items ≡ []) × (vec_len inputs.old ≡ 0) }
    requires room { 8 ≤ vec_capacity inputs.old }
    requires buf { MAX_RECORD ≤ length buf.old }
    ensures forward { spec.GoesForward engine.old engine.new (transfer (map (seen R.remaining R.calls) ins.old) (map (seen R.remaining R.calls) ins.new)
        (map (seen W.contents W.calls) outs.old) (map (seen W.contents W.calls) outs.new)) inputs.new.items result }
    ensures many { length inputs.new.items ≤ length engine.old.setting.env.ports }
    ensures setting { engine.new.setting ≡ engine.old.setting }
    ensures counted { length engine.new.tallies ≡ 8 }
    ensures sound { IsOk result → AllSound R.is_broken ins.new × AllSound W.is_broken outs.new }
    ensures fared_readers { AllFared R.is_broken R.failures (failed_reader result) ins.old ins.new }
    ensures fared_writers { AllFared W.is_broken W.failures (failed_writer result) outs.old outs.new }
    ensures shown { ShowsTurns V.sees watch.old watch.new engine.old engine.new (map (seen R.remaining R.calls) ins.old)
        (map (seen R.remaining R.calls) ins.new) result }
{
    read_headers(ins, inputs)?;
    let unit = unit_for(inputs.as_slice());
    put_headers(outs, unit)?;
    rounds(engine, inputs.as_mut_slice(), ins, outs, unit, buf, watch)
}

// Sets how far each input was read.
fn set_states(ports: &mut [PortReport], inputs: &[InputProgress])
    requires { length inputs.now ≤ length ports.old }
    ensures { ports.new ≡ spec.with_states (map (λ p. p.state) inputs.now) ports.old }
{
    for port in 0..inputs.len() {
        ports[port].state = inputs[port].state;
    }
}

// The result of a run with this outcome and report.
fn answer_with(outcome: Result<(), RunCause>, report: Report) -> Result<Report, RunFault>
    ensures outcome { spec.answer_of result ≡ outcome }
    ensures report { spec.report_of result ≡ report }
    ensures ok { IsOk result → IsOk outcome }
    ensures free { (env : Environment) → IsWhole env report → spec.AllFree env result }
{
    match outcome {
        Ok(()) => Ok(report),
        Err(cause) => Err(RunFault { cause, report }),
    }
}

// Runs an engine to its end.
fn run_through<K: CompiledPrograms, R: Feed, W: Sink, V: Watch>(
    engine: Engine<K>,
    inputs: &mut Vec<InputProgress>,
    ins: &mut [R],
    outs: &mut [W],
    buf: &mut [u8],
    watch: &mut V,
) -> Result<Report, RunFault>
    requires first { engine.turns ≡ 0 }
    requires counted { length engine.tallies ≡ 8 }
    requires readers { length ins.old ≡ length engine.setting.env.ports }
    requires writers { length outs.old ≡ length engine.setting.env.ports }
    requires few { length engine.setting.env.ports ≤ 8 }
    requires none { (inputs.old.items ≡ []) × (vec_len inputs.old ≡ 0) }
    requires room { 8 ≤ vec_capacity inputs.old }
    requires buf { MAX_RECORD ≤ length buf.old }
    ensures through { (last : EngineState) × spec.GoesForward engine last
        (transfer (map (seen R.remaining R.calls) ins.old) (map (seen R.remaining R.calls) ins.new)
        (map (seen W.contents W.calls) outs.old) (map (seen W.contents W.calls) outs.new)) inputs.new.items (spec.answer_of result)
        × spec.IsReportOf last inputs.new.items (spec.report_of result) }
    ensures shown { (last : EngineState) × ShowsTurns V.sees watch.old watch.new engine last (map (seen R.remaining R.calls) ins.old)
        (map (seen R.remaining R.calls) ins.new) (spec.answer_of result)
        × spec.IsReportOf last inputs.new.items (spec.report_of result) }
    ensures free { spec.AllFree engine.setting.env result }
    ensures sound { IsOk result → AllSound R.is_broken ins.new × AllSound W.is_broken outs.new }
    ensures fared_readers { AllFared R.is_broken R.failures (failed_reader (spec.answer_of result)) ins.old ins.new }
    ensures fared_writers { AllFared W.is_broken W.failures (failed_writer (spec.answer_of result)) outs.old outs.new }
{
    let mut engine = engine;
    let outcome = forward(&mut engine, inputs, ins, outs, buf, watch);
    let (mut report, region) = engine.finish();
    region.close();
    set_states(report.ports.as_mut_slice(), inputs.as_slice());
    answer_with(outcome, report)
}

// The counts of pools with every buffer free.
fn free_pools(specs: &[PoolSpec]) -> ArrayVec<PoolReport, 8>
    requires { length specs.now ≤ 8 }
    ensures { result.items ≡ map (λ p. record { free = p.count; count = p.count }) specs.now }
{
    let mut pools = ArrayVec::new();
    for spec in specs {
        let count = u64::from(spec.count);
        pools.push(PoolReport { free: count, count });
    }
    pools
}

// The counts of ports whose inputs were not read.
fn idle_ports(specs: &[PortSpec]) -> ArrayVec<PortReport, 8>
    requires { length specs.now ≤ 8 }
    ensures { result.items ≡ map (λ _. port_report InputState.Open no_tallies) specs.now }
{
    let mut ports = ArrayVec::new();
    for _spec in specs {
        ports.push(PortReport {
            received: 0,
            nobuf: 0,
            oversize: 0,
            sent: 0,
            state: InputState::Open,
        });
    }
    ports
}

// No packet is left in any ring.
fn idle_rings(specs: &[RingSpec]) -> ArrayVec<u64, 8>
    requires { length specs.now ≤ 8 }
    ensures { result.items ≡ map (λ _. 0) specs.now }
{
    let mut rings = ArrayVec::new();
    for _spec in specs {
        rings.push(0);
    }
    rings
}

// The report of a run that reads nothing.
fn idle_report(env: &Env) -> Report
    ensures { spec.IsIdle env.now result }
{
    let pools = free_pools(env.pools());
    Report {
        ports: idle_ports(env.ports()),
        rings: idle_rings(env.rings()),
        pools,
        calls: 0,
        refused: 0,
        cut: 0,
    }
}

// Opens the engine of a pipeline, and runs it to its end.
fn answer<K: CompiledPrograms, R: Feed, W: Sink, V: Watch>(
    alloc: Global,
    pipeline: Pipeline,
    ins: &mut [R],
    outs: &mut [W],
    pattern: Vec<u64>,
    watch: &mut V,
) -> Result<Report, RunFault>
    requires readers { length ins.old ≡ length pipeline.env.ports }
    requires writers { length outs.old ≡ length pipeline.env.ports }
    requires pattern { IsAscending 0 pattern.items }
    ensures answers { spec.RunAnswers pipeline pattern.items (transfer (map (seen R.remaining R.calls) ins.old) (map (seen R.remaining R.calls) ins.new)
        (map (seen W.contents W.calls) outs.old) (map (seen W.contents W.calls) outs.new)) result }
    ensures free { spec.AllFree pipeline.env result }
    ensures untouched { IfErr result (λ f. (f.cause ≡ RunCause.Memory) ⊎ (f.cause ≡ RunCause.NoRoom) → (ins.new ≡ ins.old) × (outs.new ≡ outs.old)) }
    ensures unwatched { IfErr result (λ f. (f.cause ≡ RunCause.Memory) ⊎ (f.cause ≡ RunCause.NoRoom) → watch.new ≡ watch.old) }
    ensures sound { IsOk result → AllSound R.is_broken ins.new × AllSound W.is_broken outs.new }
    ensures fared_readers { AllFared R.is_broken R.failures (failed_reader (spec.answer_of result)) ins.old ins.new }
    ensures fared_writers { AllFared W.is_broken W.failures (failed_writer (spec.answer_of result)) outs.old outs.new }
    ensures shown { (spec.answer_of result ≡ Err RunCause.Memory) ⊎ (spec.answer_of result ≡ Err RunCause.NoRoom)
        ⊎ WatchesRun V.sees watch.old watch.new pipeline pattern.items (map (seen R.remaining R.calls) ins.old)
        (map (seen R.remaining R.calls) ins.new) result }
    ensures plan { IsPlan pipeline }
{
    let idle = idle_report(pipeline.env());
    match opened::<K>(alloc, pipeline, pattern) {
        Ok((engine, mut inputs, mut buf)) => run_through(
            engine,
            &mut inputs,
            ins,
            outs,
            buf.as_mut_slice(),
            watch,
        ),
        Err(cause) => Err(RunFault {
            cause,
            report: idle,
        }),
    }
}

/// Runs a pipeline as [`run`] does, under a watcher, which is shown each node run of each turn, instruction by instruction, in order, and
/// nothing else; on [`RunCause::Memory`] and [`RunCause::NoRoom`] it is shown nothing. Programs that are among `K` run as machine code,
/// others are interpreted; nothing else depends on `K`.
///
/// # Errors
///
/// Those of [`run`].
pub fn run_watched<K: CompiledPrograms, R: Feed, W: Sink, V: Watch>(
    alloc: Global,
    pipeline: Pipeline,
    ins: &mut [R],
    outs: &mut [W],
    pattern: Vec<u64>,
    watch: &mut V,
) -> Result<Report, RunFault>
    requires readers { length ins.old ≡ length pipeline.env.ports }
    requires writers { length outs.old ≡ length pipeline.env.ports }
    requires pattern { IsAscending 0 pattern.items }
    ensures promise { RunPromise pipeline pattern.items (kind R.remaining R.calls R.is_broken R.failures) ins.old ins.new
        (kind W.contents W.calls W.is_broken W.failures) outs.old outs.new result }
    ensures unwatched { IfErr result (λ f. (f.cause ≡ RunCause.Memory) ⊎ (f.cause ≡ RunCause.NoRoom) → watch.new ≡ watch.old) }
    // The watcher is shown the turns of that run, and nothing else.
    ensures shown { (spec.answer_of result ≡ Err RunCause.Memory) ⊎ (spec.answer_of result ≡ Err RunCause.NoRoom)
        ⊎ WatchesRun V.sees watch.old watch.new pipeline pattern.items (map (seen R.remaining R.calls) ins.old)
        (map (seen R.remaining R.calls) ins.new) result }
{
    // The laws of such runs.
    runs_keep_safe::<Time>();
    clones_are_copies::<Time>();
    answer::<K, R, W, V>(alloc, pipeline, ins, outs, pattern, watch)
}

/// Runs a pipeline from captures to captures: one reader and one writer for each port, in port order. Record k of each input, in port
/// order, round by round, is one turn of its engine, after which all transmit lists are written with the record's time. First the headers
/// are read, and then written, with nanoseconds if any input has them, else microseconds. The allocation calls whose numbers are in
/// `pattern` are refused.
///
/// No node run is ever stuck. What a port sends is what it sends if each packet has its own bytes and the allocation calls
/// have the same outcomes: no write is seen through another packet.
///
/// All memory is taken before anything is read: the engine's region, a buffer for a record, and a list of the inputs. Whatever `run`
/// returns, all packets are freed at the end, and all buffers are free.
///
/// No input is read ahead of its turn. A reader is called at most once for each byte that comes, and once more if its input ends or has a
/// fault; where its bytes are not known, at most once for each byte of its header and records, and of one more record there. A header at
/// fault takes at most 24 calls. A writer is called at most once for each byte that it is given.
///
/// # Errors
///
/// [`RunCause::NoRoom`] exactly if the pipeline's region is smaller than its engine needs, which is known before memory is asked for, and
/// [`RunCause::Memory`] if memory is refused; nothing was read or written then. [`RunCause::In`] names the first input with a fault, in the
/// order in which they are read: the outputs are those of the run on the records before it, and nothing if the fault is in a header.
/// [`RunCause::Out`] names the port whose writer failed. If that was in its header, the writers before it have their headers, and those after
/// it nothing. If it was after record k of the run:
///
/// - ports below it have everything through record k;
/// - this port has a proper prefix of that, with everything through record k - 1;
/// - ports above it have everything through record k - 1.
///
/// A reader or writer that failed is not called again.
pub fn run<R: Feed, W: Sink>(
    alloc: Global,
    pipeline: Pipeline,
    ins: &mut [R],
    outs: &mut [W],
    pattern: Vec<u64>,
) -> Result<Report, RunFault>
    requires readers { length ins.old ≡ length pipeline.env.ports }
    requires writers { length outs.old ≡ length pipeline.env.ports }
    requires pattern { IsAscending 0 pattern.items }
    ensures promise { RunPromise pipeline pattern.items (kind R.remaining R.calls R.is_broken R.failures) ins.old ins.new
        (kind W.contents W.calls W.is_broken W.failures) outs.old outs.new result }
{
    run_watched::<Nothing, R, W, Silent>(alloc, pipeline, ins, outs, pattern, &mut Silent)
}
