//! Traces runs: shows the turns of the first records of a pipeline's captures to a tracer.

ghost use Rattle.std.specs.Prelude.{◌≡◌, ℕ, ◌+◌, ◌<◌, ◌≤◌, ◌⊎◌, ◌↔◌, true, false, [], List, Err, Some, length, map, slice_get, vec_len};
ghost use Rattle.std.specs.Prelude.{IfErr, IsErrOf, IsOk, IsTrue};
ghost use Rattle.std.specs.Vec.{vec_capacity};
ghost use Rattle.dp_pcap.specs.Source.{IsInRange, Moves, WhereKnown, failed_pulls, max_pulls, max_truncated, truncated_of};
ghost use Rattle.dp_engine.specs.Engines.{EngineState, IsAscending};
ghost use Rattle.dp_engine.specs.Needs.{bytes_needed};
ghost use Rattle.dp_pipe.specs.Devices.{Device, AllFared, AllSound, FaredAlone, failed_reader, seen};
ghost use Rattle.dp_pipe.specs.Forwarding.{LastPulls};
ghost use Rattle.dp_pipe.specs.Tracing.{IsTraced, TracesNext, TracesStep, TracesUntil, TracesRound, TracesRecords, TracesFirst, NoneIsWanted};
ghost use Rattle.dp_pipe.specs.Tracing.{CanTrace, IsOfInput, cause_at};
ghost use Rattle.dp_pipe.specs.declared.forwarding.InputProgress.{InputProgress as InputOf};

use crate::forwarding::{InputProgress, MAX_RUN_TURNS, ROUNDS, RunCause, is_open};
use crate::opening::opened;
use crate::running::read_headers;
use dp_engine::{CompiledPrograms, Engine, InputState, Turn, View, Watch};
use dp_load::Pipeline;
use dp_pcap::{Feed, MAX_RECORD, Next, PcapError, Source, Time, next_record};
use std::alloc::Global;

/// Watches a traced run: each record, each node run and each instruction.
///
/// Contracts see how each note changes a tracer, as they see how each event does (`sees`).
pub trait Tracer: Watch {
    ghost use Rattle.dp_pipe.specs.Tracing.{Note, Came, Ended};

    // Relates the tracer before a note to the tracer after it.
    ghost noted: { Self → Note → Self → Type 0 };

    /// A record comes to a port: its time, and its length in bytes.
    fn record(&mut self, port: u8, time: Time, len: usize)
        ensures { noted self.old (Came port time len) self.new };

    /// The turn with that record is over. The packets now in transmit lists are sent.
    fn turned(&mut self, turn: Turn, view: View<'_>)
        ensures { noted self.old (Ended turn view.entry.state.world) self.new };
}

/// Which records are traced.
#[derive(Clone, Copy)]
pub struct Traced {
    /// The maximum number of records: up to [`MAX_RUN_TURNS`].
    pub records: u32,
    /// Only those of one port, or those of all ports in the order of a run.
    pub port: Option<u8>,
}

impl Traced {
    // Whether the records of a port are traced.
    fn is_of(self, port: u8) -> bool
        ensures { IsTrue result ↔ IsTraced self.port port }
    {
        match self.port {
            Some(only) => only == port,
            None => true,
        }
    }
}

// Reads what comes next in an input and, if it is a record, takes a turn with it that is traced.
fn trace_next<K: CompiledPrograms, R: Feed, T: Tracer>(
    engine: &mut Engine<K>,
    port: u8,
    r: &mut R,
    source: &mut Source,
    buf: &mut [u8],
    tracer: &mut T,
) -> Result<Next, PcapError>
    requires exists { port < length engine.old.setting.env.ports }
    requires buf { MAX_RECORD ≤ length buf.old }
    requires limit { engine.old.turns < MAX_RUN_TURNS }
    requires open { source.old.is_open ≡ true }
    ensures turn { TracesNext T.Watch.sees T.noted tracer.old tracer.new port engine.old engine.new source.old source.new (R.remaining r.old)
        (R.remaining r.new) result }
    ensures in_range { IsInRange source.old result }
    ensures source { Moves source.old source.new result }
    ensures counted { R.calls r.new ≤ R.calls r.old + max_pulls result }
    ensures pulls { LastPulls result (seen R.remaining R.calls r.old) (seen R.remaining R.calls r.new) }
    ensures failed { IsErrOf result PcapError.Read ↔ IsTrue (R.is_broken r.new) }
    ensures stays { IsTrue (R.is_broken r.old) → IsTrue (R.is_broken r.new) }
    ensures failures { R.failures r.new ≡ R.failures r.old + failed_pulls result }
    ensures noted { WhereKnown (R.remaining r.old) (R.remaining r.new)
        (λ bytes _. R.truncated r.new ≡ R.truncated r.old + truncated_of source.old bytes result) }
    ensures few { (R.truncated r.old ≤ R.truncated r.new) × (R.truncated r.new ≤ R.truncated r.old + max_truncated result) }
    ensures buf { length buf.new ≡ length buf.old }
{
    match next_record(r, source, buf) {
        Ok(Next::Record(time, len)) => {
            tracer.record(port, time, len);
            let turn = engine.watched_turn(port, &buf[..len], tracer);
            tracer.turned(turn, engine.view());
            Ok(Next::Record(time, len))
        }
        other => other,
    }
}

// Takes a traced turn for a port that is traced and open, if more records are wanted. Then drops what the turn put into transmit lists.
fn trace_port<K: CompiledPrograms, R: Feed, T: Tracer>(
    engine: &mut Engine<K>,
    port: u8,
    input: &mut InputProgress,
    r: &mut R,
    buf: &mut [u8],
    which: &mut Traced,
    tracer: &mut T,
) -> Result<(), PcapError>
    requires exists { port < length engine.old.setting.env.ports }
    requires buf { MAX_RECORD ≤ length buf.old }
    requires limit { engine.old.turns + which.old.records ≤ MAX_RUN_TURNS }
    requires open { input.old.state ≡ InputState.Open → input.old.source.is_open ≡ true }
    ensures step { TracesStep T.Watch.sees T.noted tracer.old tracer.new which.old.port port engine.old engine.new input.old input.new
        (seen R.remaining R.calls) r.old r.new which.old.records which.new.records result }
    ensures port { which.new.port ≡ which.old.port }
    ensures buf { length buf.new ≡ length buf.old }
    ensures fared { FaredAlone R.is_broken R.failures (failed_reader (cause_at port result)) port r.old r.new }
{
    if which.records == 0 {
        return Ok(());
    }
    if !is_open(input) {
        return Ok(());
    }
    if !which.is_of(port) {
        return Ok(());
    }
    match trace_next(engine, port, r, &mut input.source, buf, tracer) {
        Ok(Next::Record(_, _)) => {
            which.records -= 1;
            engine.flush_lists();
            Ok(())
        }
        Ok(Next::End) => {
            input.state = InputState::Whole;
            Ok(())
        }
        Ok(Next::Cut(byte)) => {
            input.state = InputState::Cut(byte);
            Ok(())
        }
        Err(error) => Err(error),
    }
}

// Takes one traced turn for each input that is traced and open, in port order.
fn trace_round<K: CompiledPrograms, R: Feed, T: Tracer>(
    engine: &mut Engine<K>,
    inputs: &mut [InputProgress],
    ins: &mut [R],
    buf: &mut [u8],
    which: &mut Traced,
    tracer: &mut T,
) -> Result<(), RunCause>
    requires can { CanTrace engine.old (length inputs.old) (length ins.old) (length buf.old) which.old.records }
    requires until { (v0 : T) × (e0 : EngineState) × (most : ℕ) × (had : List Device) × (k : ℕ)
        × TracesUntil T.Watch.sees T.noted v0 tracer.old which.old.port most e0 engine.old had (map (seen R.remaining R.calls) ins.old) inputs.old k 0
        which.old.records }
    ensures goes { (v0 : T) (e0 : EngineState) (most : ℕ) (had : List Device) (k : ℕ)
        → TracesUntil T.Watch.sees T.noted v0 tracer.old which.old.port most e0 engine.old had (map (seen R.remaining R.calls) ins.old) inputs.old k 0
        which.old.records
        → TracesRound T.Watch.sees T.noted v0 tracer.new which.old.port most e0 engine.new had (map (seen R.remaining R.calls) ins.new) inputs.new k
        which.new.records result }
    ensures turns { engine.new.turns + which.new.records ≡ engine.old.turns + which.old.records }
    ensures setting { engine.new.setting ≡ engine.old.setting }
    ensures port { which.new.port ≡ which.old.port }
    ensures many { (length inputs.new ≡ length inputs.old) × (length ins.new ≡ length ins.old) × (length buf.new ≡ length buf.old) }
    ensures cause { IfErr result IsOfInput }
    ensures fared { AllFared R.is_broken R.failures (failed_reader result) ins.old ins.new }
{
    let ports = ins.len() as u8;
    for port in 0..ports {
        let k = port as usize;
        match trace_port(
            engine,
            port,
            &mut inputs[k],
            &mut ins[k],
            buf,
            which,
            tracer,
        ) {
            Ok(()) => {}
            Err(error) => return Err(RunCause::In(port, error)),
        }
    }
    Ok(())
}

// Whether more records are wanted, and a traced input may have them.
fn is_any_left(inputs: &[InputProgress], which: Traced) -> bool
    requires few { length inputs.now ≤ 8 }
    ensures none { result ≡ false → NoneIsWanted which.port inputs.now which.records }
    ensures some { result ≡ true → (0 < which.records) × ((q : ℕ) × (p : InputOf) × (slice_get inputs.now q ≡ Some p) × IsTraced which.port q
        × (p.state ≡ InputState.Open)) }
{
    if which.records == 0 {
        return false;
    }
    for port in 0..inputs.len() as u8 {
        if which.is_of(port) && is_open(&inputs[port as usize]) {
            return true;
        }
    }
    false
}

// Traces the records of inputs whose headers were read, round by round.
fn trace_rounds<K: CompiledPrograms, R: Feed, T: Tracer>(
    engine: &mut Engine<K>,
    inputs: &mut [InputProgress],
    ins: &mut [R],
    buf: &mut [u8],
    which: Traced,
    tracer: &mut T,
) -> Result<(), RunCause>
    requires can { CanTrace engine.old (length inputs.old) (length ins.old) (length buf.old) which.records }
    requires until { (v0 : T) × (e0 : EngineState) × (most : ℕ) × (had : List Device)
        × TracesUntil T.Watch.sees T.noted v0 tracer.old which.port most e0 engine.old had (map (seen R.remaining R.calls) ins.old) inputs.old 0 0
        which.records }
    ensures goes { (v0 : T) (e0 : EngineState) (most : ℕ) (had : List Device)
        → TracesUntil T.Watch.sees T.noted v0 tracer.old which.port most e0 engine.old had (map (seen R.remaining R.calls) ins.old) inputs.old 0 0
        which.records
        → TracesRecords T.Watch.sees T.noted v0 tracer.new which.port most e0 engine.new had (map (seen R.remaining R.calls) ins.new) result }
    ensures cause { IfErr result IsOfInput }
    ensures many { length ins.new ≡ length ins.old }
    ensures fared { AllFared R.is_broken R.failures (failed_reader result) ins.old ins.new }
{
    let mut which = which;
    for k in 0..ROUNDS {
        if !is_any_left(inputs, which) {
            return Ok(());
        }
        trace_round(engine, inputs, ins, buf, &mut which, tracer)?;
    }
    Ok(())
}

// Traces an open engine: headers in, then record by record, round by round.
fn trace_records<K: CompiledPrograms, R: Feed, T: Tracer>(
    engine: &mut Engine<K>,
    inputs: &mut Vec<InputProgress>,
    ins: &mut [R],
    buf: &mut [u8],
    which: Traced,
    tracer: &mut T,
) -> Result<(), RunCause>
    requires first { engine.old.turns ≡ 0 }
    requires readers { length ins.old ≡ length engine.old.setting.env.ports }
    requires few { length ins.old ≤ 8 }
    requires none { (inputs.old.items ≡ []) × (vec_len inputs.old ≡ 0) }
    requires room { 8 ≤ vec_capacity inputs.old }
    requires buf { MAX_RECORD ≤ length buf.old }
    requires limit { which.records ≤ MAX_RUN_TURNS }
    ensures traced { TracesRecords T.Watch.sees T.noted tracer.old tracer.new which.port which.records engine.old engine.new
        (map (seen R.remaining R.calls) ins.old) (map (seen R.remaining R.calls) ins.new) result }
    ensures cause { IfErr result IsOfInput }
    ensures sound { IsOk result → AllSound R.is_broken ins.new }
    ensures fared { AllFared R.is_broken R.failures (failed_reader result) ins.old ins.new }
{
    read_headers(ins, inputs)?;
    trace_rounds(engine, inputs.as_mut_slice(), ins, buf, which, tracer)
}

/// Traces a pipeline: takes the turns of its first records as [`run`](crate::run) does, shows each to the tracer, and writes nothing.
/// What a turn puts into transmit lists is dropped after it. The allocation calls whose numbers are in `pattern` are refused.
/// Programs that are among `K` run as machine code of their own; nothing else depends on `K`.
///
/// # Errors
///
/// [`RunCause::NoRoom`] exactly if the pipeline's region is smaller than its engine needs, which is known before memory is asked for, and
/// [`RunCause::Memory`] if memory is refused; nothing was read or traced then. [`RunCause::In`] if an input has a fault, in its header or
/// after the records that were traced.
pub fn trace<K: CompiledPrograms, R: Feed, T: Tracer>(
    alloc: Global,
    pipeline: Pipeline,
    ins: &mut [R],
    pattern: Vec<u64>,
    which: Traced,
    tracer: &mut T,
) -> Result<(), RunCause>
    requires readers { length ins.old ≡ length pipeline.env.ports }
    requires pattern { IsAscending 0 pattern.items }
    requires limit { which.records ≤ MAX_RUN_TURNS }
    // Whether there is room is known before memory is asked for.
    ensures no_room { result ≡ Err RunCause.NoRoom ↔ pipeline.region < bytes_needed pipeline.env }
    // It is shown the first turns of a run, and nothing else. These records are what the readers gave, and no fewer than are wanted unless each traced
    // input has ended or one has a fault.
    ensures traced { (result ≡ Err RunCause.Memory) ⊎ (result ≡ Err RunCause.NoRoom)
        ⊎ TracesFirst T.Watch.sees T.noted tracer.old tracer.new pipeline pattern.items which.port which.records
        (map (seen R.remaining R.calls) ins.old) (map (seen R.remaining R.calls) ins.new) result }
    ensures untouched { IfErr result (λ cause. (cause ≡ RunCause.Memory) ⊎ (cause ≡ RunCause.NoRoom) → (ins.new ≡ ins.old) × (tracer.new ≡ tracer.old)) }
    // Where all went well no reader is broken; one that failed is the one that the result names, in its last call.
    ensures sound { IsOk result → AllSound R.is_broken ins.new }
    ensures fared { AllFared R.is_broken R.failures (failed_reader result) ins.old ins.new }
{
    let (mut engine, mut inputs, mut buf) = opened::<K>(alloc, pipeline, pattern)?;
    let outcome = trace_records(
        &mut engine,
        &mut inputs,
        ins,
        buf.as_mut_slice(),
        which,
        tracer,
    );
    let (_report, region) = engine.finish();
    region.close();
    outcome
}
