//! Runs an open engine from captures to captures: headers, then record by record, round by round.
ghost use Rattle.std.specs.Prelude.{◌≡◌, ℕ, ◌+◌, ◌<◌, ◌≤◌, ◌↔◌, true, false, [], List, Ok, Err, length, map, slice_get, slice_set, take, Some, OnOk, OnErr};
ghost use Rattle.std.specs.Prelude.{IfOk, IfErr, IsOk, IsErr, IsErrOf, IsTrue};
ghost use Rattle.dp_pcap.specs.Capture.{truncates, truncated_by};
ghost use Rattle.dp_pcap.specs.Source.{body_in, IsHeld, IsInRange, Moves, WhereKnown, advanced, max_pulls, failed_pulls, max_truncated, truncated_of};
ghost use Rattle.dp_pipe.specs.Devices.{Device, seen, transfer, AllSound, AllFared, FaredAlone, failed_reader, failed_writer, failed_drain};
ghost use Rattle.dp_pipe.specs.Forwarding.{Input, ReadsTurn, DrainedAll, DrainsStopped, DrainedFirst, Advances, RunUntil, IsUnderway, IsRound, AreRounds};
ghost use Rattle.dp_pipe.specs.Forwarding.{LastPulls, AreOpen, IsAlone, HasPlaces, HasPorts, CanAsk};
ghost use Rattle.dp_pipe.specs.declared.forwarding.InputProgress.{InputProgress as InputOf};
ghost use Rattle.dp_pipe.specs.Watched.{ShowsNext, ShowsInput, ShowsUntil, ShowsRound, ShowsTurns};
ghost use Rattle.dp_engine.specs.Engines.{EngineState};
ghost use Rattle.dp_pcap.specs.declared.format.TheConstants.{NANOS_A_SECOND};
ghost use Rattle.dp_pcap.specs.declared.time.Time.{Time as InSeconds};
ghost use Rattle.dp_pcap.specs.declared.time.Unit.{Unit as TimeUnit};

use dp_engine::{CompiledPrograms, Engine, InputState, Watch};
use dp_pcap::{
    Feed, HEAD_SIZE, HeldRecord, MAX_RECORD, MAX_RECORDS, Next, PcapError, Sink, Source, Time,
    Unit, next_record, pass_record, put_header, read_header, record_at_hand,
};

/// The maximum number of turns of a run: the most records that eight captures can have.
pub const MAX_RUN_TURNS: u64 = 8 * MAX_RECORDS as u64;

/// The maximum number of rounds of a run: one for each record of an input, and one in which all have ended.
pub(crate) const ROUNDS: u32 = MAX_RECORDS + 1;

/// Why a run stopped.
#[derive(Clone, Copy)]
pub enum RunCause {
    /// The allocator refused memory. Nothing was read or written.
    Memory,
    /// The region is smaller than the engine needs. Nothing was read or written.
    NoRoom,
    /// The input of this port has this fault, in its header or after the records that were read.
    In(u8, PcapError),
    /// The writer of this port failed.
    Out(u8),
}

/// How far an input was read.
#[derive(Drop)]
pub(crate) struct InputProgress {
    pub source: Source,
    pub state: InputState,
}

// The bytes of the record that the reader has buffered.
#[inline(always)]
fn body_of<R: Feed>(r: &R, len: usize) -> &[u8]
    requires { HEAD_SIZE + len ≤ length (R.at_hand r.now) }
    ensures value { result.now ≡ body_in (R.at_hand r.now) len }
    ensures sound { R.is_broken r.now ≡ false }
{
    &r.held()[HEAD_SIZE..HEAD_SIZE + len]
}

// Takes a watched turn with the record that the reader has buffered, whose bytes are copied once, into the mbuf.
#[inline(always)]
fn held_turn<K: CompiledPrograms, R: Feed, V: Watch>(
    engine: &mut Engine<K>,
    port: u8,
    r: &mut R,
    source: &mut Source,
    found: HeldRecord,
    watch: &mut V,
)
    requires exists { port < length engine.old.setting.env.ports }
    requires limit { engine.old.turns + MAX_RECORDS ≤ MAX_RUN_TURNS + source.old.given }
    requires open { source.old.is_open ≡ true }
    requires held { (time : InSeconds) × IsHeld source.old (R.at_hand r.old) time found.len }
    requires truncated { found.is_truncated ≡ truncates source.old.order (take HEAD_SIZE (R.at_hand r.old)) }
    requires fits { found.len ≤ MAX_RECORD }
    ensures turn { (time : InSeconds) → IsHeld source.old (R.at_hand r.old) time found.len →
        ShowsNext V.sees watch.old watch.new port engine.old engine.new source.old source.new (R.remaining r.old) (R.remaining r.new)
        (Ok (Next.Record time found.len)) }
    ensures source { source.new ≡ advanced source.old found.len }
    ensures sound { (R.is_broken r.old ≡ false) × (R.is_broken r.new ≡ false) }
    ensures calls { R.calls r.new ≡ R.calls r.old }
    ensures failures { R.failures r.new ≡ R.failures r.old }
    ensures noted { R.truncated r.new ≡ R.truncated r.old + truncated_by source.old.order (take HEAD_SIZE (R.at_hand r.old)) }
{
    let _turn = engine.watched_turn(port, body_of(r, found.len), watch);
    pass_record(r, source, found);
}

// Reads what comes next into the run's buffer and, if it is a record, takes a watched turn with it.
#[inline(always)]
fn copied_turn<K: CompiledPrograms, R: Feed, V: Watch>(
    engine: &mut Engine<K>,
    port: u8,
    r: &mut R,
    source: &mut Source,
    buf: &mut [u8],
    watch: &mut V,
) -> Result<Next, PcapError>
    requires exists { port < length engine.old.setting.env.ports }
    requires buf { MAX_RECORD ≤ length buf.old }
    // Eight inputs with at most that many records make no more turns than an engine takes.
    requires limit { engine.old.turns + MAX_RECORDS ≤ MAX_RUN_TURNS + source.old.given }
    requires open { source.old.is_open ≡ true }
    ensures turn { ShowsNext V.sees watch.old watch.new port engine.old engine.new source.old source.new (R.remaining r.old) (R.remaining r.new) result }
    ensures in_range { IsInRange source.old result }
    ensures source { Moves source.old source.new result }
    ensures failed { IsErrOf result PcapError.Read ↔ IsTrue (R.is_broken r.new) }
    ensures stays { IsTrue (R.is_broken r.old) → IsTrue (R.is_broken r.new) }
    ensures counted { R.calls r.new ≤ R.calls r.old + max_pulls result }
    ensures pulls { LastPulls result (seen R.remaining R.calls r.old) (seen R.remaining R.calls r.new) }
    ensures failures { R.failures r.new ≡ R.failures r.old + failed_pulls result }
    ensures noted { WhereKnown (R.remaining r.old) (R.remaining r.new)
        (λ bytes _. R.truncated r.new ≡ R.truncated r.old + truncated_of source.old bytes result) }
    ensures few { (R.truncated r.old ≤ R.truncated r.new) × (R.truncated r.new ≤ R.truncated r.old + max_truncated result) }
{
    match next_record(r, source, buf) {
        Ok(Next::Record(time, len)) => {
            let _turn = engine.watched_turn(port, &buf[..len], watch);
            Ok(Next::Record(time, len))
        }
        other => other,
    }
}

// Drains the transmit lists of all ports, in port order, with one time. Returns the port whose writer failed, if one did.
#[inline(always)]
fn drain_all<K: CompiledPrograms, W: Sink>(
    engine: &mut Engine<K>,
    time: Time,
    unit: Unit,
    outs: &mut [W],
) -> Result<(), u8>
    requires many { length outs.old ≡ length engine.old.setting.env.ports }
    requires few { length outs.old ≤ 8 }
    requires counted { length engine.old.tallies ≡ 8 }
    requires nano { time.nano < NANOS_A_SECOND }
    ensures ok { OnOk result (DrainedAll unit time engine.old engine.new (map (seen W.contents W.calls) outs.old) (map (seen W.contents W.calls) outs.new)) }
    ensures err { IfErr result (λ port. DrainsStopped unit time engine.old engine.new (map (seen W.contents W.calls) outs.old)
        (map (seen W.contents W.calls) outs.new) port) }
    ensures many_out { length outs.new ≡ length outs.old }
    ensures broken { IfErr result (λ port. (w : W) → slice_get outs.new port ≡ Some w → IsTrue (W.is_broken w)) }
    ensures fared { AllSound W.is_broken outs.old → AllFared W.is_broken W.failures (failed_drain result) outs.old outs.new }
{
    for port in 0..outs.len() as u8 {
        if engine
            .drain(port, time, unit, &mut outs[port as usize])
            .is_err()
        {
            return Err(port);
        }
    }
    Ok(())
}

// Whether an input has not ended.
pub(crate) fn is_open(input: &InputProgress) -> bool
    ensures { IsTrue result ↔ (input.now.state ≡ InputState.Open) }
{
    input.state == InputState::Open
}

// Reads what comes next in an open input of which the reader has no whole record buffered. After a record it takes a watched turn, and drains all
// ports.
#[cold]
#[inline(never)]
fn ask_copied<K: CompiledPrograms, R: Feed, W: Sink, V: Watch>(
    engine: &mut Engine<K>,
    port: u8,
    input: &mut InputProgress,
    r: &mut R,
    outs: &mut [W],
    unit: Unit,
    buf: &mut [u8],
    watch: &mut V,
) -> Result<(), RunCause>
    requires can { CanAsk engine.old port input.old (length outs.old) (length buf.old) }
    requires is_open { input.old.state ≡ InputState.Open }
    ensures step { ShowsInput V.sees watch.old watch.new port unit engine.old engine.new input.old input.new
        (seen R.remaining R.calls r.old) (seen R.remaining R.calls r.new)
        (map (seen W.contents W.calls) outs.old) (map (seen W.contents W.calls) outs.new) result }
    ensures many { length outs.new ≡ length outs.old }
    ensures buf { length buf.new ≡ length buf.old }
    ensures reader { IsTrue (R.is_broken r.new) → result ≡ Err (RunCause.In port PcapError.Read) }
    ensures fared_reader { FaredAlone R.is_broken R.failures (failed_reader result) port r.old r.new }
    ensures fared_writers { AllSound W.is_broken outs.old → AllFared W.is_broken W.failures (failed_writer result) outs.old outs.new }
{
    match copied_turn(engine, port, r, &mut input.source, buf, watch) {
        Ok(Next::Record(time, _)) => match drain_all(engine, time, unit, outs) {
            Ok(()) => Ok(()),
            Err(failed) => Err(RunCause::Out(failed)),
        },
        Ok(Next::End) => {
            input.state = InputState::Whole;
            Ok(())
        }
        Ok(Next::Cut(byte)) => {
            input.state = InputState::Cut(byte);
            Ok(())
        }
        Err(error) => Err(RunCause::In(port, error)),
    }
}

// Reads what comes next in an input, if it is open. After a record it takes a watched turn, and drains all ports.
#[inline(always)]
fn ask<K: CompiledPrograms, R: Feed, W: Sink, V: Watch>(
    engine: &mut Engine<K>,
    port: u8,
    input: &mut InputProgress,
    r: &mut R,
    outs: &mut [W],
    unit: Unit,
    buf: &mut [u8],
    watch: &mut V,
) -> Result<(), RunCause>
    requires can { CanAsk engine.old port input.old (length outs.old) (length buf.old) }
    ensures step { input.old.state ≡ InputState.Open → ShowsInput V.sees watch.old watch.new port unit engine.old engine.new input.old input.new
        (seen R.remaining R.calls r.old) (seen R.remaining R.calls r.new)
        (map (seen W.contents W.calls) outs.old) (map (seen W.contents W.calls) outs.new) result }
    ensures over { (input.old.state ≡ InputState.Open → ⊥) → (result ≡ Ok tt) × (engine.new ≡ engine.old) × (input.new ≡ input.old) × (r.new ≡ r.old)
        × (outs.new ≡ outs.old) × (watch.new ≡ watch.old) }
    ensures many { length outs.new ≡ length outs.old }
    ensures buf { length buf.new ≡ length buf.old }
    ensures reader { input.old.state ≡ InputState.Open → IsTrue (R.is_broken r.new) → result ≡ Err (RunCause.In port PcapError.Read) }
    ensures fared_reader { FaredAlone R.is_broken R.failures (failed_reader result) port r.old r.new }
    ensures fared_writers { AllSound W.is_broken outs.old → AllFared W.is_broken W.failures (failed_writer result) outs.old outs.new }
{
    if !is_open(input) {
        return Ok(());
    }
    let Some(record) = record_at_hand(r, &input.source) else {
        return ask_copied(engine, port, input, r, outs, unit, buf, watch);
    };
    held_turn(engine, port, r, &mut input.source, record, watch);
    match drain_all(engine, record.time, unit, outs) {
        Ok(()) => Ok(()),
        Err(failed) => Err(RunCause::Out(failed)),
    }
}

// Takes one turn for each open input, in port order, each followed by the drains.
fn round<K: CompiledPrograms, R: Feed, W: Sink, V: Watch>(
    engine: &mut Engine<K>,
    inputs: &mut [InputProgress],
    ins: &mut [R],
    outs: &mut [W],
    unit: Unit,
    buf: &mut [u8],
    watch: &mut V,
) -> Result<(), RunCause>
    requires ports { HasPorts engine.old (length inputs.old) (length ins.old) (length outs.old) (length buf.old) }
    requires underway { (k : ℕ) × IsUnderway unit engine.old (map (seen R.remaining R.calls) ins.old) (map (seen W.contents W.calls) outs.old) inputs.old k 0 }
    ensures goes { (e0 : EngineState) (had held : List Device) (read : List Input) (k : ℕ) →
        RunUntil unit e0 engine.old (transfer had (map (seen R.remaining R.calls) ins.old) held (map (seen W.contents W.calls) outs.old)) inputs.old read k 0
        → IsRound unit e0 engine.old engine.new (transfer had (map (seen R.remaining R.calls) ins.new) held (map (seen W.contents W.calls) outs.new))
        inputs.new k result }
    ensures many { (length inputs.new ≡ length inputs.old) × (length ins.new ≡ length ins.old) × (length outs.new ≡ length outs.old)
        × (length buf.new ≡ length buf.old) }
    ensures fared_readers { AllFared R.is_broken R.failures (failed_reader result) ins.old ins.new }
    ensures fared_writers { AllSound W.is_broken outs.old → AllFared W.is_broken W.failures (failed_writer result) outs.old outs.new }
    ensures shown { (v0 : V) (e0 : EngineState) (had : List Device) (k : ℕ) →
        ShowsUntil V.sees v0 watch.old e0 engine.old had (map (seen R.remaining R.calls) ins.old) inputs.old k 0
        → ShowsRound V.sees v0 watch.new e0 engine.new had (map (seen R.remaining R.calls) ins.new) inputs.new k result }
{
    for port in 0..inputs.len() as u8 {
        let k = port as usize;
        ask(
            engine,
            port,
            &mut inputs[k],
            &mut ins[k],
            outs,
            unit,
            buf,
            watch,
        )?;
    }
    Ok(())
}

/// The inputs that have not ended.
#[derive(Clone, Copy)]
enum OpenInputs {
    Zero,
    One(u8),
    Several,
}

// Which inputs have not ended.
fn open_inputs(inputs: &[InputProgress]) -> OpenInputs
    requires few { length inputs.now ≤ 8 }
    ensures { AreOpen result inputs.now }
{
    let mut open = OpenInputs::Zero;
    for port in 0..inputs.len() as u8 {
        if is_open(&inputs[usize::from(port)]) {
            match open {
                OpenInputs::Zero => open = OpenInputs::One(port),
                _ => return OpenInputs::Several,
            }
        }
    }
    open
}

// Takes the rounds in which only the input of this port is open, so that no other is asked: a record costs nothing for them.
#[inline(never)]
fn rounds_alone<K: CompiledPrograms, R: Feed, W: Sink, V: Watch>(
    engine: &mut Engine<K>,
    port: u8,
    input: &mut InputProgress,
    r: &mut R,
    outs: &mut [W],
    unit: Unit,
    buf: &mut [u8],
    watch: &mut V,
) -> Result<(), RunCause>
    requires places { HasPlaces engine.old (length outs.old) (length buf.old) }
    requires underway { (inputs : List InputOf) × (ins : List R) × (k : ℕ) × IsAlone port input.old r.old inputs ins
        × IsUnderway unit engine.old (map (seen R.remaining R.calls) ins) (map (seen W.contents W.calls) outs.old) inputs k 0 }
    ensures goes { (inputs : List InputOf) (ins : List R) (e0 : EngineState) (had held : List Device) (read : List Input) (k : ℕ) →
        IsAlone port input.old r.old inputs ins →
        RunUntil unit e0 engine.old (transfer had (map (seen R.remaining R.calls) ins) held (map (seen W.contents W.calls) outs.old)) inputs read k 0
        → AreRounds unit e0 engine.new (transfer had (map (seen R.remaining R.calls) (slice_set ins port r.new)) held
        (map (seen W.contents W.calls) outs.new)) (slice_set inputs port input.new) result }
    ensures fared_reader { FaredAlone R.is_broken R.failures (failed_reader result) port r.old r.new }
    ensures fared_writers { AllSound W.is_broken outs.old → AllFared W.is_broken W.failures (failed_writer result) outs.old outs.new }
    ensures shown { (inputs : List InputOf) (ins : List R) (v0 : V) (e0 : EngineState) (had : List Device) (k : ℕ) →
        IsAlone port input.old r.old inputs ins →
        ShowsUntil V.sees v0 watch.old e0 engine.old had (map (seen R.remaining R.calls) ins) inputs k 0
        → ShowsTurns V.sees v0 watch.new e0 engine.new had (map (seen R.remaining R.calls) (slice_set ins port r.new)) result }
{
    while is_open(input) {
        ask(engine, port, input, r, outs, unit, buf, watch)?;
    }
    Ok(())
}

// Takes rounds until every input has ended.
pub(crate) fn rounds<K: CompiledPrograms, R: Feed, W: Sink, V: Watch>(
    engine: &mut Engine<K>,
    inputs: &mut [InputProgress],
    ins: &mut [R],
    outs: &mut [W],
    unit: Unit,
    buf: &mut [u8],
    watch: &mut V,
) -> Result<(), RunCause>
    requires ports { HasPorts engine.old (length inputs.old) (length ins.old) (length outs.old) (length buf.old) }
    requires underway { IsUnderway unit engine.old (map (seen R.remaining R.calls) ins.old) (map (seen W.contents W.calls) outs.old) inputs.old 0 0 }
    ensures goes { (e0 : EngineState) (had held : List Device) (read : List Input) →
        RunUntil unit e0 engine.old (transfer had (map (seen R.remaining R.calls) ins.old) held (map (seen W.contents W.calls) outs.old)) inputs.old read 0 0
        → AreRounds unit e0 engine.new (transfer had (map (seen R.remaining R.calls) ins.new) held (map (seen W.contents W.calls) outs.new))
        inputs.new result }
    ensures many { length inputs.new ≡ length inputs.old }
    ensures fared_readers { AllFared R.is_broken R.failures (failed_reader result) ins.old ins.new }
    ensures fared_writers { AllSound W.is_broken outs.old → AllFared W.is_broken W.failures (failed_writer result) outs.old outs.new }
    ensures shown { (v0 : V) (e0 : EngineState) (had : List Device) →
        ShowsUntil V.sees v0 watch.old e0 engine.old had (map (seen R.remaining R.calls) ins.old) inputs.old 0 0
        → ShowsTurns V.sees v0 watch.new e0 engine.new had (map (seen R.remaining R.calls) ins.new) result }
{
    for k in 0..ROUNDS {
        match open_inputs(inputs) {
            OpenInputs::Zero => return Ok(()),
            OpenInputs::One(port) => {
                let k = port as usize;
                return rounds_alone(
                    engine,
                    port,
                    &mut inputs[k],
                    &mut ins[k],
                    outs,
                    unit,
                    buf,
                    watch,
                );
            }
            OpenInputs::Several => {}
        }
        round(engine, inputs, ins, outs, unit, buf, watch)?;
    }
    Ok(())
}
