//! The run of a pipeline over its captures, and writing out what its outputs hold back.

ghost use Rattle.std.specs.Prelude.{◌≡◌, ◌<◌, ◌≤◌, Ok, Err, IfSome, length, map};
ghost use Rattle.dp_engine.specs.Engines.{IsAscending};
ghost use Rattle.dp_pipe.specs.Devices.{kind};
ghost use Rattle.dp_pipe.specs.Running.{report_of, answer_of};
ghost use Rattle.dp_runs.specs.Closing as spec;
ghost use Rattle.dp_runs.specs.Runs.{IsRun};

use arrayvec::ArrayVec;
use dp_captures::{
    CaptureNames, CaptureProblem, CaptureReason, Incomplete, Inlet, Outlet, Seen, reason_of_input,
};
use dp_engine::{CompiledPrograms, PortReport, Report, Watch};
use dp_load::Pipeline;
use dp_pcap::PcapError;
use dp_pipe::{RunCause, RunFault, run_watched};
use std::alloc::Global;
use std::io::Error;

/// Flushes an output. Returns how it is incomplete, if it is.
fn loss_of<O: Outlet>(out: &mut O) -> Option<Incomplete>
    ensures closed { spec.IsClosed (O.contents out.old) (O.taken out.new) result }
    ensures health { spec.health O.is_broken O.failures O.calls out.new ≡ spec.health O.is_broken O.failures O.calls out.old }
{
    match out.close() {
        Ok(()) => None,
        Err(incomplete) => Some(incomplete),
    }
}

/// Flushes all outputs, in port order. Returns for each how it is incomplete, if it is.
fn close_all<O: Outlet>(outs: &mut [O]) -> ArrayVec<Option<Incomplete>, 8>
    requires { length outs.old ≤ 8 }
    ensures closed { spec.AreClosed (map O.contents outs.old) (map O.taken outs.new) result.items }
    ensures health { map (spec.health O.is_broken O.failures O.calls) outs.new ≡ map (spec.health O.is_broken O.failures O.calls) outs.old }
{
    let mut lost = ArrayVec::new();
    for port in 0..outs.len() {
        lost.push(loss_of(&mut outs[port]));
    }
    lost
}

/// How the output of a port is incomplete.
fn loss_at(lost: &[Option<Incomplete>], port: usize) -> Option<Incomplete>
    ensures { result ≡ spec.loss_at lost.now port }
{
    *lost.get(port)?
}

/// The counts of a port, with `sent` lowered to the records that are whole in its file.
fn lowered(port: PortReport, loss: Option<Incomplete>) -> PortReport
    ensures { result ≡ spec.lowered port loss }
{
    match loss {
        Some(incomplete) => PortReport {
            sent: port.sent.min(incomplete.whole),
            ..port
        },
        None => port,
    }
}

/// The counts of all ports, lowered.
fn lowered_ports(ports: &[PortReport], lost: &[Option<Incomplete>]) -> ArrayVec<PortReport, 8>
    requires { length ports.now ≤ 8 }
    ensures { result.items ≡ spec.lowered_from 0 ports.now lost.now }
{
    let mut all = ArrayVec::new();
    for (k, port) in ports.iter().enumerate() {
        all.push(lowered(*port, loss_at(lost, k)));
    }
    all
}

/// The report of a run, with lowered counts of its ports.
fn lowered_report(report: Report, lost: &[Option<Incomplete>]) -> Report
    ensures ports { result.ports.items ≡ spec.lowered_from 0 report.ports.items lost.now }
    ensures others { result ≡ record report { ports = result.ports } }
{
    let mut report = report;
    report.ports = lowered_ports(report.ports.as_slice(), lost);
    report
}

/// The index of the first incomplete output.
fn first_index(lost: &[Option<Incomplete>]) -> Option<usize>
    ensures index { result ≡ spec.first_lost lost.now }
    ensures within { IfSome result (λ index. index < length lost.now) }
{
    lost.iter().position(Option::is_some)
}

/// The first port whose output is incomplete.
fn first_lost(lost: &[Option<Incomplete>]) -> Option<u8>
    requires { length lost.now ≤ 8 }
    ensures { result ≡ spec.first_lost lost.now }
{
    let index = first_index(lost)?;
    Some(index as u8)
}

/// The result of a run after its outputs are written out, and the error of the output at which it stopped.
#[derive(Drop)]
pub struct Flushed {
    pub answer: Result<Report, RunFault>,
    pub failure: Option<Error>,
}

/// The result of a run that stopped for this cause.
fn stopped(cause: RunCause, report: Report, lost: &[Option<Incomplete>]) -> Flushed
    ensures cause { answer_of result.answer ≡ Err cause }
    ensures report { report_of result.answer ≡ report }
    ensures failure { result.failure ≡ spec.failure_of lost.now (Err cause) }
{
    let failure = match cause {
        RunCause::Out(port) => loss_at(lost, usize::from(port)).map(|loss| loss.failure),
        _ => None,
    };
    let answer = Err(RunFault { cause, report });
    Flushed { answer, failure }
}

/// The result of a run that reached its end: it still stopped if an output is incomplete.
fn ended(report: Report, lost: &[Option<Incomplete>]) -> Flushed
    requires { length lost.now ≤ 8 }
    ensures came { answer_of result.answer ≡ spec.came_to (Ok report) lost.now }
    ensures report { report_of result.answer ≡ report }
    ensures failure { result.failure ≡ spec.failure_of lost.now (answer_of result.answer) }
{
    match first_lost(lost) {
        Some(port) => stopped(RunCause::Out(port), report, lost),
        None => Flushed {
            answer: Ok(report),
            failure: None,
        },
    }
}

/// Flushes the outputs of a run, in port order, whatever its result. If a port's file does not take everything, the port's `sent` is lowered to
/// the records that are whole in the file, and a run that had reached its end counts as stopped at the first such port.
pub fn flush_outputs<O: Outlet>(outs: &mut [O], answer: Result<Report, RunFault>) -> Flushed
    requires { length outs.old ≤ 8 }
    ensures flushed { spec.IsFlushed (map O.contents outs.old) (map O.taken outs.new) answer result }
    ensures health { map (spec.health O.is_broken O.failures O.calls) outs.new ≡ map (spec.health O.is_broken O.failures O.calls) outs.old }
{
    let all = close_all(outs);
    let lost = all.as_slice();
    match answer {
        Ok(report) => ended(lowered_report(report, lost), lost),
        Err(fault) => stopped(fault.cause, lowered_report(fault.report, lost), lost),
    }
}

/// Runs a pipeline from captures to captures under a watcher, one input and one output for each port, and then writes out the bytes that its outputs
/// hold back. Programs that are among `K` run as machine code; nothing else depends on `K`.
pub fn run_captures<K: CompiledPrograms, V: Watch, I: Inlet, O: Outlet>(
    alloc: Global,
    pipeline: Pipeline,
    ins: &mut [I],
    outs: &mut [O],
    pattern: Vec<u64>,
    watch: &mut V,
) -> Flushed
    requires readers { length ins.old ≡ length pipeline.env.ports }
    requires writers { length outs.old ≡ length pipeline.env.ports }
    requires pattern { IsAscending 0 pattern.items }
    ensures { IsRun V.sees watch.old watch.new pipeline pattern.items (kind I.remaining I.calls I.is_broken I.failures) ins.old ins.new
        (kind O.contents O.calls O.is_broken O.failures) O.taken outs.old outs.new result }
{
    // This shows that `flush_outputs` gets at most eight outputs.
    let _ports = pipeline.env().ports().len();
    let answer = run_watched::<K, I, O, V>(alloc, pipeline, ins, outs, pattern, watch);
    flush_outputs(outs, answer)
}

/// What is wrong with the capture at which a run stopped, if it stopped at one. `failure` is the error of an output's file.
pub fn problem_of<'a, I: Inlet>(
    names: &'a [CaptureNames],
    ins: &[I],
    cause: RunCause,
    failure: Option<Error>,
) -> Option<CaptureProblem<'a>> {
    let unknown = CaptureReason::Capture(PcapError::Write, Seen::NOTHING);
    let (port, reason) = match cause {
        RunCause::In(k, error) => (k, reason_of_input(error, ins.get(usize::from(k)))),
        RunCause::Out(k) => (k, failure.map_or(unknown, CaptureReason::System)),
        RunCause::Memory | RunCause::NoRoom => return None,
    };
    let file = match (names.get(usize::from(port)), cause) {
        (Some(names), RunCause::In(..)) => Some(names.input.as_str()),
        (Some(names), _) => Some(names.output.as_str()),
        (None, _) => None,
    };
    Some(CaptureProblem { file, reason })
}
