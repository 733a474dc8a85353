//! A traced run over readers.

ghost use Rattle.std.specs.Prelude.{◌≡◌, ◌≤◌, length, map};
ghost use Rattle.dp_engine.specs.Engines.{IsAscending};
ghost use Rattle.dp_pipe.specs.Devices.{seen};
ghost use Rattle.dp_runs.specs.Traces.{IsTraced};

use dp_engine::{CompiledPrograms, Turn, View, Watch, Way, need};
use dp_load::Pipeline;
use dp_model::Entry;
use dp_pcap::{Feed, Time};
use dp_pipe::{MAX_RUN_TURNS, RunCause, Traced, Tracer, trace};
use dp_trace::Record;
use std::alloc::Global;
use std::io::Write;
use std::marker::Model;

/// The result of a traced run.
#[derive(Clone, Copy)]
pub struct TracedRun {
    /// What stopped it, if anything did.
    pub answer: Result<(), RunCause>,
    /// What became of its lines.
    pub printed: Printed,
}

/// What became of the lines of a trace.
#[derive(Clone, Copy)]
pub enum Printed {
    /// They were written.
    Whole,
    /// Memory was refused for one.
    NoMemory,
    /// A write failed.
    Failed,
}

/// Prints the records of a traced run, a line for each. After its first failure the writer is not called again.
///
/// Contracts see it as the number of the record.
#[derive(Drop)]
struct Printing<W> {
    out: W,
    /// The number of the record, from 1.
    records: u32,
    record: Record,
    printed: Printed,
}

impl<W> Model for Printing<W> {
    ghost use Rattle.std.specs.Prelude.{ℕ};

    ghost Value = { ℕ };

    ghost view = { λ p. p.records };
}

impl<W: Write + Drop> Watch for Printing<W> {
    ghost use Rattle.dp_runs.specs.Traces.{numbers_event};

    // What it prints is tested, not proved; that it counts the records is.
    ghost sees = { numbers_event };

    fn begin(&mut self, node: Entry, view: View<'_>) {
        self.record.begin(node, &view);
    }

    fn see(&mut self, label: u16, way: Way, view: View<'_>) {
        self.record.see(label, way, &view);
    }
}

impl<W: Write + Drop> Tracer for Printing<W> {
    ghost use Rattle.dp_runs.specs.Traces.{numbers_note};

    ghost noted = { numbers_note };

    fn record(&mut self, port: u8, time: Time, len: usize) {
        self.records = self.records.saturating_add(1);
        self.record.come(self.records, port, time, len);
    }

    fn turned(&mut self, turn: Turn, view: View<'_>) {
        let line = self.record.end(turn, &view);
        if matches!(self.printed, Printed::Whole) {
            if line.has_failed {
                self.printed = Printed::NoMemory;
            } else if self.out.write_all(line.bytes.as_slice()).is_err() {
                self.printed = Printed::Failed;
            }
        }
    }
}

/// Traces the first records of a pipeline's captures, one reader for each port, with these allocation calls refused, and prints a line for each as
/// it ends: all of its bytes, or those that headers may have. No capture is written. If the pipeline's region is too small the answer is `NoRoom`, which
/// is known before any memory is asked for.
pub fn trace_records<K: CompiledPrograms, R: Feed, O: Write>(
    alloc: Global,
    pipeline: Pipeline,
    ins: &mut [R],
    pattern: Vec<u64>,
    which: Traced,
    is_long: bool,
    out: &mut O,
) -> TracedRun
    requires readers { length ins.old ≡ length pipeline.env.ports }
    requires pattern { IsAscending 0 pattern.items }
    requires limit { which.records ≤ MAX_RUN_TURNS }
    ensures { IsTraced pipeline pattern.items which.port which.records (map (seen R.remaining R.calls) ins.old)
        (map (seen R.remaining R.calls) ins.new) result.answer }
{
    let printed = Printed::Whole;
    if u64::from(pipeline.region()) < need(pipeline.env()) {
        let answer = Err(RunCause::NoRoom);
        return TracedRun { answer, printed };
    }
    let Ok(record) = Record::new(alloc, &pipeline, is_long) else {
        let answer = Err(RunCause::Memory);
        return TracedRun { answer, printed };
    };
    let mut printing = Printing {
        out,
        records: 0,
        record,
        printed,
    };
    let answer = trace::<K, _, _>(alloc, pipeline, ins, pattern, which, &mut printing);
    let printed = printing.printed;
    TracedRun { answer, printed }
}
