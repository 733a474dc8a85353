//! What is said of a run.

ghost use Rattle.std.specs.Prelude.{◌≡◌, option_map, false};
ghost use Rattle.dp_pipe.specs.Running.{answer_of};
ghost use Rattle.dp_runs.specs.Replies as spec;
ghost use Rattle.dp_runs.specs.Replies.{Reads};

use crate::document::Notes;
use crate::run::Ran;
use dp_captures::{CaptureProblem, CaptureReason, Seen};
use dp_console::{DONE, Document, FAULT, Item, MEMORY, Reply, Text};
use dp_counts::{Counting, Totals, Wanted, say_report};
use dp_engine::Report;
use dp_model::Env;
use dp_pipe::{RunCause, RunFault};
use std::alloc::Global;
use std::fmt;

/// The document of a run that ran out of memory.
const NO_MEMORY: &str = "{\"fault\":{\"status\":4,\"text\":\"fault: memory\"}}\n";

/// What is said of a run.
#[derive(Clone, Copy)]
pub struct Printing<'p, 'a> {
    /// The environment of the pipeline.
    pub env: &'p Env,
    /// The counts of the run, if it was counted.
    pub counting: Option<&'p Counting<'a>>,
    /// Which of the counts.
    pub wanted: Wanted,
    /// Whether the number of records of each port is said.
    pub totals: bool,
    /// Whether a document is said in place of the report and the counts.
    pub is_json: bool,
    /// Whether a capture goes to standard output. Then the report goes to standard error.
    pub is_stdout_taken: bool,
    /// What is wrong with the capture at which the run stopped.
    pub problem: Option<CaptureProblem<'p>>,
    /// What is known about the run that its report does not have, if what it lost is said.
    pub notes: Option<Notes>,
}

/// The line of a run that stopped.
#[derive(Clone, Copy)]
pub(crate) struct StopText(pub RunCause);

impl fmt::Display for StopText {
    ghost use Rattle.std.specs.Prelude.{Some};
    ghost use Rattle.dp_runs.specs.Replies.{stop_text};

    ghost output = { λ text. Some (stop_text text.0) };

    fn fmt<W: fmt::Write>(&self, f: &mut fmt::Formatter<W>) -> fmt::Result {
        match self.0 {
            RunCause::Memory => f.write_str("fault: memory"),
            RunCause::NoRoom => f.write_str("fault: region"),
            RunCause::In(k, error) => write!(f, "fault: input {k} cause {}", error.number()),
            RunCause::Out(k) => write!(f, "fault: output {k}"),
        }
    }
}

/// The status of a run.
pub fn status_of(answer: &Result<Report, RunFault>) -> u8
    ensures { result ≡ spec.status_of (answer_of answer.now) }
{
    match answer {
        Ok(_) => DONE,
        Err(fault) => match fault.cause {
            RunCause::Memory => MEMORY,
            _ => FAULT,
        },
    }
}

/// The report to print, even for a run that stopped; none if it ran out of memory.
pub(crate) fn printed_of(answer: &Result<Report, RunFault>) -> Option<&Report>
    ensures { option_map (λ report. report.now) result ≡ spec.printed_of answer.now }
{
    match answer {
        Ok(report) => Some(report),
        Err(fault) => match fault.cause {
            RunCause::Memory => None,
            _ => Some(&fault.report),
        },
    }
}

/// One text after the other; not whole if one of them is not.
pub fn both(first: Text, more: &Text) -> Text
    ensures { spec.IsBoth first more.now result }
{
    let mut text = first;
    if text.bytes.extend_from_slice(more.bytes.as_slice()).is_err() || more.has_failed {
        text.has_failed = true;
    }
    text
}

/// Says what is wrong with a capture, as a document. Of one that is not opened it has its name and that of the pipeline file, whose folder may have it.
pub fn say_problem(
    alloc: Global,
    problem: CaptureProblem<'_>,
    unopened: Option<(&str, &str)>,
    out: &mut Text,
) {
    let (mut to, mut cause, mut seen) = (Document::new(alloc), 0, Seen::NOTHING);
    let kind = match problem.reason {
        CaptureReason::System(_) => "system",
        CaptureReason::IsRead => "read",
        CaptureReason::IsOutput => "output",
        CaptureReason::IsStdout => "stdout",
        CaptureReason::IsStderr => "stderr",
        CaptureReason::Capture(error, at) => {
            (cause, seen) = (error.number(), at);
            "capture"
        }
    };
    to.begin_object("");
    to.item("view", Item::Text("capture"));
    to.item("cause", Item::Number(u64::from(cause)));
    if let Some(file) = problem.file {
        to.item("file", Item::Text(file));
    }
    to.numbers("front", &seen.front);
    to.item("kind", Item::Text(kind));
    if let Some(link) = seen.link {
        to.item("link", Item::Number(u64::from(link)));
    }
    if let Some((name, pipeline)) = unopened {
        to.item("name", Item::Text(name));
        to.item("pipeline", Item::Text(pipeline));
    }
    match problem.reason {
        CaptureReason::System(error) => to.shown("words", error),
        CaptureReason::Capture(error, _) => to.shown("words", error),
        _ => {}
    }
    to.end_object();
    to.say_to(out);
}

/// Says why a run stopped: the line of its cause, and what was found at its capture.
pub fn say_stop(
    alloc: Global,
    cause: RunCause,
    problem: Option<CaptureProblem<'_>>,
    err: &mut Text,
) {
    err.say(StopText(cause));
    err.say("\n");
    if let Some(problem) = problem {
        say_problem(alloc, problem, None, err);
    }
}

/// Why a run stopped, if it did.
fn stop_of(alloc: Global, ran: &Ran, problem: &Text) -> Text
    ensures { Reads result (spec.stop_lines (answer_of ran.now.flushed.answer) problem.now.bytes.items) }
{
    let mut text = Text::new(alloc);
    match &ran.flushed.answer {
        Ok(_) => text,
        Err(fault) => {
            text.say(StopText(fault.cause));
            text.say("\n");
            both(text, problem)
        }
    }
}

impl Printing<'_, '_> {
    /// The report of a run as text, or its document.
    fn main_of(&self, alloc: Global, ran: &Ran) -> Text
        ensures { self.now.is_json ≡ false → Reads result (spec.printed_text ran.now.flushed.answer) }
    {
        let (mut text, report) = (Text::new(alloc), printed_of(&ran.flushed.answer));
        if self.is_json {
            match report {
                Some(it) => self.say_facts(alloc, "run", ran, it, self.counting, &mut text),
                None => text.say(NO_MEMORY),
            }
            return text;
        }
        if let Some(report) = report {
            say_report(report, &mut text);
        }
        text
    }

    /// Says the counts of a run that are wanted, if there is a report.
    fn say_counts(&self, alloc: Global, ran: &Ran, out: &mut Text) {
        if let Some(counting) = self.counting
            && let Some(report) = printed_of(&ran.flushed.answer)
        {
            if self.wanted.counts {
                counting.say(self.env, out);
            }
            self.say_facts(alloc, "counts", ran, report, self.counting, out);
        }
    }

    /// How many records of each port a run processed, what is wrong with a capture, the counts, and what was lost, as far as that is said as text.
    fn others_of(&self, alloc: Global, ran: &Ran) -> (Text, Text, Text, Text) {
        let (mut totals, mut problem) = (Text::new(alloc), Text::new(alloc));
        let (mut counts, mut notes) = (Text::new(alloc), Text::new(alloc));
        let report = match &ran.flushed.answer {
            Ok(report) => report,
            Err(fault) => &fault.report,
        };
        if self.totals {
            totals.say(Totals(report.ports.as_slice()));
        }
        if let Some(found) = self.problem {
            say_problem(alloc, found, None, &mut problem);
        }
        if !self.is_json {
            self.say_counts(alloc, ran, &mut counts);
        }
        if let Some(known) = self.notes
            && known.are_of_loss(report, ran.refusals)
        {
            self.say_facts(alloc, "losses", ran, report, None, &mut notes);
        }
        (totals, problem, counts, notes)
    }
}

/// What is said of a run: on standard output its report, or its document, and its counts; on standard error why it stopped, and what it lost. If a
/// capture goes to standard output, all of it is said on standard error.
pub fn reply_of(alloc: Global, ran: &Ran, printing: &Printing<'_, '_>) -> Reply
    ensures status { result.status ≡ spec.status_of (answer_of ran.now.flushed.answer) }
    ensures parts { spec.IsReplied printing.now.is_json printing.now.is_stdout_taken ran.now.flushed.answer result }
{
    let (status, is_json) = (status_of(&ran.flushed.answer), printing.is_json);
    let main = printing.main_of(alloc, ran);
    let (totals, problem, counts, notes) = printing.others_of(alloc, ran);
    let stop = stop_of(alloc, ran, &problem);
    if printing.is_stdout_taken {
        let reported = both(totals, &main);
        let stopped = both(reported, &stop);
        let counted = both(stopped, &counts);
        let (out, err) = (Text::new(alloc), both(counted, &notes));
        return Reply {
            status,
            out,
            err,
            is_json: false,
        };
    }
    let out = both(main, &counts);
    let stopped = both(totals, &stop);
    let err = both(stopped, &notes);
    Reply {
        status,
        out,
        err,
        is_json,
    }
}
