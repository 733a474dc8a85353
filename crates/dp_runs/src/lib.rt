//! Runs pipelines from captures to captures, and says what a run did.
//!
//! [`run_captures`] runs a pipeline over its captures under a watcher, and writes out what the outputs hold back. [`run_line`] also prints its report on
//! any two writers. [`run_over`] runs under the watchers of a command line and returns what the run did as a value, [`Ran`]; [`reply_of`] says that:
//! the report and the counts, and as documents of facts what tools/views puts into words. A console prints it.
//!
//! [`trace_records`] runs a pipeline over readers by dp_pipe's `trace` and prints a line for each record as it ends. A line for which memory was refused,
//! or that could not be written, ends the printing; the run goes on, and [`Printed`] says which it was.
//!
//! Who owns what: a run takes the pipeline and the list of refused calls, and borrows its captures.
//!
//! What not to assume: the text of a report is exact, and that of counts; the notes on what was lost, documents, and the
//! lines of traces are tested.
#![tactic(auto)]

mod closing;
mod document;
mod reply;
mod run;
mod tracing;

pub use closing::{Flushed, flush_outputs, problem_of, run_captures};
pub use document::Notes;
pub use reply::{Printing, both, reply_of, say_problem, say_stop, status_of};
pub use run::{Ran, Watcher, problem_of_run, run_line, run_over};
pub use tracing::{Printed, TracedRun, trace_records};
