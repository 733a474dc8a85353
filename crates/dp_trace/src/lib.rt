//! A record of a trace as a document: where it came in, what each instruction changed, and the turn.
//!
//! A [`Record`] takes the events of a turn as they come; [`Record::end`] returns the line that says them. The run that shows the events is in dp_runs,
//! and the words in which a record is said are in `tools/views`. What is written is tested, not proved. A line for which memory was refused remembers
//! it.
#![tactic(auto)]

mod record;

pub use record::Record;
