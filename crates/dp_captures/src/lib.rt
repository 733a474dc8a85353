//! The captures of a run: which ones the words and the pipeline name, opening them, the guard of the outputs, and writing out what they hold back.
//!
//! A run reads one capture for each port and writes another. [`Replacements`] are those that words give; [`names_of`] says which capture stands for
//! which port. [`open_captures`] opens them: the inputs in port order, then the outputs. An output that is a file of the run is refused before a byte is
//! written. [`Outlet::close`] writes out what an output holds back. The run over them is in dp_runs.
//!
//! What a file took counts from its first byte: outputs begin empty and inputs unread. A writer that failed is not called again.
#![tactic(auto)]

mod faults;
mod file_id;
mod guard;
mod guarded;
mod input_file;
mod names;
mod opening;
mod outlet;
mod output_file;
mod watched;
mod words;

pub use faults::{CaptureFault, CaptureProblem, CaptureReason, reason_of_input};
pub use file_id::{FileId, ReadFile, note_read};
pub use guarded::Guarded;
pub use input_file::InputFile;
pub use names::{CaptureNames, names_of};
pub use opening::{
    BUFFER, InputOf, OutputOf, Streams, UNBUFFERED, open_captures, open_inputs,
    remove_empty_outputs,
};
pub use outlet::{Incomplete, Outlet};
pub use output_file::OutputFile;
pub use watched::{Inlet, Progress, Seen, Watched};
pub use words::{
    Direction, Place, Replaced, Replacements, WordForm, WordProblem, captures_of, given_by,
};
