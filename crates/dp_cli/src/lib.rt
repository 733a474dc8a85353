//! The commands of the program `dpv` over the host's files.
//!
//! [`run_command_line`] is the program: it finds the command by the words of the command line, reads the files that the command needs, decides, and
//! prints the reply. The words and the files are read by dp_request. What decides is in the crates below: dp_verdict (`check`, `explain`, `infer`,
//! `show`), dp_script (`mem`), and dp_runs over dp_captures (`run`, `one`, `filter`, `trace`). Here is the order in which a command calls them, and so
//! the order in which faults are found. [`sizes_of`] returns how many bytes of a region each pool, ring and port takes; its contract says that they add
//! up to what `need` of dp_engine returns. Tables and programs lie outside the region and are not counted.
//!
//! [`load_line`], [`check_line`], [`infer_line`], [`run_line`] and [`mem_line`] do what commands do over any files and captures, and print it on any two
//! writers, without help or documents. They return the exit status.
//!
//! What not to do: do not print to the streams directly, as the [`Console`](dp_console::Console) remembers a failed write for the status.
#![tactic(auto)]

mod judging;
mod program;
mod running;
mod showing;
mod sizes;
mod tracing;

pub use dp_captures::Streams;
pub use dp_runs::run_line;
pub use dp_script::mem_line;
pub use dp_verdict::{check_line, infer_line, load_line};
pub use program::{run_command_line, run_compiled};
pub use sizes::{PoolSize, Sizes, sizes_of};
pub use tracing::records_in;
