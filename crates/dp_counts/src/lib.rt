//! Counts node runs: for each instruction of each node, how often it ran, how often its jump was taken, and how often a node run was cut there.
//!
//! A caller makes `Counts` and gives them to `run_watched` of dp_pipe, or to an engine's `watched_turn`, as the watcher. A step to the next
//! instruction counts nothing: control comes to a label from the one before, unless an event says otherwise. So only the beginnings of node
//! runs, taken jumps, ends and cuts are counted, and how often an instruction ran is their sum up to its label. An event takes no memory.
//! `Counting` is the counts of a run with the sources of its programs. After the run, its `say` says the programs in the words of their source with
//! their counts, and the sums for each table and ring; its `write` adds the programs with their counts to a document. From that, tools/views/counts.py
//! makes the counts of a document of `--json`, those by lines and by names, and the places where packets ended.
//! `Losses` is a watcher that counts only what was refused, and `say_report` says the report of a run.
//!
//! Who owns what: the caller owns the `Counts` and lends them to the run; `Counting` borrows the texts of the programs. Only `new` takes memory, 560 kB.
//!
//! What not to assume: the texts of reports and of counts are exact. A number wraps at 2^64, which no run of captures reaches. `step` adds up from
//! label 0 each time. A step that was cut counts as one that ran and not as a jump. `levels`, refusals, which line has which instruction, and
//! documents are tested, not proved.
#![tactic(auto)]

mod counting;
mod counts;
mod document;
mod laws;
mod levels;
mod listing;
mod losses;
mod report;
mod source;

pub use counting::{Counting, Wanted};
pub use counts::{Counts, StepCounts};
pub use laws::{counts_are_of_steps, counts_are_of_turns, counts_begin_at_zero};
pub use levels::Levels;
pub use listing::{Total, total_of};
pub use losses::{Losses, Refusals};
pub use report::{Totals, say_report};
pub use source::{NodeSource, ProgramText, Role, SourceLine, Step};
