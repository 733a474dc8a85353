//! Proves that clones are copies: a run over shared buffers writes what a machine without shared buffers writes. It has laws only; nothing here runs.
//!
//! What it is given: definitions of dp_model alone. The laws are about every environment that `Env::new` accepts, all tables, programs and records,
//! every pattern of refused calls, and every beginning of the buffers.
//!
//! What to call: `clones_are_copies` in a function whose contract is about whole captures, as `dp_pipe::run` does. The call costs nothing, and its
//! clause is then known in the proof.
//!
//! What not to assume: `clones_are_copies` is about runs in which no node run is stuck; that is a law of dp_model (`runs_keep_safe`), for accepted
//! programs. Nothing is said of which buffers a run takes.
#![tactic(auto)]

mod examples;
mod laws;

pub use examples::two_clones_in_both_machines;
pub use laws::{
    buffers_are_not_seen, clones_are_copies, copies_are_deterministic, uses_are_copied,
    writes_are_not_seen,
};
