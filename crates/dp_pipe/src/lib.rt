//! Runs pipelines from captures to captures.
//!
//! Who owns what: `run` and `trace` take the pipeline, and own the engine, its region and one buffer until they return. Readers and writers stay the
//! caller's.
//!
//! What to call: `dp_load::load`, then `run`, or `trace`, which writes nothing. Both take all memory before they read anything, and free every buffer
//! before they return.
//!
//! What not to do: do not call a reader or writer again that failed; the report says how far each input was read and what each port sent.
#![tactic(auto)]

mod forwarding;
mod opening;
mod running;
mod tracing;

pub use forwarding::{MAX_RUN_TURNS, RunCause};
pub use opening::engine_of;
pub use running::{RunFault, run, run_watched};
pub use tracing::{Traced, Tracer, trace};

// A pipeline that is loaded, and the call that loads it.
pub use dp_load::{FetchFault, Files, How, PipeError, Pipeline, load};
