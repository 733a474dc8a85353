//! Heap scripts, as `dpv mem` runs them.
//!
//! [`mem_reply`] runs the lines of a script on a heap of their own, and returns what they print as a [`dp_console::Reply`]; [`mem_line`] prints that on
//! any two writers. The heap is dp_heap's, with its contract. The texts have none: the tests compare them.
#![tactic(auto)]

mod session;

pub use session::{mem_line, mem_reply};
