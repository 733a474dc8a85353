//! Defines the packet forwarder: its instructions, the facts about packets, the rows of certificates, the environments of programs, and, in specs/,
//! the machine that runs programs and the rules that accept them. Every other crate's contracts cite these definitions.
//!
//! Who owns what: nothing here owns heap memory, or a buffer. An `Instr`, a `Row` and a `Packet` are values that anyone may copy; an `Env` is copied
//! by `Env::copy`. Whether a packet is live is for `Mbufs` of dp_mbuf to say.
//!
//! What to call: `Env::new`, which makes an environment or returns the first cause that refuses it, and its readers; of a row `fact`, `bound_of` and
//! `is_well_formed`. The laws, such as `runs_keep_safe`, do nothing when they run: a function calls one to have its clause in its proof.
//!
//! What not to do: do not take a `Row` or a `Fact` for well formed, since its parts are public: ask `is_well_formed`. A proof knows that an `Env` has
//! no fault only after a call of `pools` or `copy`.
#![tactic(auto)]

mod definition_laws;
mod env;
mod instr;
mod laws;
mod limits;
mod needs;
mod packet;
mod queue;
mod registers;
mod row;
mod rule;
mod share;

pub use definition_laws::{
    budgets_are_as_they_read, longest_prefixes_agree, numbers_are_as_called, runs_are_as_they_read,
    whole_runs_end_with_whole_pools, worlds_stay_well_formed,
};
pub use env::{Entry, Env, EnvError, PoolSpec, PortSpec, RingSpec};
pub use instr::Instr;
pub use laws::{
    accepted_programs_are_safe, accepted_programs_are_sound, pipelines_keep_safe, runs_keep_safe,
    turns_stay_ready, uses_join, uses_keep_safe,
};
pub use limits::{
    DEFAULT_HEADROOM, MAX_BUFFERS, MAX_CACHED, MAX_HOP, MAX_RING, MAX_ROOM, MAX_SEGMENTS,
    MIN_PORT_ROOM,
};
pub use needs::{Bytes, Measure, Needs, Target, Written};
pub use packet::Packet;
pub use queue::Queue;
pub use registers::{NumberRegister, Operand, PacketRegister, Width};
pub use row::{Fact, Holding, Lead, Row};
pub use rule::Rule;
pub use share::{FIRST_GROUP, HEAD_SOLE, LOOSE, SOLE, is_share, share_of_group};
