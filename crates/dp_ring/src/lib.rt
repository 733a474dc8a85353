//! Rings of 4-byte numbers, first in, first out, in a memzone, on one lcore (DPDK Programmer's Guide, "Ring Library").
//!
//! Who owns what: a `Ring` owns its zone, and `into_zone` returns the zone whatever the entries are. The numbers mean nothing to a ring: a
//! caller that puts packets into one keeps their ownership elsewhere.
//!
//! What to call: `enqueue` and `dequeue` for one number, the `_bulk` calls for all or nothing, the `_burst` calls for as many as possible.
//! One slot stays unused, as in DPDK: a ring of `count` slots holds `count - 1` entries. Any `count` from 2 to 65,536 works, not only
//! powers of two.
//!
//! What not to do: a `Ring` cannot be dropped. No call blocks, divides or takes memory; `contains` alone looks at every entry.
#![tactic(auto)]

mod ring;
mod runs;

pub use ring::Ring;
