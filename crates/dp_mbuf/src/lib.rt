//! Packets as chains of segments with reference counts and clones, in the objects of pools (DPDK Programmer's Guide, "Mbuf Library").
//! Lengths, rooms and offsets are in bytes; segments and pools count from 0.
//!
//! Each object of a pool is an mbuf: a header of 128 bytes, of which 22 are used, and a data room. Here packet A has two segments, and B is
//! its clone, whose mbufs are of pool 1. `p:i` is object i of pool p:
//!
//! ```text
//!  A   0:5, direct                                            0:9, direct
//!      +-------------------+----------+------+----------+     +-------------------+----------+------+----------+
//!      | segs 2   refs 2   | headroom | data | tailroom |     | segs 0   refs 2   | headroom | data | tailroom |
//!      | offset   len      |          |      |          |     | offset   len      |          |      |          |
//!      | next 0:9 last 0:9 |<-offset->|<len->|          |     | next 0:9          |<-offset->|<len->|          |
//!      | buffer 0:5        |          |      |          |     | buffer 0:9        |          |      |          |
//!      +-------------------+----------+------+----------+     +-------------------+----------+------+----------+
//!       header              data room ^                        header              data room ^
//!                                     |                                                      |
//!  B   1:3, indirect                  |                       1:4, indirect                  |
//!      +-------------------+          |                       +-------------------+          |
//!      | segs 2   refs 0   |          |                       | segs 0   refs 0   |          |
//!      | offset   len      |          |                       | offset   len      |          |
//!      | next 1:4 last 1:4 |          |                       | next 1:4          |          |
//!      | buffer 0:5        |----------+                       | buffer 0:9        |----------+
//!      +-------------------+                                  +-------------------+
//!       its own data room is not used
//! ```
//!
//! `segs` is the number of segments in a packet's first mbuf, and 0 in every other object: so a header shows whether a packet begins
//! there. `last` is read in the first mbuf alone, and `next` in all but the last. `refs` counts the segments whose buffer this is; a
//! segment is sole if that is 1.
//!
//! Who owns what: an `Mbufs` owns its pools, and with them all bytes. A `Packet` is a plain number, 65,536 times the pool plus the index of
//! the first mbuf; its holder may call while the packet is live. `free` drops one reference of each buffer. An object returns to its pool
//! when no live segment has it as its mbuf or its buffer, so B keeps 0:5 and 0:9 after A is freed.
//!
//! What to call: `alloc` or `receive` makes a packet, `clone_of` a clone, `prepend`, `adj`, `append`, `trim` and `chain` change one, `load` and
//! `store` read and write its first segment, `free` ends it. `sole_bytes` gives the bytes of a packet that is one object, and `free_sole` ends
//! such a packet without a test. `park` and `unpark` convert a handle to a `u32` and back, and change nothing;
//! the engine uses `Packet::number` and `Packet::of`.
//!
//! What not to do: no call tests what its contract requires. `store` and `prepend` require a sole first segment, `append` a sole last one;
//! the program checker makes sure of that, so the calls need no branch. An `Mbufs` cannot be dropped: free every packet, then call
//! `into_pools`. It takes some 25 kB, since the pools hold their caches in place; do not move it on a hot path.
//!
//! `alloc`, `adj`, `trim`, `prepend`, `append`, `load`, `store`, `is_live`, `headroom`, `tailroom`, `first_len`, `last_len`, `segments`,
//! `sole_bytes`, `free_sole` and `chain` take constant time. `free`, `clone_of`, `receive`, `is_sole` and `length` take one step for each segment.
#![tactic(auto)]

mod big_endian;
mod header;
mod limits;
mod mbuf_number;
mod mbufs;
mod objects;
mod steps;

pub use limits::{
    HEADER_SIZE, HEADROOM, MAX_LENGTH, MAX_MBUFS, MAX_OBJECT_SIZE, MAX_POOLS, MAX_ROOM,
    MAX_SEGMENTS, POOL_HANDLES, has_its_numbers,
};
pub use mbufs::Mbufs;
