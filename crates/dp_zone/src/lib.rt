//! Memzones: named blocks of a heap (DPDK Programmer's Guide, "Memory Segments and Memory Zones").
//!
//! Who owns what: a `Zones` table has the names, offsets and lengths of the reserved zones; the holder of a `Zone` owns its bytes. Both
//! `reserve` and `give_back` take the heap that the zones belong to. Keep one table for each heap.
//!
//! What to call: `Zones::new`; `reserve` for a zone with a name of at most 31 bytes, `lookup` for where a name's zone lies, `give_back` to end one.
//! `bytes`, `part_mut`, `write`, `clear`, loads and stores of the `Zone` are for its bytes.
//!
//! What not to do: a `Zone` cannot be dropped; free it by `give_back`. A table that gets a zone of another table removes its own zone of
//! that name, if it has one, and nothing else.
//!
//! `reserve`, `lookup` and `give_back` compare up to 64 names. The calls of a `Zone` take constant time, except those that move bytes.
#![tactic(auto)]

mod error;
mod name;
mod zone;
mod zones;

pub use error::ZoneError;
pub use name::{MAX_NAME, ZoneName};
pub use zone::Zone;
pub use zones::{MAX_ZONES, ZoneInfo, Zones};
