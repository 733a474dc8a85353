//! The engine: turns and drains of a pipeline, with all buffers, rings and transmit lists in one region.
//!
//! ```text
//!    record of port p                                            a capture, or a batch
//!          |                                                               ^
//!          |  receive; or drop: nobuf, oversize                            |  drain
//!          v                                                               |
//!  +----------------+   tx    +-------------------------------+            |
//!  | node of port p | ------> | transmit lists, one each port | -----------+
//!  +----------------+         +-------------------------------+
//!          |                                   ^
//!          |  enq                              |  tx
//!          v                                   |
//!  +----------------+   the front packet   +----------------+
//!  | rings 0, 1, .. | -------------------> | node of a ring |     up to 32 times in a turn
//!  +----------------+   of the lowest      +----------------+
//!          ^            ring that has one      |
//!          |                                   |  enq
//!          +-----------------------------------+
//! ```
//!
//! A turn is one record: it is received or dropped, the port's program runs on it, then up to 32 programs run on packets that wait in rings. A
//! node run takes at most 256 backward jumps; one more cuts it, and its packets are freed. A drain writes a transmit list, first to last, and
//! frees its packets.
//!
//! Who owns what: an `Engine` owns the region, the tables and the checked programs. Each packet is held once: by a register during a node run,
//! or by a ring or a transmit list. No packet outlives `finish`.
//!
//! What to call: `need` for the size of the region; `open`; `refuse` before the first turn, if calls are to be refused; then `turn` and `drain`
//! (or `pass`, which does both into the caller's arrays); `flush` if the packets that wait are to be dropped; `report` at any time; `finish`,
//! which gives the region back with every buffer free.
//!
//! What not to do: an `Engine` cannot be dropped. After `open` no call takes memory. The engine tests nothing that the checker has settled:
//! programs come as `Checked`, of the same environment and their own entries.
#![tactic(auto)]

mod acts;
mod batch;
mod builder;
mod compiled_programs;
mod context;
mod copying;
mod engine;
mod machine;
mod memory;
mod names;
mod needs;
mod node;
mod put;
mod queues;
mod report;
mod rerouting;
mod rings;
mod route_lookup;
mod run;
mod serving;
mod setting;
mod view;
mod watch;

pub use batch::{BatchSize, SentRecord};
pub use compiled_programs::{Also, Compiled, CompiledPrograms, Nothing};
pub use engine::{Engine, OpenFault, Outcome, Pass, Turn, WriteFault};
pub use needs::need;
pub use report::{InputState, PoolReport, PortReport, Report};
pub use rerouting::RouteFault;
pub use view::{PacketShape, SegmentView, View};
pub use watch::{Silent, Watch, Way, turns_are_runs};
