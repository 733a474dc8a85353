//! Passes: a turn, and then the drains of all ports.
ghost use Rattle.std.specs.Prelude.{◌≡◌, ◌<◌, ◌≤◌, List, length, slice_get, Some, IfSome, IfNone};
ghost use Rattle.dp_model.specs.Packets.{Packet};
ghost use Rattle.dp_pcap.specs.declared.format.TheConstants.{MAX_RECORD};
ghost use Rattle.dp_engine.specs.Batches.{Holds, KeepsRest, Passes, all_buffers, all_drained, frames_in, max_batch, widest};
ghost use Rattle.dp_engine.specs.Engines.{drained, max_turns};
ghost use Rattle.dp_engine.specs.Shapes.{AreWaiting};

use crate::batch::{BatchSize, SentRecord};
use crate::compiled_programs::CompiledPrograms;
use crate::engine::{Engine, Turn};
use dp_model::{PoolSpec, Queue};

/// What a pass did.
#[derive(Clone, Copy)]
pub struct Pass {
    /// What became of the record, and the node runs.
    pub turn: Turn,
    /// What it sent: the number of records, and of their bytes.
    pub sent: BatchSize,
}

// The number of buffers in all pools together, at most 65,535.
fn buffers_in(pools: &[PoolSpec]) -> usize
    requires { all_buffers pools.now ≤ 65535 }
    ensures { result ≡ all_buffers pools.now }
{
    let mut count = 0usize;
    for pool in pools {
        count += pool.count as usize;
    }
    count
}

// The largest data room of the pools.
fn widest_room(pools: &[PoolSpec]) -> usize
    ensures { result ≡ widest pools.now }
{
    let mut room = 0usize;
    for pool in pools {
        room = room.max(pool.room as usize);
    }
    room
}

impl<K: CompiledPrograms> Engine<K> {
    /// The size of a batch, in records and bytes, with room for whatever a turn sends: as many records as there are buffers, each with the largest
    /// data room.
    pub fn batch_size(&self) -> BatchSize
        ensures { result ≡ max_batch self.now.setting.env }
    {
        let pools = self.context.env().pools();
        let records = buffers_in(pools);
        BatchSize {
            records,
            bytes: records * widest_room(pools),
        }
    }

    /// The number of packets in a ring, if it exists.
    pub fn waiting(&self, ring: u8) -> Option<u32>
        ensures some { IfSome result (AreWaiting self.now.world.rings ring) }
        ensures none { IfNone result (length self.now.setting.env.rings ≤ ring) }
    {
        if usize::from(ring) < self.context.env().rings().len() {
            Some(self.machine.count(Queue::Ring(ring)))
        } else {
            None
        }
    }

    // Copies the packets of all transmit lists to a batch that has room for them.
    fn copy_sent(&self, time: u64, records: &mut [SentRecord], bytes: &mut [u8]) -> BatchSize
        requires records { (max_batch self.now.setting.env).records ≤ length records.old }
        requires bytes { (max_batch self.now.setting.env).bytes ≤ length bytes.old }
        ensures holds { Holds time (frames_in self.now.world) records.new bytes.new result }
        ensures many { (length records.new ≡ length records.old) × (length bytes.new ≡ length bytes.old) }
        ensures rest { KeepsRest result records.old records.new bytes.old bytes.new }
    {
        self.machine.copy_lists(time, records, bytes)
    }

    // Frees the packets of a port's transmit list, and counts them as sent.
    fn count_sent(&mut self, port: u8)
        requires { port < length self.old.setting.env.ports }
        ensures { (packets : List Packet) → slice_get self.old.world.outboxes port ≡ Some packets → self.new ≡ drained port (length packets) self.old }
    {
        self.tallies[usize::from(port)].sent += u64::from(self.machine.count(Queue::Tx(port)));
        self.machine.clear(Queue::Tx(port));
    }

    // Frees the packets of all transmit lists, and counts them as sent.
    fn clear_lists(&mut self)
        ensures { self.new ≡ all_drained self.old }
    {
        let ports = self.context.env().ports().len();
        for port in 0..ports as u8 {
            self.count_sent(port);
        }
    }

    /// Takes a turn, as [`turn`](Engine::turn) does, then drains all ports into the caller's arrays: the records into `records`, port by port, first
    /// to last, and their bytes into `bytes`, in the same order. Both must be as long as [`batch_size`](Engine::batch_size) says. The port must exist,
    /// and the frame have at most 262,144 bytes. Each record gets the time, in the caller's unit. It takes no memory.
    pub fn pass(
        &mut self,
        port: u8,
        frame: &[u8],
        time: u64,
        records: &mut [SentRecord],
        bytes: &mut [u8],
    ) -> Pass
        requires exists { port < length self.old.setting.env.ports }
        requires limit { self.old.turns < max_turns }
        requires size { length frame.now ≤ MAX_RECORD }
        requires records { (max_batch self.old.setting.env).records ≤ length records.old }
        requires bytes { (max_batch self.old.setting.env).bytes ≤ length bytes.old }
        ensures passes { Passes self.old self.new port frame.now result.turn time records.new bytes.new result.sent }
        ensures many { (length records.new ≡ length records.old) × (length bytes.new ≡ length bytes.old) }
        ensures rest { KeepsRest result.sent records.old records.new bytes.old bytes.new }
    {
        let turn = self.turn(port, frame);
        let sent = self.copy_sent(time, records, bytes);
        self.clear_lists();
        Pass { turn, sent }
    }
}
