//! Copies transmit lists to a batch.
ghost use Rattle.std.specs.Prelude.{◌≡◌, ◌+◌, ◌<◌, ◌≤◌, ℕ, List, ◌++◌, length, map, slice_get, Some};
ghost use Rattle.dp_model.specs.Buffers.{overwritten};
ghost use Rattle.dp_model.specs.Packets.{Packet, packet_bytes};
ghost use Rattle.dp_engine.specs.Batches.{Frame, Holds, KeepsRest, frame_of, frames_in, bytes_of_all};
ghost use Rattle.dp_engine.specs.Drains.{AtPacket};

use crate::batch::{BatchSize, SentRecord};
use crate::copying::copy_packet;
use crate::machine::Machine;
use dp_model::{Packet as Handle, Queue};

impl Machine {
    // Copies the bytes of a packet in a transmit list. Returns their number.
    fn copy_waiting(&self, port: u8, at: u32, bytes: &mut [u8], from: usize) -> u32
        requires there { port < length self.now.frames.outboxes }
        requires waits { (packets : List Packet) × (slice_get self.now.state.world.outboxes port ≡ Some packets) × (at < length packets) }
        requires room { AtPacket self.now port at (λ k. from + length (packet_bytes self.now.state.world.buffers k) ≤ length bytes.old) }
        ensures length { AtPacket self.now port at (λ k. result ≡ length (packet_bytes self.now.state.world.buffers k)) }
        ensures copied { AtPacket self.now port at (λ k. bytes.new ≡ overwritten bytes.old from (packet_bytes self.now.state.world.buffers k)) }
        ensures many { length bytes.new ≡ length bytes.old }
    {
        match self.queues.peek(Queue::Tx(port), at) {
            Some(packet) => copy_packet(&self.mbufs, Handle::of(packet), bytes, from),
            None => unreachable!(),
        }
    }

    // Copies the packets of a transmit list to a batch, after what it has.
    fn copy_list(
        &self,
        port: u8,
        time: u64,
        records: &mut [SentRecord],
        bytes: &mut [u8],
        held: BatchSize,
    ) -> BatchSize
        requires there { port < length self.now.frames.outboxes }
        requires records { (packets : List Packet) → slice_get self.now.state.world.outboxes port ≡ Some packets →
            held.records + length packets ≤ length records.old }
        requires bytes { (packets : List Packet) → slice_get self.now.state.world.outboxes port ≡ Some packets →
            held.bytes + length (bytes_of_all (map (frame_of port self.now.state.world.buffers) packets)) ≤ length bytes.old }
        ensures holds { (packets : List Packet) (frames : List Frame) → slice_get self.now.state.world.outboxes port ≡ Some packets →
            Holds time frames records.old bytes.old held
            → Holds time (frames ++ map (frame_of port self.now.state.world.buffers) packets) records.new bytes.new result }
        ensures many { (length records.new ≡ length records.old) × (length bytes.new ≡ length bytes.old) }
        ensures rest { KeepsRest result records.old records.new bytes.old bytes.new }
    {
        let count = self.count(Queue::Tx(port));
        let mut held = held;
        for at in 0..count {
            let length = self.copy_waiting(port, at, bytes, held.bytes);
            records[held.records] = SentRecord {
                time,
                offset: held.bytes as u64,
                port: u32::from(port),
                length,
            };
            held.records += 1;
            held.bytes += length as usize;
        }
        held
    }

    // Copies the packets of all transmit lists to a batch, port by port.
    pub(crate) fn copy_lists(
        &self,
        time: u64,
        records: &mut [SentRecord],
        bytes: &mut [u8],
    ) -> BatchSize
        requires records { length (frames_in self.now.state.world) ≤ length records.old }
        requires bytes { length (bytes_of_all (frames_in self.now.state.world)) ≤ length bytes.old }
        ensures holds { Holds time (frames_in self.now.state.world) records.new bytes.new result }
        ensures many { (length records.new ≡ length records.old) × (length bytes.new ≡ length bytes.old) }
        ensures rest { KeepsRest result records.old records.new bytes.old bytes.new }
    {
        let mut held = BatchSize {
            records: 0,
            bytes: 0,
        };
        for port in 0..self.queues.outboxes() as u8 {
            held = self.copy_list(port, time, records, bytes, held);
        }
        held
    }
}
