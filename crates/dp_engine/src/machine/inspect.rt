//! What a `View` reads of a machine.
ghost use Rattle.std.specs.Prelude.{◌≡◌, ◌<◌, ◌≤◌, false, length, slice_get, Some, IsTrue, IfSome, IfNone};
ghost use Rattle.dp_model.specs.Packets.{Packet, Segment, refs, packet_bytes, segment_bytes, available};
ghost use Rattle.dp_model.specs.Machine.{Holds, IsEmpty, live};

use crate::machine::Machine;
use crate::machine::packets::{handle_in, is_held_in};
use dp_model::PacketRegister;

impl Machine {
    // Whether a register holds a packet.
    pub(crate) fn holds(&self, p: PacketRegister) -> bool
        ensures some { IsTrue result → (packet : Packet) × Holds self.now.state p packet }
        ensures none { result ≡ false → IsEmpty self.now.state p }
    {
        is_held_in(&self.registers, p)
    }

    // The number of the packet's segments.
    pub(crate) fn segments(&self, p: PacketRegister) -> u32
        requires { (packet : Packet) × Holds self.now.state p packet }
        ensures { (packet : Packet) → Holds self.now.state p packet → result ≡ length packet }
    {
        let packet = handle_in(&self.registers, p);
        self.mbufs.segments(&packet)
    }

    // The length of the packet, in bytes.
    pub(crate) fn length(&self, p: PacketRegister) -> u32
        requires { (packet : Packet) × Holds self.now.state p packet }
        ensures { (packet : Packet) → Holds self.now.state p packet → result ≡ length (packet_bytes self.now.state.world.buffers packet) }
    {
        let packet = handle_in(&self.registers, p);
        self.mbufs.length(&packet)
    }

    // The bytes of a segment.
    pub(crate) fn segment_bytes(&self, p: PacketRegister, index: u32) -> &[u8]
        requires { (packet : Packet) × Holds self.now.state p packet × (index < length packet) }
        ensures { (packet : Packet) (s : Segment) → Holds self.now.state p packet → slice_get packet index ≡ Some s →
            result.now ≡ segment_bytes self.now.state.world.buffers s }
    {
        let packet = handle_in(&self.registers, p);
        self.mbufs.segment_bytes(&packet, index)
    }

    // How many segments of all packets refer to a segment's buffer.
    pub(crate) fn segment_refs(&self, p: PacketRegister, index: u32) -> u32
        requires { (packet : Packet) × Holds self.now.state p packet × (index < length packet) }
        ensures { (packet : Packet) (s : Segment) → Holds self.now.state p packet → slice_get packet index ≡ Some s
            → result ≡ refs (live self.now.state) s.buffer }
    {
        let packet = handle_in(&self.registers, p);
        self.mbufs.refs(&packet, index)
    }

    // The number of rings.
    pub(crate) fn rings(&self) -> usize
        ensures { result ≡ length self.now.frames.rings }
    {
        self.queues.rings()
    }

    // The number of transmit lists.
    pub(crate) fn lists(&self) -> usize
        ensures { result ≡ length self.now.frames.outboxes }
    {
        self.queues.outboxes()
    }

    // The number of free buffers of a pool, if the pool exists.
    pub(crate) fn free_in(&self, pool: u32) -> Option<u32>
        ensures some { IfSome result (λ n. n ≡ available self.now.pools (live self.now.state) pool) }
        ensures none { IfNone result (length self.now.pools ≤ pool) }
    {
        match self.mbufs.available_in(pool) {
            Some(free) => Some(free),
            None => None,
        }
    }
}
