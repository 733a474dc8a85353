//! What a watcher can see of a machine between two instructions.
ghost use Rattle.std.specs.Prelude.{◌≡◌, ◌<◌, ◌≤◌, ℕ, List, length, slice_get, slice_index, Some, IfSome, IfNone};
ghost use Rattle.dp_model.specs.Packets.{Packet, available};
ghost use Rattle.dp_model.specs.Machine.{Holds, IsEmpty, live};
ghost use Rattle.dp_engine.specs.Shapes.{IsShapeOf, IsSegmentOf, AreWaiting};

use crate::machine::Machine;
use dp_model::{NumberRegister, PacketRegister, Queue};
use std::marker::Model;

/// A packet, except its bytes.
#[derive(Clone, Copy, PartialEq, Eq)]
pub struct PacketShape {
    /// How many segments it has, 1 to 64.
    pub segments: u32,
    /// How many bytes it has in all.
    pub length: u32,
    /// The free bytes before the first segment's data.
    pub headroom: u16,
    /// The free bytes after the last segment's data.
    pub tailroom: u16,
}

/// A segment of a packet.
#[derive(Clone, Copy)]
pub struct SegmentView<'a> {
    /// Its bytes.
    pub bytes: &'a [u8],
    /// How many segments of all packets refer to its buffer.
    pub refs: u32,
}

/// A machine between two instructions, or between two node runs.
#[derive(Drop)]
pub struct View<'a> {
    machine: &'a Machine,
}

impl<'a> Model for View<'a> {
    ghost use Rattle.dp_engine.specs.Handles.{Core};

    ghost Value = { Core };

    ghost view = { λ v. v.machine.now };
}

impl<'a> View<'a> {
    // A view of the machine.
    #[inline(always)]
    pub(crate) fn of(machine: &'a Machine) -> View<'a>
        ensures { result ≡ machine.now }
    {
        View { machine }
    }

    /// The number in a register.
    pub fn number(&self, r: NumberRegister) -> u64
        ensures { result ≡ slice_index self.now.state.numbers r }
    {
        self.machine.number(r)
    }

    /// The number of allocation calls.
    pub fn calls(&self) -> u64
        ensures { result ≡ self.now.state.world.calls }
    {
        self.machine.calls()
    }

    /// The packet in a register, if there is one.
    pub fn packet(&self, p: PacketRegister) -> Option<PacketShape>
        ensures some { IfSome result (λ shape. (packet : Packet) × Holds self.now.state p packet × IsShapeOf self.now packet shape) }
        ensures none { IfNone result (IsEmpty self.now.state p) }
    {
        if self.machine.holds(p) {
            Some(PacketShape {
                segments: self.machine.segments(p),
                length: self.machine.length(p),
                headroom: self.machine.headroom(p),
                tailroom: self.machine.tailroom(p),
            })
        } else {
            None
        }
    }

    /// The segment with this index, from 0, of the packet in a register, if there is one.
    pub fn segment(&self, p: PacketRegister, index: u32) -> Option<SegmentView<'a>>
        ensures some { IfSome result (λ s. (packet : Packet) × Holds self.now.state p packet × IsSegmentOf self.now packet index s.bytes.now s.refs) }
        ensures none { IfNone result ((packet : Packet) → Holds self.now.state p packet → length packet ≤ index) }
    {
        if !self.machine.holds(p) || self.machine.segments(p) <= index {
            return None;
        }
        Some(SegmentView {
            bytes: self.machine.segment_bytes(p, index),
            refs: self.machine.segment_refs(p, index),
        })
    }

    /// The number of packets in a ring, if it exists.
    pub fn waiting(&self, ring: u8) -> Option<u32>
        ensures some { IfSome result (AreWaiting self.now.state.world.rings ring) }
        ensures none { IfNone result (length self.now.frames.rings ≤ ring) }
    {
        if usize::from(ring) < self.machine.rings() {
            Some(self.machine.count(Queue::Ring(ring)))
        } else {
            None
        }
    }

    /// The number of packets in the transmit list of a port, if it exists.
    pub fn queued(&self, port: u8) -> Option<u32>
        ensures some { IfSome result (AreWaiting self.now.state.world.outboxes port) }
        ensures none { IfNone result (length self.now.frames.outboxes ≤ port) }
    {
        if usize::from(port) < self.machine.lists() {
            Some(self.machine.count(Queue::Tx(port)))
        } else {
            None
        }
    }

    /// The number of free buffers of a pool, if it exists.
    pub fn free(&self, pool: u32) -> Option<u32>
        ensures some { IfSome result (λ n. n ≡ available self.now.pools (live self.now.state) pool) }
        ensures none { IfNone result (length self.now.pools ≤ pool) }
    {
        self.machine.free_in(pool)
    }
}
