//! Packets that wait in queues: how they get there, are served, drained and dropped.
ghost use Rattle.std.specs.Prelude.{◌≡◌, ◌+◌, ◌<◌, ◌≤◌, length, List, [], ◌∷◌, ◌++◌, nat_lt, MatchOption, ◌↔◌, false, None, Some, IsTrue, slice_get};
ghost use Rattle.std.specs.Prelude.{OnOk, OnErr, IfOk, IfErr, IsOk, IsErr, MatchResult, flat_map, take, true};
ghost use Rattle.dp_model.specs.Packets.{Packet};
ghost use Rattle.dp_model.specs.Machine.{Holds, without_packet, packets_in, with_queue};
ghost use Rattle.std.specs.List.{AllByRecursion};
ghost use Rattle.dp_model.specs.Runs.{first_state, first_waiting};
ghost use Rattle.dp_engine.specs.Handles.{moved};
ghost use Rattle.dp_model.specs.declared.queue.Queue.TheVariants.{Tx};
ghost use Rattle.dp_engine.specs.HandleQueues.{IsQueue, ring_of_queue};
ghost use Rattle.std.specs.Io.KnownBytes.{Appends};
ghost use Rattle.dp_pcap.specs.declared.format.TheConstants.{NANOS_A_SECOND};
ghost use Rattle.dp_pcap.specs.Text.{AppendsPart, record_text, failed_pushes};
ghost use Rattle.dp_engine.specs.Drains.{record_of, AtPacket, Written, WrotePart, whole_of, IsCalledFor};

use crate::machine::Machine;
use crate::machine::packets::handle_in;
use crate::machine::register::{Register, set_first};
use crate::put::put_and_free;
use dp_model::{Packet as Handle, PacketRegister, Queue};
use dp_pcap::{PcapError, Sink, Time, Unit};
use dp_pool::proved;

impl Machine {
    // Moves a packet to the end of a queue. Returns false if it is full.
    #[inline(always)]
    pub(crate) fn move_to(&mut self, p: PacketRegister, queue: Queue) -> bool
        requires holds { (packet : Packet) × Holds self.old.state p packet }
        requires there { IsQueue queue self.old.frames.rings self.old.frames.outboxes }
        ensures taken { (packets : List Packet) → packets_in queue self.old.state.world ≡ Some packets →
            result ≡ nat_lt (length packets + 1) (ring_of_queue queue self.old.frames.rings self.old.frames.outboxes).count }
        ensures sent { IsTrue result → (packet : Packet) (packets : List Packet) → Holds self.old.state p packet → packets_in queue self.old.state.world
            ≡ Some packets
            → self.new ≡ moved (with_queue queue (packets ++ packet ∷ []) (without_packet p self.old.state)) self.old }
        ensures full { result ≡ false → self.new ≡ self.old }
    {
        let packet = handle_in(&self.registers, p);
        if !self.queues.push(queue, packet.number()) {
            return false;
        }
        self.registers[usize::from(p.number())] = Register::empty();
        true
    }

    // Moves the front packet of the first ring that has one into the first packet register, and puts the ring's number into the first number
    // register. Returns that ring, if there is one.
    pub(crate) fn take_waiting(&mut self) -> Option<u8>
        requires idle { AllByRecursion (λ o. o ≡ None) self.old.state.packets }
        ensures { MatchOption (first_waiting self.old.state.world.rings)
            ((result ≡ None) × (self.new ≡ self.old))
            (λ w. (result ≡ Some w.ring) × (self.new ≡ moved (first_state w.packet w.ring (record self.old.state.world { rings = w.rings })) self.old)) }
    {
        let first = self.queues.first_waiting();
        if let Some(ring) = first {
            let packet = self.queues.pop_waiting(ring);
            set_first(&mut self.registers, packet);
            self.numbers = [u64::from(ring), 0, 0, 0, 0, 0, 0, 0];
            self.jumps = 0;
        }
        first
    }

    // Frees the first packet of a queue, which must have one.
    #[inline(always)]
    fn drop_first(&mut self, queue: Queue)
        requires there { IsQueue queue self.old.frames.rings self.old.frames.outboxes }
        requires some { (packets : List Packet) × (packet : Packet) × (packets_in queue self.old.state.world ≡ Some (packet ∷ packets)) }
        ensures { (packets : List Packet) (packet : Packet) → packets_in queue self.old.state.world ≡ Some (packet ∷ packets) →
            self.new ≡ moved (with_queue queue packets self.old.state) self.old }
    {
        match self.queues.pop(queue) {
            Some(packet) => self.mbufs.free(Handle::of(packet)),
            None => {
                proved(false);
                unreachable!()
            }
        }
    }

    // Frees all packets of a queue.
    #[inline(always)]
    pub(crate) fn clear(&mut self, queue: Queue)
        requires { IsQueue queue self.old.frames.rings self.old.frames.outboxes }
        ensures { self.new ≡ moved (with_queue queue [] self.old.state) self.old }
    {
        let count = self.count(queue);
        for _gone in 0..count {
            self.drop_first(queue);
        }
    }

    // Removes the first packet of a transmit list, which must have one, writes its record and frees it, even if the writer fails.
    #[inline(always)]
    fn put_first<W: Sink>(
        &mut self,
        port: u8,
        time: Time,
        unit: Unit,
        w: &mut W,
    ) -> Result<(), PcapError>
        requires there { port < length self.old.frames.outboxes }
        requires some { (packets : List Packet) × (packet : Packet) × (slice_get self.old.state.world.outboxes port ≡ Some (packet ∷ packets)) }
        requires nano { time.nano < NANOS_A_SECOND }
        ensures ok { OnOk result (AtPacket self.old port 0 (λ k. Appends (W.contents w.old) (W.contents w.new)
            (record_of unit time self.old.state.world.buffers k))) }
        ensures err { OnErr result (AtPacket self.old port 0 (λ k. AppendsPart (W.contents w.old) (W.contents w.new)
            (record_of unit time self.old.state.world.buffers k))) }
        ensures failed { IsErr result ↔ IsTrue (W.is_broken w.new) }
        ensures stays { IsTrue (W.is_broken w.old) → IsTrue (W.is_broken w.new) }
        ensures write { IfErr result (λ e. e ≡ PcapError.Write) }
        ensures counted { AtPacket self.old port 0 (λ k. W.calls w.new ≤ W.calls w.old + length (record_of unit time self.old.state.world.buffers k)) }
        ensures failures { W.failures w.new ≡ W.failures w.old + failed_pushes result }
        ensures rest { (packets : List Packet) (packet : Packet) → slice_get self.old.state.world.outboxes port ≡ Some (packet ∷ packets) →
            self.new ≡ moved (with_queue (Tx port) packets self.old.state) self.old }
    {
        match self.queues.pop(Queue::Tx(port)) {
            Some(packet) => put_and_free(&mut self.mbufs, Handle::of(packet), time, unit, w),
            None => {
                proved(false);
                unreachable!()
            }
        }
    }

    // Frees what a transmit list has left after a failure. Not inlined, so that the free path is inlined once per drain.
    #[cold]
    #[inline(never)]
    fn drop_rest(&mut self, port: u8)
        requires { port < length self.old.frames.outboxes }
        ensures { self.new ≡ moved (with_queue (Tx port) [] self.old.state) self.old }
    {
        self.clear(Queue::Tx(port));
    }

    // Writes the records of a transmit list, first to last, and frees its packets, also those after a failure. Returns how many were written whole,
    // and whether all were.
    #[inline(always)]
    pub(crate) fn drain_list<W: Sink>(
        &mut self,
        port: u8,
        time: Time,
        unit: Unit,
        w: &mut W,
    ) -> Result<u32, u32>
        requires there { port < length self.old.frames.outboxes }
        requires nano { time.nano < NANOS_A_SECOND }
        ensures ok { IfOk result (λ sent. Written unit time port self.old.state.world (λ records. (sent ≡ length records)
            × Appends (W.contents w.old) (W.contents w.new) (flat_map (record_text unit) records))) }
        ensures err { IfErr result (λ sent. Written unit time port self.old.state.world
            (λ records. WrotePart (W.contents w.old) (W.contents w.new) unit records sent)) }
        ensures broken { IsErr result → IsTrue (W.is_broken w.new) }
        ensures sound { IsOk result → W.is_broken w.old ≡ false → W.is_broken w.new ≡ false }
        ensures most { (packets : List Packet) → slice_get self.old.state.world.outboxes port ≡ Some packets → whole_of result ≤ length packets }
        ensures counted { Written unit time port self.old.state.world (λ records.
            IsCalledFor (W.calls w.old) (W.calls w.new) unit (take (whole_of result + 1) records)) }
        ensures failures { MatchResult result (λ _. W.failures w.new ≡ W.failures w.old) (λ _. W.failures w.new ≡ W.failures w.old + 1) }
        ensures empty { self.new ≡ moved (with_queue (Tx port) [] self.old.state) self.old }
    {
        let count = self.count(Queue::Tx(port));
        for sent in 0..count {
            if self.put_first(port, time, unit, w).is_err() {
                self.drop_rest(port);
                return Err(sent);
            }
        }
        Ok(count)
    }

    // The number of packets in a queue.
    #[inline(always)]
    pub(crate) fn count(&self, queue: Queue) -> u32
        requires there { IsQueue queue self.now.frames.rings self.now.frames.outboxes }
        ensures list { (packets : List Packet) × (packets_in queue self.now.state.world ≡ Some packets) × (result ≡ length packets) }
        ensures bound { result < (ring_of_queue queue self.now.frames.rings self.now.frames.outboxes).count }
    {
        self.queues.count(queue)
    }
}
