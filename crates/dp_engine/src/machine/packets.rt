//! Calls on the packets in registers.
ghost use Rattle.std.specs.Prelude.{◌≡◌, ◌≢◌, ℕ, ◌+◌, ◌^◌, ◌<◌, ◌≤◌, true, false, not, List, ◌++◌, length, slice_get, Some, option_map, is_some};
ghost use Rattle.dp_model.specs.Arithmetic.{bytes_in};
ghost use Rattle.dp_model.specs.Buffers.{Number, Buffers, ChangesOnly};
ghost use Rattle.dp_model.specs.Packets.{Packet, AreFresh, allocated, cloned, headroom, tailroom};
ghost use Rattle.dp_model.specs.Packets.{last_len, first_len, IsHeadSole, IsTailSole, at_front, less_before};
ghost use Rattle.dp_model.specs.Packets.{at_end, more_before, more_after, less_after, zeroed_before, zeroed_after, loaded, stored};
ghost use Rattle.dp_model.specs.Limits.{max_segments};
ghost use Rattle.dp_model.specs.Machine.{Holds, IsEmpty, live, is_denied, with_call, with_packet, without_packet, with_buffers};
ghost use Rattle.dp_engine.specs.Handles.{moved};
ghost use Rattle.dp_engine.specs.Steps.{setting_in};

use crate::machine::register::Register;
use crate::machine::{Machine, is_listed};
use crate::setting::Setting;
use dp_model::{Packet as Handle, PacketRegister, Width};

// The handle in a register that holds a packet.
#[inline(always)]
pub(super) fn handle_in(registers: &[Register; 8], p: PacketRegister) -> Handle
    requires { (h : ℕ) × (slice_get registers.now p ≡ Some (Some h)) }
    ensures { slice_get registers.now p ≡ Some (Some result) }
{
    Handle::of(registers[usize::from(p.number())].handle())
}

// Whether a register holds a packet.
pub(super) fn is_held_in(registers: &[Register; 8], p: PacketRegister) -> bool
    ensures { option_map is_some (slice_get registers.now p) ≡ Some result }
{
    registers[usize::from(p.number())].is_held()
}

impl Machine {
    // The length of the first segment.
    pub(crate) fn first_len(&self, p: PacketRegister) -> u16
        requires { (packet : Packet) × Holds self.now.state p packet }
        ensures { (packet : Packet) → Holds self.now.state p packet → result ≡ first_len packet }
    {
        let packet = handle_in(&self.registers, p);
        self.mbufs.first_len(&packet)
    }

    // Removes `n` bytes from the start of the first segment.
    pub(crate) fn adj(&mut self, p: PacketRegister, n: u16)
        requires { (packet : Packet) × Holds self.old.state p packet × (n ≤ first_len packet) }
        ensures { (packet : Packet) → Holds self.old.state p packet
            → self.new ≡ moved (with_packet p (at_front (less_before n) packet) self.old.state) self.old }
    {
        let packet = handle_in(&self.registers, p);
        self.mbufs.adj(&packet, n);
    }

    // Frees the packet in a register.
    pub(crate) fn free(&mut self, p: PacketRegister)
        requires { (packet : Packet) × Holds self.old.state p packet }
        ensures { self.new ≡ moved (without_packet p self.old.state) self.old }
    {
        let packet = handle_in(&self.registers, p);
        self.mbufs.free(packet);
        self.registers[usize::from(p.number())] = Register::empty();
    }

    // The free bytes before the first segment's data.
    pub(crate) fn headroom(&self, p: PacketRegister) -> u16
        requires { (packet : Packet) × Holds self.now.state p packet }
        ensures { (packet : Packet) → Holds self.now.state p packet → result ≡ headroom packet }
    {
        let packet = handle_in(&self.registers, p);
        self.mbufs.headroom(&packet)
    }

    // The free bytes after the last segment's data.
    pub(crate) fn tailroom(&self, p: PacketRegister) -> u16
        requires { (packet : Packet) × Holds self.now.state p packet }
        ensures { (packet : Packet) → Holds self.now.state p packet → result ≡ tailroom self.now.pools packet }
    {
        let packet = handle_in(&self.registers, p);
        self.mbufs.tailroom(&packet)
    }

    // The length of the last segment.
    pub(crate) fn last_len(&self, p: PacketRegister) -> u16
        requires { (packet : Packet) × Holds self.now.state p packet }
        ensures { (packet : Packet) → Holds self.now.state p packet → result ≡ last_len packet }
    {
        let packet = handle_in(&self.registers, p);
        self.mbufs.last_len(&packet)
    }

    // Removes `n` bytes from the end of the last segment.
    pub(crate) fn trim(&mut self, p: PacketRegister, n: u16)
        requires { (packet : Packet) × Holds self.old.state p packet × (n ≤ last_len packet) }
        ensures { (packet : Packet) → Holds self.old.state p packet → self.new ≡ moved (with_packet p (at_end (less_after n) packet) self.old.state) self.old }
    {
        let packet = handle_in(&self.registers, p);
        self.mbufs.trim(&packet, n);
    }

    // Adds `n` zero bytes before the first segment.
    pub(crate) fn prepend(&mut self, p: PacketRegister, n: u16)
        requires { (packet : Packet) × Holds self.old.state p packet × (n ≤ headroom packet) × IsHeadSole (live self.old.state) packet }
        ensures { (packet : Packet) → Holds self.old.state p packet → self.new ≡ moved
            (with_packet p (at_front (more_before n) packet) (with_buffers (zeroed_before n packet self.old.state.world.buffers) self.old.state)) self.old }
    {
        let packet = handle_in(&self.registers, p);
        self.mbufs.prepend(&packet, n);
    }

    // Adds `n` zero bytes after the last segment.
    pub(crate) fn append(&mut self, p: PacketRegister, n: u16)
        requires { (packet : Packet) × Holds self.old.state p packet × (n ≤ tailroom self.old.pools packet) × IsTailSole (live self.old.state) packet }
        ensures { (packet : Packet) → Holds self.old.state p packet → self.new ≡ moved
            (with_packet p (at_end (more_after n) packet) (with_buffers (zeroed_after n packet self.old.state.world.buffers) self.old.state)) self.old }
    {
        let packet = handle_in(&self.registers, p);
        self.mbufs.append(&packet, n);
    }

    // Loads the big-endian number at an offset of the first segment.
    pub(crate) fn load(&self, p: PacketRegister, offset: u64, width: Width) -> u64
        requires { (packet : Packet) × Holds self.now.state p packet × (offset + bytes_in width ≤ first_len packet) }
        ensures { (packet : Packet) → Holds self.now.state p packet → result ≡ loaded offset (bytes_in width) packet self.now.state.world.buffers }
    {
        let packet = handle_in(&self.registers, p);
        self.mbufs.load(&packet, offset, width)
    }

    // Stores the low bytes of a number, big-endian, at an offset of the first segment.
    pub(crate) fn store(&mut self, p: PacketRegister, offset: u64, width: Width, n: u64)
        requires { (packet : Packet) × Holds self.old.state p packet × (offset + bytes_in width ≤ first_len packet) × IsHeadSole (live self.old.state) packet }
        ensures { (packet : Packet) → Holds self.old.state p packet → self.new ≡ moved
            (with_buffers (stored offset (bytes_in width) n packet self.old.state.world.buffers) self.old.state) self.old }
    {
        let packet = handle_in(&self.registers, p);
        self.mbufs.store(&packet, offset, width, n);
    }

    // Appends the second packet to the first. Its register is empty then.
    pub(crate) fn chain(&mut self, front: PacketRegister, back: PacketRegister)
        requires { (packet : Packet) × (t : Packet) × Holds self.old.state front packet × Holds self.old.state back t × (front ≢ back)
            × (length packet + length t ≤ max_segments) }
        ensures { (packet : Packet) (t : Packet) → Holds self.old.state front packet → Holds self.old.state back t →
            self.new ≡ moved (without_packet back (with_packet front (packet ++ t) self.old.state)) self.old }
    {
        let head = handle_in(&self.registers, front);
        let tail = handle_in(&self.registers, back);
        self.mbufs.chain(&head, tail);
        self.registers[usize::from(back.number())] = Register::empty();
    }

    // Allocates a packet of one empty segment into an empty register. Returns false if the call is refused.
    #[inline(always)]
    pub(crate) fn alloc(&mut self, setting: &Setting, into: PacketRegister, pool: u8) -> bool
        requires empty { IsEmpty self.old.state into }
        requires exists { pool < length setting.now.env.pools }
        requires pools { self.old.pools ≡ setting.now.env.pools }
        requires few { self.old.state.world.calls + 1 < 2 ^ 64 }
        ensures denied { not result ≡ is_denied (setting_in setting.now) self.old.state pool 1 }
        ensures refused { result ≡ false → self.new ≡ moved (with_call self.old.state) self.old }
        ensures given { result ≡ true → (ns : List Number) × (buffers : Buffers) × AreFresh setting.now.env.pools (live self.old.state) pool 1 ns
            × ChangesOnly ns self.old.state.world.buffers buffers
            × (self.new ≡ moved (with_call (with_packet into (allocated setting.now.env.pools ns) (with_buffers buffers self.old.state))) self.old) }
    {
        self.calls += 1;
        if is_listed(setting.pattern(), self.calls) {
            return false;
        }
        match self.mbufs.alloc(u32::from(pool)) {
            Some(packet) => {
                self.registers[usize::from(into.number())].put(packet.number());
                true
            }
            None => false,
        }
    }

    // Clones a packet into an empty register. Returns false if the call is refused.
    pub(crate) fn clone_of(
        &mut self,
        setting: &Setting,
        into: PacketRegister,
        from: PacketRegister,
        pool: u8,
    ) -> bool
        requires holds { (packet : Packet) × Holds self.old.state from packet }
        requires empty { IsEmpty self.old.state into }
        requires exists { pool < length setting.now.env.pools }
        requires pools { self.old.pools ≡ setting.now.env.pools }
        requires few { self.old.state.world.calls + 1 < 2 ^ 64 }
        ensures denied { (packet : Packet) → Holds self.old.state from packet → not result
            ≡ is_denied (setting_in setting.now) self.old.state pool (length packet) }
        ensures refused { result ≡ false → self.new ≡ moved (with_call self.old.state) self.old }
        ensures given { result ≡ true → (packet : Packet) → Holds self.old.state from packet →
            (ns : List Number) × AreFresh setting.now.env.pools (live self.old.state) pool (length packet) ns
            × (self.new ≡ moved (with_call (with_packet into (cloned ns packet) self.old.state)) self.old) }
    {
        self.calls += 1;
        if is_listed(setting.pattern(), self.calls) {
            return false;
        }
        let source = handle_in(&self.registers, from);
        match self.mbufs.clone_of(&source, u32::from(pool)) {
            Some(packet) => {
                self.registers[usize::from(into.number())].put(packet.number());
                true
            }
            None => false,
        }
    }
}
