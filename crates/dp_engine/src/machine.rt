//! The machine: registers, rings and transmit lists over mbufs.
ghost use Rattle.std.specs.Prelude.{◌≡◌, ℕ, ◌+◌, ◌^◌, ◌<◌, ◌≤◌, length, [], false};
ghost use Rattle.dp_model.specs.Packets.{needed, available};
ghost use Rattle.dp_model.specs.Machine.{without_packet, with_step, is_denied, live};
ghost use Rattle.std.specs.Prelude.{not, None, Some, nat_eq, IsTrue, IsFalse, slice_get};
ghost use Rattle.std.specs.List.{list_any, AllByRecursion};
ghost use Rattle.dp_model.specs.Limits.{min_port_room, max_segments};
ghost use Rattle.dp_model.specs.Environments.{room_at};
ghost use Rattle.dp_model.specs.Runs.{between};
ghost use Rattle.dp_engine.specs.Handles.{moved, in_slot, frames_of};
ghost use Rattle.dp_engine.specs.MachineParts.{first_core};
ghost use Rattle.dp_engine.specs.Steps.{setting_in, with_jumps};
ghost use Rattle.dp_engine.specs.Turns.{IsReceived, with_one_call};
ghost use Rattle.dp_model.specs.Machine.{with_cut, without_packets, jump_budget};
ghost use Rattle.dp_ring.specs.Rings.{RingView};
ghost use Rattle.dp_mbuf.specs.Mbufs.{HasNone};

mod batches;
mod inspect;
mod numbers;
mod packets;
mod queues;
mod register;

use crate::queues::Queues;
use crate::setting::Setting;
use dp_mbuf::Mbufs;
use dp_model::PacketRegister;
use dp_pcap::GhostCount;
use packets::is_held_in;
use register::{Register, no_packets, set_first};
use std::marker::Model;

// The maximum number of backward jumps of a node run.
const JUMP_BUDGET: u64 = 256;

/// A machine: packets in registers, transmit lists and rings, over mbufs, and the counts of node runs.
pub struct Machine {
    mbufs: Mbufs,
    registers: [Register; 8],
    numbers: [u64; 8],
    jumps: u64,
    queues: Queues,
    calls: u64,
    steps: GhostCount,
    cuts: u64,
}

impl Model for Machine {
    ghost use Rattle.dp_engine.specs.Handles.{Core};
    ghost use Rattle.dp_engine.specs.MachineParts.{parts_of, core_of, OccurOnce};

    ghost Value = { Core };

    ghost view = { λ m. core_of (parts_of m) };

    ghost invariant = { λ m. OccurOnce (parts_of m) };
}

// Whether the call's number is in a pattern.
#[cold]
#[inline(never)]
fn is_among(calls: &[u64], call: u64) -> bool
    ensures { result ≡ list_any (nat_eq call) calls.now }
{
    calls.iter().any(|x| call == *x)
}

// Whether the call's number is in the pattern, which mostly is empty.
#[inline(always)]
fn is_listed(calls: &[u64], call: u64) -> bool
    ensures { result ≡ list_any (nat_eq call) calls.now }
{
    if calls.is_empty() {
        false
    } else {
        is_among(calls, call)
    }
}

impl Machine {
    // A machine over mbufs without packets, with empty queues.
    pub(crate) fn over(mbufs: Mbufs, queues: Queues) -> Machine
        requires none { (h : ℕ) → in_slot (slice_get mbufs.store.slots h) ≡ 0 }
        requires rings { AllByRecursion (λ (r : RingView). r.entries ≡ []) queues.rings }
        requires outboxes { AllByRecursion (λ (r : RingView). r.entries ≡ []) queues.outboxes }
        ensures { result ≡ first_core mbufs queues }
    {
        Machine {
            mbufs,
            registers: no_packets(),
            numbers: [0; 8],
            queues,
            calls: 0,
            steps: GhostCount::new(),
            cuts: 0,
            jumps: 0,
        }
    }

    // The number of allocation calls.
    pub(crate) fn calls(&self) -> u64
        ensures { result ≡ self.now.state.world.calls }
    {
        self.calls
    }

    // The number of free buffers of a pool, between two node runs.
    pub(crate) fn free_buffers(&self, pool: u32) -> u32
        requires idle { AllByRecursion (λ o. o ≡ None) self.now.state.packets }
        requires pool { pool < length self.now.pools }
        ensures { result ≡ available self.now.pools (live (between self.now.state.world)) pool }
    {
        self.mbufs.available(pool)
    }

    // How many buffers of a pool the bytes need.
    #[inline(always)]
    pub(crate) fn needed(&self, pool: u32, len: usize) -> usize
        requires { min_port_room ≤ room_at self.now.pools pool }
        ensures { result ≡ needed self.now.pools pool len }
    {
        self.mbufs.needed(pool, len)
    }

    // Receives bytes into the first packet register, and puts the port's number into the first number register. Returns false if the call is
    // refused.
    #[inline(always)]
    pub(crate) fn receive(&mut self, setting: &Setting, pool: u32, bytes: &[u8], port: u8) -> bool
        requires idle { AllByRecursion (λ o. o ≡ None) self.old.state.packets }
        requires pools { self.old.pools ≡ setting.now.env.pools }
        requires has_room { min_port_room ≤ room_at setting.now.env.pools pool }
        requires fits { needed setting.now.env.pools pool (length bytes.now) ≤ max_segments }
        requires few { self.old.state.world.calls + 1 < 2 ^ 64 }
        ensures denied { not result
            ≡ is_denied (setting_in setting.now) (between self.old.state.world) pool (needed setting.now.env.pools pool (length bytes.now)) }
        ensures refused { IsFalse result → self.new ≡ moved (record self.old.state { world = with_one_call self.old.state.world }) self.old }
        ensures calls { self.new.state.world.calls ≡ self.old.state.world.calls + 1 }
        ensures received { IsTrue result → IsReceived (setting_in setting.now) pool port bytes.now self.old.state.world self.new.state }
        ensures pools { self.new.pools ≡ self.old.pools }
        ensures frames { self.new.frames ≡ self.old.frames }
    {
        let call = self.calls + 1;
        if is_listed(setting.pattern(), call) {
            self.calls = call;
            return false;
        }
        // Nothing is written before this, so that the test of room is the one that the caller made.
        match self.mbufs.receive(pool, bytes) {
            Some(packet) => {
                self.calls = call;
                set_first(&mut self.registers, packet.number());
                self.numbers = [u64::from(port), 0, 0, 0, 0, 0, 0, 0];
                self.jumps = 0;
                true
            }
            None => {
                self.calls = call;
                false
            }
        }
    }

    pub(crate) fn count_step(&mut self)
        ensures { self.new ≡ moved (with_step self.old.state) self.old }
    {
        self.steps = self.steps.one_more();
    }

    // The number of node runs that were cut.
    pub(crate) fn cuts(&self) -> u64
        ensures { result ≡ self.now.state.world.cuts }
    {
        self.cuts
    }

    // Counts a backward jump, if the node run may take one more.
    pub(crate) fn jump(&mut self) -> bool
        ensures taken { IsTrue result → (self.old.state.jumps < jump_budget)
            × (self.new ≡ moved (with_jumps (self.old.state.jumps + 1) self.old.state) self.old) }
        ensures over { IsFalse result → (jump_budget ≤ self.old.state.jumps) × (self.new ≡ self.old) }
    {
        if self.jumps < JUMP_BUDGET {
            self.jumps += 1;
            true
        } else {
            false
        }
    }

    // Frees the packet of a register, if it holds one.
    fn give_up(&mut self, p: PacketRegister)
        ensures { self.new ≡ moved (without_packet p self.old.state) self.old }
    {
        if is_held_in(&self.registers, p) {
            self.free(p);
        }
    }

    fn count_cut(&mut self)
        requires { self.old.state.world.cuts + 1 < 2 ^ 64 }
        ensures { self.new ≡ moved (with_cut self.old.state) self.old }
    {
        self.cuts += 1;
    }

    // Cuts the node run: frees what its registers hold, p0 first, and counts the cut.
    pub(crate) fn cut(&mut self)
        requires few { self.old.state.world.cuts + 1 < 2 ^ 64 }
        requires eight { length self.old.state.packets ≡ 8 }
        ensures { self.new ≡ moved (without_packets (with_cut self.old.state)) self.old }
    {
        self.count_cut();
        self.give_up(PacketRegister::new(0));
        self.give_up(PacketRegister::new(1));
        self.give_up(PacketRegister::new(2));
        self.give_up(PacketRegister::new(3));
        self.give_up(PacketRegister::new(4));
        self.give_up(PacketRegister::new(5));
        self.give_up(PacketRegister::new(6));
        self.give_up(PacketRegister::new(7));
    }

    // Takes the machine apart. No packet may be left.
    pub(crate) fn into_parts(self) -> (Mbufs, Queues)
        requires idle { AllByRecursion (λ o. o ≡ None) self.state.packets }
        requires rings { AllByRecursion (λ packets. packets ≡ []) self.state.world.rings }
        requires outboxes { AllByRecursion (λ packets. packets ≡ []) self.state.world.outboxes }
        ensures none { HasNone result.0.store }
        ensures pools { result.0.store.pools ≡ self.pools }
        ensures zones { result.0.zones ≡ self.frames.zones }
        ensures frames { frames_of result.0.zones result.1.rings result.1.outboxes ≡ self.frames }
    {
        let Machine {
            mbufs,
            registers: _,
            numbers: _,
            queues,
            calls: _,
            steps: _,
            cuts: _,
            jumps: _,
        } = self;
        (mbufs, queues)
    }
}
