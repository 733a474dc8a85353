//! Instructions whose effect depends on what a call of the machine returned: allocation, packets that leave, and look-ups.
ghost use Rattle.std.specs.Prelude.{◌≡◌, ◌+◌, ◌^◌, ◌<◌, Bool, List, [], slice_index, IsSome};
ghost use Rattle.dp_model.specs.declared.instr.Instr.TheVariants.{Alloc, Clone, Lookup};
ghost use Rattle.dp_model.specs.declared.queue.Queue.TheVariants.{Tx};
ghost use Rattle.dp_model.specs.Machine.{Move, Acts, Leaves};
ghost use Rattle.dp_engine.specs.Steps.{setting_in, move_to, label_after, FitsIn, IsOnOrTo};

use crate::machine::Machine;
use crate::route_lookup::hop_in;
use crate::setting::Setting;
use crate::watch::{Way, branch};
use dp_model::{NumberRegister, PacketRegister, Queue};

// Allocates a packet, or goes to the label if that is refused.
#[inline(always)]
pub(crate) fn alloc(
    m: &mut Machine,
    setting: &Setting,
    into: PacketRegister,
    pool: u8,
    refused: u16,
    label: usize,
) -> Way
    requires has { (move : Move) × Acts (setting_in setting.now) label m.old.state (Alloc into pool refused) move }
    requires few { m.old.state.world.calls + 1 < 2 ^ 64 }
    requires pools { m.old.pools ≡ setting.now.env.pools }
    ensures acts { (answers : List Bool) × Acts (setting_in setting.now) label m.old.state (Alloc into pool refused)
        (move_to (label_after label result) answers m.new.state) }
    ensures goes { IsSome (label_after label result) }
    ensures names { IsOnOrTo refused result }
    ensures pools { m.new.pools ≡ m.old.pools }
    ensures frames { m.new.frames ≡ m.old.frames }
{
    branch(!m.alloc(setting, into, pool), refused, label)
}

// Clones a packet, or goes to the label if that is refused.
#[inline(always)]
pub(crate) fn clone_of(
    m: &mut Machine,
    setting: &Setting,
    into: PacketRegister,
    from: PacketRegister,
    pool: u8,
    refused: u16,
    label: usize,
) -> Way
    requires has { (move : Move) × Acts (setting_in setting.now) label m.old.state (Clone into from pool refused) move }
    requires few { m.old.state.world.calls + 1 < 2 ^ 64 }
    requires pools { m.old.pools ≡ setting.now.env.pools }
    ensures acts { (answers : List Bool) × Acts (setting_in setting.now) label m.old.state (Clone into from pool refused)
        (move_to (label_after label result) answers m.new.state) }
    ensures goes { IsSome (label_after label result) }
    ensures names { IsOnOrTo refused result }
    ensures pools { m.new.pools ≡ m.old.pools }
    ensures frames { m.new.frames ≡ m.old.frames }
{
    branch(!m.clone_of(setting, into, from, pool), refused, label)
}

// Moves a packet to a queue, or goes to the label if that is full. The setting is for the contract, which names the size of the queue.
#[inline(always)]
pub(crate) fn leave(
    m: &mut Machine,
    _setting: &Setting,
    packet: PacketRegister,
    queue: Queue,
    full: u16,
    label: usize,
) -> Way
    requires fits { FitsIn _setting.now.env m.old.frames }
    requires has { (move : Move) × Leaves _setting.now.env label m.old.state packet queue full move }
    ensures acts { Leaves _setting.now.env label m.old.state packet queue full (move_to (label_after label result) [] m.new.state) }
    ensures goes { IsSome (label_after label result) }
    ensures names { IsOnOrTo full result }
    ensures pools { m.new.pools ≡ m.old.pools }
    ensures frames { m.new.frames ≡ m.old.frames }
{
    branch(!m.move_to(packet, queue), full, label)
}

// Moves a packet to the transmit list of the port in a register, or goes to the label if that is full.
#[inline(always)]
pub(crate) fn send(
    m: &mut Machine,
    setting: &Setting,
    packet: PacketRegister,
    port: NumberRegister,
    full: u16,
    label: usize,
) -> Way
    requires fits { FitsIn setting.now.env m.old.frames }
    requires has { (move : Move) × Leaves setting.now.env label m.old.state packet (Tx (slice_index m.old.state.numbers port)) full move }
    ensures acts { Leaves setting.now.env label m.old.state packet (Tx (slice_index m.old.state.numbers port)) full
        (move_to (label_after label result) [] m.new.state) }
    ensures goes { IsSome (label_after label result) }
    ensures names { IsOnOrTo full result }
    ensures pools { m.new.pools ≡ m.old.pools }
    ensures frames { m.new.frames ≡ m.old.frames }
{
    leave(
        m,
        setting,
        packet,
        Queue::Tx(m.number(port) as u8),
        full,
        label,
    )
}

// Sets a register to the hop of an address, or goes to the label if there is none.
#[inline(always)]
pub(crate) fn look_up(
    m: &mut Machine,
    setting: &Setting,
    into: NumberRegister,
    table: u8,
    address: NumberRegister,
    missed: u16,
    label: usize,
) -> Way
    requires has { (move : Move) × Acts (setting_in setting.now) label m.old.state (Lookup into table address missed) move }
    ensures acts { (answers : List Bool) × Acts (setting_in setting.now) label m.old.state (Lookup into table address missed)
        (move_to (label_after label result) answers m.new.state) }
    ensures goes { IsSome (label_after label result) }
    ensures names { IsOnOrTo missed result }
    ensures pools { m.new.pools ≡ m.old.pools }
    ensures frames { m.new.frames ≡ m.old.frames }
{
    match hop_in(setting.tables(), table, m.number(address)) {
        Some(hop) => {
            m.set(into, u64::from(hop));
            Way::On
        }
        None => Way::To(missed),
    }
}
