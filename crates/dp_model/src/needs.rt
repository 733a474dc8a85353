//! What rules J4 to J7 ask of the row before each instruction, and the label that it names: one table.

ghost use Rattle.std.specs.Prelude.{◌≡◌, Some};
ghost use Rattle.dp_model.specs.Needs.{amount, bytes_at, needs, nothing, packet_in};
ghost use Rattle.dp_model.specs.declared.needs.Target.TheVariants.{Distinct, Vacant};

use crate::by_instr;
use crate::instr::Instr;
use crate::needs::Measure::{First, Headroom, Last, Tailroom};
use crate::registers::{NumberRegister, PacketRegister, Width};

/// A room or a length of a packet, in bytes.
#[derive(Clone, Copy)]
pub enum Measure {
    /// The room before the first segment's data.
    Headroom,
    /// The room after the last segment's data.
    Tailroom,
    /// The length of the first segment.
    First,
    /// The length of the last segment.
    Last,
}

/// The bytes or the room that a packet must have.
#[derive(Clone, Copy)]
pub struct Bytes {
    /// Which room or which length.
    pub part: Measure,
    /// The register whose greatest value is added, if there is one.
    pub index: Option<NumberRegister>,
    /// In bytes, 0 to 65,543: a count, or an offset and a width.
    pub count: u32,
}

/// What is needed of the register that gets a packet, or of the registers of two packets.
#[derive(Clone, Copy)]
pub enum Target {
    /// This register is empty.
    Vacant(PacketRegister),
    /// These registers differ.
    Distinct(PacketRegister, PacketRegister),
}

/// Which part of a packet is written, and so must have one reference.
#[derive(Clone, Copy)]
pub enum Written {
    /// The first segment.
    Head,
    /// The last segment.
    Tail,
}

/// What rules J4 to J7 ask of the row before an instruction, and the label that it names.
#[derive(Clone, Copy)]
pub struct Needs {
    /// This register holds a packet.
    pub packet: Option<PacketRegister>,
    /// This one does too.
    pub other: Option<PacketRegister>,
    /// This holds of the target, or of the two registers.
    pub target: Option<Target>,
    /// The first packet has these bytes, or this room.
    pub bytes: Option<Bytes>,
    /// This part of the first packet has one reference.
    pub written: Option<Written>,
    /// The label that the instruction names: where it jumps to, or what it does if it is refused.
    pub label: Option<u16>,
}

/// What an instruction that handles no packet and names no label needs.
const NOTHING: Needs = Needs {
    packet: None,
    other: None,
    target: None,
    bytes: None,
    written: None,
    label: None,
};

/// A packet in this register.
fn packet_in(packet: PacketRegister) -> Needs
    ensures { result ≡ packet_in packet }
{
    Needs {
        packet: Some(packet),
        ..NOTHING
    }
}

/// A packet in this register with this room or this length, where this part is written.
fn room_in(packet: PacketRegister, part: Measure, count: u16, written: Option<Written>) -> Needs
    ensures { result ≡ record (packet_in packet) { bytes = amount part count; written = written } }
{
    Needs {
        packet: Some(packet),
        bytes: Some(Bytes {
            part,
            index: None,
            count: u32::from(count),
        }),
        written,
        ..NOTHING
    }
}

/// A packet in this register with the bytes of a load or a store at this offset, where this part is written.
fn bytes_in(
    packet: PacketRegister,
    index: Option<NumberRegister>,
    offset: u16,
    width: Width,
    written: Option<Written>,
) -> Needs
    ensures { result ≡ record (packet_in packet) { bytes = bytes_at index offset width; written = written } }
{
    Needs {
        packet: Some(packet),
        bytes: Some(Bytes {
            part: First,
            index,
            count: u32::from(offset) + u32::from(width.bytes()),
        }),
        written,
        ..NOTHING
    }
}

/// A packet in this register, and this label.
fn or_else(packet: PacketRegister, label: u16) -> Needs
    ensures { result ≡ record (packet_in packet) { label = Some label } }
{
    Needs {
        packet: Some(packet),
        label: Some(label),
        ..NOTHING
    }
}

/// This label alone.
fn to_label(label: u16) -> Needs
    ensures { result ≡ record nothing { label = Some label } }
{
    Needs {
        label: Some(label),
        ..NOTHING
    }
}

/// This register is empty, the other holds a packet, if there is one, and this label.
fn vacant(into: PacketRegister, from: Option<PacketRegister>, label: u16) -> Needs
    ensures { result ≡ record nothing { packet = from; target = Some (Vacant into); label = Some label } }
{
    Needs {
        packet: from,
        target: Some(Target::Vacant(into)),
        label: Some(label),
        ..NOTHING
    }
}

/// Packets in both registers, which differ.
fn both_in(front: PacketRegister, back: PacketRegister) -> Needs
    ensures { result ≡ record (packet_in front) { other = Some back; target = Some (Distinct front back) } }
{
    Needs {
        packet: Some(front),
        other: Some(back),
        target: Some(Target::Distinct(front, back)),
        ..NOTHING
    }
}

impl Instr {
    /// What the instruction needs of the row before it, and the label that it names.
    #[inline(always)]
    pub fn needs(self) -> Needs
        ensures { result ≡ needs self }
    {
        by_instr! { self;
            Alloc: { into, refused, .. } => vacant(into, None, refused);
            Clone: { into, from, refused, .. } => vacant(into, Some(from), refused);
            Free: { packet } => packet_in(packet);
            IfHead | IfTail | IfLen | IfLast: { packet, less, .. } => or_else(packet, less);
            Tx | Enq: { packet, full, .. } => or_else(packet, full);
            Prepend: { packet, count } => room_in(packet, Headroom, count, Some(Written::Head));
            Adj: { packet, count } => room_in(packet, First, count, None);
            Append: { packet, count } => room_in(packet, Tailroom, count, Some(Written::Tail));
            Trim: { packet, count } => room_in(packet, Last, count, None);
            Chain: { front, back } => both_in(front, back);
            Load: { packet, offset, width, .. } => bytes_in(packet, None, offset, width, None);
            Store: { packet, offset, width, .. } => bytes_in(packet, None, offset, width, Some(Written::Head));
            LoadX: { packet, index, offset, width, .. } => bytes_in(packet, Some(index), offset, width, None);
            StoreX: { packet, index, offset, width, .. } => bytes_in(packet, Some(index), offset, width, Some(Written::Head));
            Jmp: { to } => to_label(to);
            Jeq: { equal, .. } => to_label(equal);
            Jlt: { below, .. } => to_label(below);
            Lookup: { missed, .. } => to_label(missed);
            _ => NOTHING;
        }
    }
}
