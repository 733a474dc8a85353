//! The reasons for which rules fail: what is known, and what is wanted.

ghost use Rattle.std.specs.Prelude.{◌≡◌};
ghost use Rattle.dp_check.specs.Diagnoses.{rule_of};

use dp_model::{Fact, Measure, NumberRegister, PacketRegister, Rule};

/// A part of a row that another row wants and this row does not entail.
#[derive(Clone, Copy)]
pub enum Gap {
    /// The certificate says that control never reaches the instruction.
    Dead,
    /// More is wanted of this packet register than is known.
    Packet {
        packet: PacketRegister,
        known: Fact,
        wanted: Fact,
    },
    /// The sharing group is wanted with exactly its registers, and this register belongs to it in one of the rows only. A group is named by its least
    /// register, 0 to 7.
    Group {
        group: u8,
        packet: PacketRegister,
        known: Fact,
        wanted: Fact,
    },
    /// The number can be greater than is wanted.
    Number {
        register: NumberRegister,
        known: u64,
        wanted: u64,
    },
}

/// Why a rule fails at an instruction: what is known there, and what the rule wants.
#[derive(Clone, Copy)]
pub enum Reason {
    /// J1: the certificate has more or fewer rows than the program has instructions.
    RowCount {
        known: usize,
        wanted: usize,
    },
    /// J2: the environment does not have the entry.
    NoEntry,
    /// J2: the first row wants more than is known at the entry.
    EntryRow(Gap),
    /// J3: the environment has no such pool.
    NoPool {
        pool: u8,
        known: usize,
    },
    /// J3: the environment has no such table.
    NoTable {
        table: u8,
        known: u8,
    },
    /// J3: the environment has no such ring.
    NoRing {
        ring: u8,
        known: usize,
    },
    /// J3: control goes to a label after the last instruction.
    NoInstruction {
        to: u16,
        known: usize,
    },
    /// J4: the register is empty.
    NotHeld {
        packet: PacketRegister,
    },
    /// J5: the register that gets a packet already holds one.
    NotEmpty {
        packet: PacketRegister,
        known: Fact,
    },
    /// J5: a packet is chained to itself.
    OneRegister {
        packet: PacketRegister,
    },
    /// J6: the packet has too few bytes: `count` are wanted from `start`, the greatest value of the index.
    TooLittle {
        packet: PacketRegister,
        part: Measure,
        known: u16,
        start: u64,
        count: u32,
    },
    /// J7: what is written may be shared; head sole is wanted, or sole at the end of several segments.
    NotAlone {
        packet: PacketRegister,
        known: Fact,
        wanted: u8,
    },
    /// J8: the two packets can have more than 64 segments together.
    TooLong {
        front: PacketRegister,
        back: PacketRegister,
        known: u8,
        more: u8,
    },
    /// J9: the number can exceed the ports of the environment.
    NoPort {
        register: NumberRegister,
        known: u64,
        ports: usize,
    },
    /// J9: the ring declares more than is known of the packet.
    LessThanRing {
        packet: PacketRegister,
        ring: u8,
        known: Fact,
        wanted: Fact,
    },
    /// J10: the register holds a packet at the exit.
    LeftOver {
        packet: PacketRegister,
        known: Fact,
    },
    /// J11: the row of this successor wants more than is known after the instruction.
    Successor {
        to: u16,
        gap: Gap,
    },
}

impl Reason {
    /// The rule that fails.
    pub fn rule(&self) -> Rule
        ensures { result ≡ rule_of self.now }
    {
        match self {
            Reason::RowCount { .. } => Rule::J1,
            Reason::NoEntry | Reason::EntryRow(_) => Rule::J2,
            Reason::NoPool { .. }
            | Reason::NoTable { .. }
            | Reason::NoRing { .. }
            | Reason::NoInstruction { .. } => Rule::J3,
            Reason::NotHeld { .. } => Rule::J4,
            Reason::NotEmpty { .. } | Reason::OneRegister { .. } => Rule::J5,
            Reason::TooLittle { .. } => Rule::J6,
            Reason::NotAlone { .. } => Rule::J7,
            Reason::TooLong { .. } => Rule::J8,
            Reason::NoPort { .. } | Reason::LessThanRing { .. } => Rule::J9,
            Reason::LeftOver { .. } => Rule::J10,
            Reason::Successor { .. } => Rule::J11,
        }
    }
}
