//! Operands, as a text has them and as a program has them.

ghost use Rattle.std.specs.Prelude.{◌≡◌};
ghost use Rattle.dp_lang.specs.Views.{label_in, listed, numbered, shown_in};

use dp_model::{NumberRegister, Operand, PacketRegister, Width};

/// An operand in a text, where a label is a name.
#[derive(Clone, Copy)]
pub enum Named<'a> {
    /// A packet register, 0 to 7.
    Packet(u8),
    /// A number register, 0 to 7.
    Register(u8),
    Constant(u64),
    Name(&'a [u8]),
}

/// An operand in a program, where a label is the number of an instruction.
#[derive(Clone, Copy)]
pub enum Numbered {
    /// A packet register that the instruction fills.
    Target(PacketRegister),
    /// A packet register whose packet the instruction uses.
    Packet(PacketRegister),
    /// A number register.
    Register(NumberRegister),
    /// The number of a pool, a ring or a table, or of bits to shift by.
    Small(u8),
    /// A number of bytes, or an offset.
    Count(u16),
    /// Any number of 64 bits.
    Constant(u64),
    /// The number of bytes that are moved.
    Width(Width),
    /// A number register or a constant.
    RegisterOrConstant(Operand),
    /// The number of an instruction, from 0.
    Label(u16),
}

/// An operand as a text shows it.
#[derive(Clone, Copy)]
pub(crate) enum Shown {
    /// A packet register.
    Packet(u8),
    /// A number register.
    Register(u8),
    Number(u64),
    /// The number of an instruction, from 0.
    Label(u16),
}

impl Numbered {
    /// What a text shows.
    pub(crate) fn shown(self) -> Shown
        ensures { shown_in result ≡ numbered self }
    {
        match self {
            Numbered::Target(packet) => Shown::Packet(packet.number()),
            Numbered::Packet(packet) => Shown::Packet(packet.number()),
            Numbered::Register(register) => Shown::Register(register.number()),
            Numbered::Small(n) => Shown::Number(u64::from(n)),
            Numbered::Count(n) => Shown::Number(u64::from(n)),
            Numbered::Constant(n) => Shown::Number(n),
            Numbered::Width(width) => Shown::Number(u64::from(width.bytes())),
            Numbered::RegisterOrConstant(operand) => match operand {
                Operand::Register(register) => Shown::Register(register.number()),
                Operand::Constant(n) => Shown::Number(n),
            },
            Numbered::Label(n) => Shown::Label(n),
        }
    }
}

/// The operands of an instruction in the order of its text; one variant for each number of them.
#[derive(Clone, Copy)]
pub enum Arguments {
    Zero,
    One([Numbered; 1]),
    Two([Numbered; 2]),
    Three([Numbered; 3]),
    Four([Numbered; 4]),
    Five([Numbered; 5]),
}

impl Arguments {
    /// The operands, as a slice.
    pub fn as_slice(&self) -> &[Numbered]
        ensures { result.now ≡ listed self.now }
    {
        match self {
            Arguments::Zero => &[],
            Arguments::One(arguments) => arguments,
            Arguments::Two(arguments) => arguments,
            Arguments::Three(arguments) => arguments,
            Arguments::Four(arguments) => arguments,
            Arguments::Five(arguments) => arguments,
        }
    }

    /// The label among them, if there is one.
    pub fn label(&self) -> Option<u16>
        ensures { result ≡ label_in (listed self.now) }
    {
        for argument in self.as_slice() {
            if let Numbered::Label(to) = *argument {
                return Some(to);
            }
        }
        None
    }
}
