//! Packet handles: plain numbers, which the store of packets gives out.

ghost use Rattle.std.specs.Prelude.{◌≡◌};

use std::marker::Model;

/// The handle of a packet: a plain number. The store of packets (`Mbufs` of dp_mbuf) says which handles are live.
#[derive(Clone, Copy, PartialEq, Eq)]
pub struct Packet {
    number: u32,
}

impl Model for Packet {
    ghost use Rattle.std.specs.Prelude.{ℕ};

    ghost Value = { ℕ };

    ghost view = { λ p. p.number };

    ghost inverse = { λ n. record { number = n } };
}

impl Packet {
    /// The packet of this number.
    pub fn of(number: u32) -> Packet
        ensures { result ≡ number }
    {
        Packet { number }
    }

    /// Its number.
    pub fn number(self) -> u32
        ensures { result ≡ self }
    {
        self.number
    }
}
