//! The queues that packets leave to.

/// A bounded list of packets, by its kind and number: the transmit list of a port, or a ring.
#[derive(Clone, Copy)]
pub enum Queue {
    Tx(u8),
    Ring(u8),
}
