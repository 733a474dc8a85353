//! The report of an engine's run.
use arrayvec::ArrayVec;

/// How far an input was read.
#[derive(Clone, Copy, Default, PartialEq, Eq)]
pub enum InputState {
    /// Not to its end.
    #[default]
    Open,
    /// To its end.
    Whole,
    /// To a record that is cut short, which begins at this byte.
    Cut(u64),
}

/// The counts of a port, in records.
#[derive(Clone, Copy, Default, PartialEq, Eq)]
pub struct PortReport {
    /// How many were received.
    pub received: u64,
    /// How many were dropped because the pattern or the pool refused their buffers.
    pub nobuf: u64,
    /// How many were dropped because they need more segments than the port takes.
    pub oversize: u64,
    /// How many were written whole.
    pub sent: u64,
    /// How far the port's input was read.
    pub state: InputState,
}

/// The counts of a pool, in buffers.
#[derive(Clone, Copy, Default, PartialEq, Eq)]
pub struct PoolReport {
    /// How many are free.
    pub free: u64,
    /// How many there are.
    pub count: u64,
}

/// The counts of an engine.
#[derive(Drop)]
pub struct Report {
    /// One for each port.
    pub ports: ArrayVec<PortReport, 8>,
    /// How many packets were left in each ring.
    pub rings: ArrayVec<u64, 8>,
    /// One for each pool.
    pub pools: ArrayVec<PoolReport, 8>,
    /// The number of allocation calls: one for each record that is not oversize, each `alloc` and each `clone`.
    pub calls: u64,
    /// How many of them the pattern refused.
    pub refused: u64,
    /// How many node runs were cut at their 257th backward jump.
    pub cut: u64,
}

/// The counts of a port, in records.
#[derive(Clone, Copy)]
pub(crate) struct Tallies {
    pub received: u64,
    pub nobuf: u64,
    pub oversize: u64,
    pub sent: u64,
}

/// Counts that are all zero.
pub(crate) const NO_TALLIES: Tallies = Tallies {
    received: 0,
    nobuf: 0,
    oversize: 0,
    sent: 0,
};
