//! The `repr(C)` structs of dpv.h. `dpv.h` has the same structs.

/// The size of an explanation's text with the zeros after it, in bytes.
pub const MAX_EXPLANATION: usize = 128;

/// The size of a batch: how large one must be, or how much of one is filled.
#[repr(C)]
#[derive(Clone, Copy, Drop)]
pub struct Room {
    /// The number of records.
    pub records: u64,
    /// The number of their bytes.
    pub bytes: u64,
}

/// A frame of a burst. The caller sets its bytes and its time, a burst the others.
#[repr(C)]
#[derive(Clone, Copy, Drop)]
pub struct BurstFrame<'a> {
    /// Its bytes.
    pub bytes: &'a [u8],
    /// When it was received, in the caller's unit.
    pub time: u64,
    /// Where its records begin in the batch.
    pub first: u64,
    /// How many records it has.
    pub records: u64,
    /// The number of its outcome, or of a refusal.
    pub answer: u32,
}

/// Why a pipeline was not loaded.
#[repr(C)]
#[derive(Drop)]
pub struct Explanation {
    /// The number of the cause, or 0 if the pipeline was loaded.
    pub cause: u32,
    /// The length of the text.
    pub length: u32,
    /// The text, in the first `length` bytes, and zeros after it, at least one.
    pub text: [u8; MAX_EXPLANATION],
}

/// The counts of a port, in frames.
#[repr(C)]
#[derive(Clone, Copy, Drop)]
pub struct PortStats {
    /// How many were received.
    pub received: u64,
    /// How many were dropped because too few buffers were free.
    pub no_buffer: u64,
    /// How many were dropped because they need more segments than the port takes.
    pub oversize: u64,
    /// How many were handed out.
    pub sent: u64,
}

/// The counts of a pool, in buffers.
#[repr(C)]
#[derive(Clone, Copy, Drop)]
pub struct PoolStats {
    /// How many are free.
    pub free: u64,
    /// How many there are.
    pub count: u64,
}

/// The counts of a ring, in packets.
#[repr(C)]
#[derive(Clone, Copy, Drop)]
pub struct RingStats {
    /// How many wait in it.
    pub waiting: u64,
}

/// The counts of a closed engine.
#[repr(C)]
#[derive(Clone, Copy, Drop)]
pub struct Totals {
    /// The number of frames that were handed in.
    pub turns: u64,
    /// The number of allocation calls.
    pub calls: u64,
    /// The number of node runs that were cut.
    pub cut: u64,
    /// The number of pools. Each has all its buffers.
    pub pools: u64,
}

/// A route of a table, by numbers.
#[repr(C)]
#[derive(Clone, Copy, Drop)]
pub struct Route {
    /// The table, by its place in the pipeline file, from 0.
    pub table: u32,
    /// The address; its bits below the depth are ignored.
    pub ip: u32,
    /// How many of the first bits count, 1 to 32.
    pub depth: u32,
    /// The hop, up to 16,777,215; a deletion ignores it.
    pub hop: u32,
}

/// The hop of an address.
#[repr(C)]
#[derive(Clone, Copy, Drop)]
pub struct Hop {
    /// The hop of the deepest route for the address.
    pub hop: u32,
}

/// What a node run of a program can cost.
#[repr(C)]
#[derive(Clone, Copy, Drop)]
pub struct CostStats {
    /// The greatest number of instructions that it takes.
    pub steps: u32,
    /// 1 if the program can jump back, else 0.
    pub jumps_back: u32,
    /// The first label, from 0, that can jump back, else 0.
    pub label: u32,
}
