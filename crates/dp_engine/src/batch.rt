//! The output of a pass: records in one array of the caller, and their bytes in another.

/// A record that a port sent. Its bytes are in the array of bytes of the same pass.
#[repr(C)]
#[derive(Clone, Copy, Default)]
pub struct SentRecord {
    /// The time of the pass, as the caller gave it.
    pub time: u64,
    /// The offset of its first byte in the array of bytes.
    pub offset: u64,
    /// The port that sent it.
    pub port: u32,
    /// Its length in bytes, at most 262,144.
    pub length: u32,
}

/// How much a batch holds, or has room for.
#[derive(Clone, Copy, Default)]
pub struct BatchSize {
    /// The number of records, or the room for them.
    pub records: usize,
    /// The number of their bytes, or the room for them.
    pub bytes: usize,
}
