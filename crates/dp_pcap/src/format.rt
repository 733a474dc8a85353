//! The numbers of the format: sizes, and the offsets of fields.

/// The size of a capture's header, in bytes.
pub const HEADER_SIZE: usize = 24;

/// The size of a record's head, in bytes. The record's own bytes follow it.
pub const HEAD_SIZE: usize = 16;

/// The maximum size of a record, in bytes.
pub const MAX_RECORD: usize = 262_144;

/// The maximum number of records of a capture.
pub const MAX_RECORDS: u32 = 16_777_216;

/// The magic number of a capture in microseconds.
pub(crate) const MICRO_MAGIC: u32 = 0xa1b2_c3d4;

/// The magic number of a capture in nanoseconds.
pub(crate) const NANO_MAGIC: u32 = 0xa1b2_3c4d;

/// The offsets of the two halves of the version in a header.
pub(crate) const MAJOR_AT: usize = 4;

pub(crate) const MINOR_AT: usize = 6;

/// The version, 2.4.
pub(crate) const MAJOR: u16 = 2;

pub(crate) const MINOR: u16 = 4;

/// The offset of the snap length in a header.
pub(crate) const SNAP_LENGTH_AT: usize = 16;

/// The offset of the link type in a header.
pub(crate) const LINK_AT: usize = 20;

/// The link type of Ethernet.
pub(crate) const ETHERNET: u32 = 1;

/// The offset of the fraction of a second in a record's head, after the seconds.
pub(crate) const FRACTION_AT: usize = 4;

/// The offset of the captured length in a record's head.
pub(crate) const CAPTURED_AT: usize = 8;

/// The offset of the original length in a record's head.
pub(crate) const LENGTH_AT: usize = 12;

/// The nanoseconds of a second.
pub const NANOS_A_SECOND: u32 = 1_000_000_000;
