//! The limits and sizes that the definitions cite, as constants.

/// The maximum number of buffers of a pool, and of all pools together: their indexes have 16 bits.
pub const MAX_BUFFERS: u32 = 65_535;

/// The maximum number of indexes in a pool's cache.
pub const MAX_CACHED: u32 = 512;

/// The largest data room of a buffer, in bytes.
pub const MAX_ROOM: u32 = 4_096;

/// The largest ring or transmit list.
pub const MAX_RING: u32 = 65_536;

/// The maximum number of segments of a packet.
pub const MAX_SEGMENTS: u8 = 64;

/// The headroom of a new or received packet, in bytes.
pub const DEFAULT_HEADROOM: u16 = 128;

/// The smallest data room that a port receives into: the headroom, and a byte.
pub const MIN_PORT_ROOM: u32 = 129;

/// The largest hop of a route.
pub const MAX_HOP: u32 = 16_777_215;
