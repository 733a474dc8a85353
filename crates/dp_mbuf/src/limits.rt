//! The sizes of mbufs and the offsets in a header, each defined once, with their names in DPDK's `rte_mbuf.h` and `rte_mbuf_core.h`.

ghost use Rattle.dp_mbuf.specs.Limits.{HasNumbers};

/// Bytes of an object before its data room: the header (`sizeof(struct rte_mbuf)`).
pub const HEADER_SIZE: u32 = 128;

/// Bytes left free before the data of a new packet, if the data room is that large (`RTE_PKTMBUF_HEADROOM`).
pub const HEADROOM: u16 = 128;

/// The maximum size of a data room, in bytes.
pub const MAX_ROOM: u32 = 4096;

/// The maximum size of an object in bytes: its header and its data room.
pub const MAX_OBJECT_SIZE: u32 = HEADER_SIZE + MAX_ROOM;

/// The maximum number of pools of an `Mbufs`.
pub const MAX_POOLS: usize = 8;

/// The maximum number of mbufs in all pools together. So no buffer has more references.
pub const MAX_MBUFS: u32 = 65_535;

/// The maximum number of segments of a packet (`nb_segs`).
pub const MAX_SEGMENTS: u16 = 64;

/// The maximum size of a packet in bytes (`pkt_len`): a full data room in each segment.
pub const MAX_LENGTH: u32 = MAX_SEGMENTS as u32 * MAX_ROOM;

/// The number of handles for each pool: a handle is this times the pool plus the index of the first mbuf.
pub const POOL_HANDLES: u32 = 65_536;

/// The number of values of two bytes.
pub const WORDS: u32 = 65_536;

/// Offset in a header, in bytes: the number of segments (`nb_segs`).
pub const SEGS: usize = 0;

/// Offset of the references to the buffer, 4 bytes (`refcnt`).
pub const REFS: usize = 2;

/// Offset of the segment's offset in its buffer (`data_off`).
pub const OFFSET: usize = 6;

/// Offset of the segment's length (`data_len`).
pub const LEN: usize = 8;

/// Offset of the next mbuf, an index and a pool (`next`).
pub const NEXT: usize = 10;

/// Offset of the packet's last mbuf, an index and a pool.
pub const LAST: usize = 14;

/// Offset of the buffer, an index and a pool (`buf_addr`).
pub const BUFFER: usize = 18;

/// The bytes of a header that are used.
pub const FIELDS_SIZE: usize = 22;

/// A law: the sizes of mbufs are these numbers.
pub fn has_its_numbers()
    ensures { HasNumbers }
{}
