//! The sizes of a table, each defined once. Two levels, of 24 bits and of 8, as in DPDK's `rte_lpm.h`.

ghost use Rattle.dp_lpm.specs.Limits.{HasNumbers};

/// The bits of an address that select an entry of the first level. A deeper rule needs a group.
pub const FIRST_BITS: u8 = 24;

/// The entries of the first level (`RTE_LPM_TBL24_NUM_ENTRIES`).
pub const FIRST_ENTRIES: usize = 0x100_0000;

/// The entries of a group, for the last 8 bits of an address (`RTE_LPM_TBL8_GROUP_NUM_ENTRIES`).
pub const GROUP_ENTRIES: usize = 256;

/// The maximum number of groups of a table: the lowest byte of an entry names one. DPDK leaves the number (`number_tbl8s` of
/// `rte_lpm_config`) to its caller.
pub const MAX_GROUPS: u32 = 256;

/// The maximum number of rules of a table. DPDK leaves the number (`max_rules` of `rte_lpm_config`) to its caller.
pub const MAX_RULES: u32 = 65_536;

/// The depth of the deepest rule, in bits of the address (`RTE_LPM_MAX_DEPTH`).
pub const MAX_DEPTH: u8 = 32;

/// The number of different hops: an entry has 24 bits for one (`next_hop` of `rte_lpm_tbl_entry`), with its depth above them.
pub const HOPS: u32 = 0x100_0000;

/// The greatest hop.
pub const MAX_HOP: u32 = HOPS - 1;

/// The least four-byte entry that names a group: its highest bit is set, so one test decides.
pub const FIRST_GROUP: u32 = 0x8000_0000;

/// The depth in an entry that names a group, above the depths of all rules.
pub const GROUP_DEPTH: u32 = 255;

/// The number of addresses.
pub const ADDRESSES: u64 = 0x1_0000_0000;

/// The maximum number of tables of a `Tables`.
pub const MAX_TABLES: usize = 4;

/// A law: the sizes of tables are these numbers.
pub fn has_its_numbers()
    ensures { HasNumbers }
{}
