//! Longest prefix match for IPv4: a table of rules, and look-ups of two reads at most (DPDK Programmer's Guide, "LPM Library"). A rule, as
//! DPDK calls it, is a route in definitions and in pipeline files. Addresses are numbers: 10.1.2.3 is 0x0a010203.
//!
//! The two levels, here with the rules 10.0.0.0/8 -> 1 and 10.1.2.128/25 -> 7:
//!
//! ```text
//!  address 10.1.2.200 = 0x0a0102 | 0xc8
//!                       24 bits    8 bits
//!
//!  TBL24: 16,777,216 entries of 4 bytes (64 MB)         TBL8: groups of 256 entries
//!                                                        group 0, for 10.1.2.*
//!  0x0a0101  | hop 1, depth 8 |                          0x00 | hop 1, depth 8  |   10.1.2.0 to .127: the shallower rule
//!  0x0a0102  | group 0        | -----------------------> 0x80 | hop 7, depth 25 |   10.1.2.128 to .255
//!  0x0a0103  | hop 1, depth 8 |                          0xc8 | hop 7, depth 25 |   the second read
//!  0x0b0000  | empty          |                          0xff | hop 7, depth 25 |
//! ```
//!
//! The first 24 bits of an address have a group exactly if a rule deeper than 24 bits begins with them. Each group counts these rules; when the
//! last one is deleted the group is free, and the entry in TBL24 is again the one that all 256 then have. The rules are also kept in one list,
//! ordered by depth and then by prefix, which `add` and `delete` search in at most 17 comparisons. `add` writes the entries of its prefix that
//! are no deeper than the rule; `delete` gives them to the next shallower rule. No other entry is touched.
//!
//! Who owns what: an `Lpm` owns its entries and rules. `Lpm::new` takes all memory; no other call allocates. `Tables` takes ownership of up to
//! four tables for an engine, which changes their rules only between turns, by `Tables::add` and `Tables::delete`.
//!
//! What to call: `add` and `delete` for rules, `lookup` for an address. A refused call changes nothing.
//!
//! What not to do: do not call `add` or `delete` for each packet. A rule of depth 8 covers 65,536 entries, and both go through all entries of its
//! prefix; `lookup` alone reads two at most. `Tables::lookup` requires that the table exists, and tests nothing.
#![tactic(auto)]

mod cell;
mod error;
mod limits;
mod lpm;
mod rule;
mod ruled_table;
mod table;
mod tables;

pub use error::{LpmError, Memory};
pub use limits::{MAX_GROUPS, MAX_HOP, MAX_RULES, MAX_TABLES, has_its_numbers};
pub use lpm::Lpm;
pub use tables::Tables;
