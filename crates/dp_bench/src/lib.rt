//! The benchmarks that C programs call. Each call makes something in memory of its own, does `rounds` rounds of one operation on it, gives everything
//! back, and returns how many rounds succeeded: 0 if there is no memory. The cost of a round is the difference between two calls with different
//! numbers of rounds.
//!
//! What callers must not assume: fewer rounds than asked for is no error, where there is no room for a block, a packet or a rule. A call includes
//! what it makes and gives back, so a single call shows no cost. Nothing is kept from one call to the next.
#![tactic(auto)]

mod blocks;
mod heaps;
mod mbufs;
mod pools;
mod random;
mod rings;
mod routes;

ghost use Rattle.std.specs.Prelude.{◌≡◌, ◌+◌, ◌≤◌, ◌⊎◌};

use heaps::{Bench, Way, served};
use mbufs::Deed;
use std::alloc::Global;

/// Takes and frees a block of 64 bytes in each round, with `others` other blocks out.
#[unsafe(no_mangle)]
pub extern "C" fn dpv_blocks(alloc: Global, others: u32, rounds: u32) -> u32
    ensures { result ≤ rounds }
{
    served(alloc, Bench::Blocks(others), rounds)
}

/// Puts a number into an empty ring of 1,024 slots and takes it out.
#[unsafe(no_mangle)]
pub extern "C" fn dpv_ring(alloc: Global, rounds: u32) -> u32
    ensures { (result ≡ rounds) ⊎ (result ≡ 0) }
{
    served(alloc, Bench::Ring(Way::One), rounds)
}

/// Puts 32 numbers into an empty ring of 1,024 slots and takes them out, each in one call.
#[unsafe(no_mangle)]
pub extern "C" fn dpv_ring_bulk(alloc: Global, rounds: u32) -> u32
    ensures { (result ≡ rounds) ⊎ (result ≡ 0) }
{
    served(alloc, Bench::Ring(Way::Bulk), rounds)
}

/// Takes an object of a pool of 8,191 and puts it back, with a cache for 256 or for none.
#[unsafe(no_mangle)]
pub extern "C" fn dpv_pool(alloc: Global, cached: bool, rounds: u32) -> u32
    ensures { (result ≡ rounds) ⊎ (result ≡ 0) }
{
    let cache = if cached { 256 } else { 0 };
    served(alloc, Bench::Pool(cache, Way::One), rounds)
}

/// Takes 32 objects of a pool of 8,191 and puts them back, each in one call, with a cache for 256.
#[unsafe(no_mangle)]
pub extern "C" fn dpv_pool_bulk(alloc: Global, rounds: u32) -> u32
    ensures { result ≤ rounds }
{
    served(alloc, Bench::Pool(256, Way::Bulk), rounds)
}

/// Allocates an empty packet of one segment from a pool with a cache for 256 and frees it. The numbers 1 to 3 mean cloning such a packet, for
/// prepending 16 bytes and cutting them off, and for receiving 60 bytes and freeing the packet.
#[unsafe(no_mangle)]
pub extern "C" fn dpv_mbufs(alloc: Global, deed: u32, rounds: u32) -> u32
    ensures { result ≤ rounds }
{
    let deed = match deed {
        0 => Deed::Alloc,
        1 => Deed::Clone,
        2 => Deed::Front,
        _ => Deed::Receive,
    };
    served(alloc, Bench::Mbufs(deed), rounds)
}

/// Adds `rules` random rules to a table for 65,536, looks `addresses` random addresses up, and deletes the first `deletes` of its rules.
/// Returns how many of all these calls succeeded.
#[unsafe(no_mangle)]
pub extern "C" fn dpv_routes(alloc: Global, rules: u32, addresses: u32, deletes: u32) -> u64
    ensures { result ≤ rules + addresses + deletes }
{
    routes::found(alloc, rules, addresses, deletes)
}
