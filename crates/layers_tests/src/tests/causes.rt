//! The numbers and the words of errors that no command prints. The others are in tests/program/messages.py and tests/program/copies.py.

use super::cases::{Case, all_hold};
use dp_heap::HeapError;
use dp_lpm::LpmError;
use dp_pcap::{Failed, PcapError};
use dp_pool::PoolError;
use dp_region::Memory;
use dp_zone::ZoneError;
use std::alloc::Global;
use std::fmt::Display;

/// Why a call is refused.
enum Cause {
    OfRegion,
    OfHeap(HeapError),
    OfZone(ZoneError),
    OfPool(PoolError),
    OfDevice,
    OfCapture(PcapError),
    OfRoutes(LpmError),
    OfTable,
    /// The name of a cause.
    Named(HeapError),
}

use Cause::{Named, OfCapture, OfDevice, OfHeap, OfPool, OfRegion, OfRoutes, OfTable, OfZone};
use HeapError::ZeroSize;
use PoolError::{BadCache, BadCount, BadSize, Zone};
use ZoneError::{BadLength, BadName, Exists, Full};

/// A cause, with its number and its words; or with its name.
struct Shown(Cause, &'static str);

/// The causes of each layer, in the order of their numbers. Those of regions, of devices and of tables have no number.
static CAUSES: [Shown; 19] = [
    Shown(OfRegion, "region 0: out of memory"),
    Shown(OfHeap(ZeroSize), "heap 1: the size is 0"),
    Shown(
        OfHeap(HeapError::BadAlign),
        "heap 2: the alignment is neither 0 nor a power of two",
    ),
    Shown(
        OfHeap(HeapError::NoRoom),
        "heap 3: no free element can hold the block",
    ),
    Shown(OfZone(BadName), "zone 1: bad zone name"),
    Shown(OfZone(BadLength), "zone 2: bad zone length"),
    Shown(OfZone(ZoneError::BadAlign), "zone 3: bad zone alignment"),
    Shown(OfZone(Exists), "zone 4: the zone exists"),
    Shown(OfZone(Full), "zone 5: too many zones"),
    Shown(OfZone(ZoneError::NoRoom), "zone 6: no room for the zone"),
    Shown(OfPool(BadCount), "pool 1: bad number of objects"),
    Shown(OfPool(BadSize), "pool 2: bad object size"),
    Shown(OfPool(BadCache), "pool 3: bad cache size"),
    Shown(OfPool(Zone(Full)), "pool 4: too many zones"),
    Shown(OfDevice, "device 0: the device failed"),
    Shown(OfCapture(PcapError::Write), "capture 9: the writer failed"),
    Shown(OfRoutes(LpmError::NoRule), "routes 5: no such rule"),
    Shown(OfTable, "table 0: not enough memory"),
    Shown(Named(ZeroSize), "ZeroSize"),
];

fn reads<E: Display>(alloc: Global, layer: &str, number: u8, error: &E, words: &str) -> bool {
    match format!(in alloc; "{layer} {number}: {error}") {
        Ok(text) => text.as_str() == words,
        Err(_) => false,
    }
}

fn is_named(alloc: Global, error: HeapError, name: &str) -> bool {
    match format!(in alloc; "{error:?}") {
        Ok(text) => text.as_str() == name,
        Err(_) => false,
    }
}

impl Case for Shown {
    fn holds(&self, alloc: Global) -> bool {
        let words = self.1;
        match &self.0 {
            OfRegion => reads(alloc, "region", 0, &Memory, words),
            OfHeap(error) => reads(alloc, "heap", error.number(), error, words),
            OfZone(error) => reads(alloc, "zone", error.number(), error, words),
            OfPool(error) => reads(alloc, "pool", error.number(), error, words),
            OfDevice => reads(alloc, "device", 0, &Failed, words),
            OfCapture(error) => reads(alloc, "capture", error.number(), error, words),
            OfRoutes(error) => reads(alloc, "routes", error.number(), error, words),
            OfTable => reads(alloc, "table", 0, &dp_lpm::Memory, words),
            Named(error) => is_named(alloc, *error, words),
        }
    }
}

#[test]
fn causes(rt: HostRuntime) {
    all_hold(&rt, rt.alloc(), &CAUSES);
}
