//! Zones that are reserved, looked up and given back, call by call.
ghost use Rattle.std.specs.Prelude.{◌≡◌, All};

use super::cases::{must, none_differs};
use super::memory::{end_with, is_whole, new_heap};
use Step::{GiveAllBack, GiveBack, Keep, KeepAll, Lookup, Try, Whole};
use ZoneError::{BadAlign, BadLength, BadName, Exists, Full, NoRoom};
use arrayvec::ArrayString;
use dp_heap::Heap;
use dp_zone::{Zone, ZoneError, ZoneInfo, ZoneName, Zones};
use std::alloc::Global;
use std::process::Abort;

/// A call, and what it answers.
enum Step {
    /// A zone of a name, a length and an alignment is refused, or reserved and given back at once.
    Try(&'static str, u32, u32, Option<ZoneError>),
    /// A zone of these has this offset and this length, and is the last of those that are kept.
    Keep(&'static str, u32, u32, (u32, u32)),
    /// This number of zones of 64 bytes are kept, with names of one character from '"' on.
    KeepAll(u8),
    /// The k-th of those that are kept is given back.
    GiveBack(usize),
    /// All are given back, the first one first.
    GiveAllBack,
    /// The zone of this name has this offset and this length, or there is none.
    Lookup(&'static str, Option<(u32, u32)>),
    /// The heap is one free element of 4,096 bytes.
    Whole,
}

/// The bytes of a heap, and calls.
static SCRIPTS: [(u32, &[Step]); 3] = [
    // Refusals, in their order.
    (
        4096,
        &[
            Keep("a", 100, 0, (3968, 128)),
            Try("a", 100, 0, Some(Exists)),
            Try("abcdefghijklmnopqrstuvwxyz123456", 0, 96, Some(BadName)),
            Try("abcdefghijklmnopqrstuvwxyz12345", 64, 0, None),
            Try("", 64, 0, Some(BadName)),
            Try("a b", 64, 0, Some(BadName)),
            Try("b", 0, 96, Some(BadLength)),
            Try("b", 1_073_741_825, 0, Some(BadLength)),
            Try("a", 64, 96, Some(BadAlign)),
            Try("b", 4096, 0, Some(NoRoom)),
            GiveBack(0),
            Try("a", 100, 0, None),
            Whole,
        ],
    ),
    // Zones are looked up by whole names.
    (
        4096,
        &[
            Keep("ab", 64, 0, (4032, 64)),
            Keep("abc", 100, 1024, (3072, 128)),
            Lookup("a", None),
            Lookup("ab", Some((4032, 64))),
            Lookup("abc", Some((3072, 128))),
            Lookup("abcd", None),
            GiveBack(0),
            Lookup("ab", None),
            Lookup("abc", Some((3072, 128))),
            GiveBack(0),
        ],
    ),
    // At most 64 zones.
    (
        16384,
        &[
            KeepAll(63),
            Try("new", 64, 0, None),
            Try("A", 64, 0, Some(Exists)),
            Try("new", 0, 0, Some(BadLength)),
            GiveAllBack,
            KeepAll(64),
            Try("new", 64, 0, Some(Full)),
            Try("A", 64, 0, Some(Exists)),
            Try("new", 0, 0, Some(BadLength)),
            GiveAllBack,
        ],
    ),
];

/// A heap, the zones in it, and those that are kept.
struct Bench {
    heap: Heap,
    zones: Zones,
    kept: Vec<Zone>,
    ghost at_home: { All (λ z. z.home ≡ heap.home) kept.items },
}

fn try_one(bench: &mut Bench, name: &str, len: u32, align: u32) -> Option<ZoneError> {
    match bench.zones.reserve(&mut bench.heap, name, len, align) {
        Ok(zone) => {
            bench.zones.give_back(&mut bench.heap, zone);
            None
        }
        Err(error) => Some(error),
    }
}

fn keep(bench: &mut Bench, name: &str, len: u32, align: u32) -> Option<(u32, u32)> {
    let Ok(zone) = bench.zones.reserve(&mut bench.heap, name, len, align) else {
        return None;
    };
    let info = (zone.offset(), zone.len());
    if let Err(failed) = bench.kept.push(zone) {
        bench.zones.give_back(&mut bench.heap, failed.value);
    }
    Some(info)
}

fn keep_all(bench: &mut Bench, number: u8) -> bool {
    for k in 0..number.min(64) {
        let mut name = ArrayString::<4>::new();
        name.push((34 + k) as char);
        if keep(bench, name.as_str(), 64, 0) == None {
            return false;
        }
    }
    true
}

fn give_back(bench: &mut Bench, k: usize) -> bool {
    if k >= bench.kept.len() {
        return false;
    }
    let zone = bench.kept.remove(k);
    bench.zones.give_back(&mut bench.heap, zone);
    true
}

fn give_all_back(bench: &mut Bench) -> bool {
    for _ in 0..64u8 {
        give_back(bench, 0);
    }
    bench.kept.is_empty()
}

fn lookup(zones: &Zones, name: &str) -> Option<(u32, u32)> {
    match zones.lookup(name) {
        Some(ZoneInfo { offset, len }) => Some((offset, len)),
        None => None,
    }
}

fn does(bench: &mut Bench, step: &Step) -> bool {
    match step {
        Try(name, len, align, why) => try_one(bench, name, *len, *align) == *why,
        Keep(name, len, align, info) => keep(bench, name, *len, *align) == Some(*info),
        KeepAll(number) => keep_all(bench, *number),
        GiveBack(k) => give_back(bench, *k),
        GiveAllBack => give_all_back(bench),
        Lookup(name, info) => lookup(&bench.zones, name) == *info,
        Whole => is_whole(&bench.heap),
    }
}

// The first step that is not as its row says, from 0.
fn differs(bench: &mut Bench, steps: &[Step]) -> Option<usize> {
    for (k, step) in steps.iter().enumerate() {
        if !does(bench, step) {
            return Some(k);
        }
    }
    None
}

// The same in a new heap of this size.
fn differs_in(rt: &impl Abort, alloc: Global, size: u32, steps: &[Step]) -> Option<usize> {
    assert!(rt; size == 4096 || size == 16384);
    let mut bench = Bench {
        heap: new_heap(rt, alloc, size),
        zones: Zones::new(),
        kept: Vec::new(alloc),
    };
    let first = differs(&mut bench, steps);
    let Bench {
        heap,
        zones: _,
        kept,
    } = bench;
    end_with(rt, heap, kept);
    first
}

#[test]
fn scripts(rt: HostRuntime) {
    for (k, (size, steps)) in SCRIPTS.iter().enumerate() {
        none_differs(&rt, k, differs_in(&rt, rt.alloc(), *size, steps));
    }
}

// Writes a zone of 64 bytes, in each way; returns whether it has that many.
fn is_edited(zone: &mut Zone) -> bool
    ensures { zone.new.home ≡ zone.old.home }
{
    if zone.len() != 64 {
        return false;
    }
    zone.bytes_mut().fill(255);
    zone.clear(0, 16);
    zone.store_u32(0, 0x0403_0201);
    zone.store_u16(4, 0x0605);
    zone.part_mut(6, 2).copy_from_slice(&[7, 8]);
    zone.write(62, &[9, 9]);
    zone.copy_within(0, 8, 4);
    true
}

fn reads(zone: &Zone) -> bool {
    let bytes = zone.bytes();
    zone.name().is("z")
        && zone.len() == 64
        && bytes.get(0..17) == Some(&[1u8, 2, 3, 4, 1, 2, 3, 4, 5, 6, 7, 8, 0, 0, 0, 0, 255][..])
        && bytes.get(61..64) == Some(&[255u8, 9, 9][..])
        && zone.load_u32(7) == 0x0706_0504
        && zone.load_u16(15) == 0xff00
}

#[test]
fn bytes_of_a_zone(rt: HostRuntime) {
    let mut heap = new_heap(&rt, rt.alloc(), 4096);
    let mut zones = Zones::new();
    let mut zone = zones.reserve(&mut heap, "z", 64, 0).expect(&rt, "z");
    let edited = is_edited(&mut zone) && reads(&zone);
    zones.give_back(&mut heap, zone);
    heap.close().close();
    must(&rt, edited, "the bytes");
}

fn is_named(name: &ZoneName) -> bool {
    name.as_str() == "port~!" && name.is("port~!") && !name.is("port~") && !name.is("port~!!")
}

#[test]
fn names(rt: HostRuntime) {
    let name = ZoneName::new("port~!").expect(&rt, "a name");
    must(&rt, is_named(&name.copy()), "the name");
    must(&rt, ZoneName::new("port 1").is_none(), "no name");
}
