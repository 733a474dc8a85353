//! Splits, marks and joins elements in a region. Each contract is about the list of elements, wherever the element is in it.
ghost use Rattle.std.specs.Prelude.{◌≡◌, ◌+◌, ◌-◌, ◌%◌, ◌<◌, ◌≤◌, List, [], ◌∷◌, ◌++◌, length};
ghost use Rattle.dp_region.specs.Region.{cache_line};
ghost use Rattle.dp_heap.specs.Elements.{header_len, joined, end_of, both, spare, pieces};
ghost use Rattle.dp_heap.specs.Edits.{onto, Emptied, lower, upper, marked, below, above, IsIn, Replaces};
ghost use Rattle.dp_heap.specs.Laid.{elements_in, IsLaid, IsHeap};
ghost use Rattle.dp_heap.specs.Lists.{IsOff, Listed, Outside};
ghost use Rattle.dp_heap.specs.declared.elements.Element.{Element as Item};

use crate::elements::{Element, HEADER_LEN, State};
use crate::header::{BACK, read_header, read_pad, write_back, write_header, write_pad};
use crate::lists::Lists;
use dp_region::{Block, Region};

// The largest rest that stays part of an element: a header and a cache line. DPDK, too, splits only if more than a header and its least data
// are left.
const SLACK: u32 = 128;

// Splits `e` at `mid` into two elements.
fn cut(region: &mut Region, e: &Element, mid: u32) -> (Element, Element)
    requires laid { IsLaid region.old × IsIn e.now (elements_in region.old.bytes) }
    requires free { e.now.state ≡ State.Free }
    requires inside { (mid % cache_line ≡ 0) × (e.now.offset + header_len ≤ mid) × (mid + header_len ≤ end_of e.now) }
    ensures parts { result ≡ (lower e.now mid, upper e.now mid) }
    ensures laid { IsLaid region.new }
    ensures home { region.new.home ≡ region.old.home }
    ensures outside { Outside e.now.offset (end_of e.now) region.old.bytes region.new.bytes }
    ensures pieces { Replaces e.now (lower e.now mid ∷ upper e.now mid ∷ []) (elements_in region.old.bytes) (elements_in region.new.bytes) }
{
    let end = e.offset + e.size;
    write_header(region, mid, end - mid, State::Free, 0);
    write_back(region, mid, mid - e.offset);
    write_header(region, e.offset, mid - e.offset, State::Free, 0);
    write_back(region, end, end - mid);
    (
        Element {
            size: mid - e.offset,
            pad: 0,
            ..*e
        },
        Element {
            offset: mid,
            size: end - mid,
            pad: 0,
            ..*e
        },
    )
}

// Makes `e`, a free element in no list, busy, and lends its block of `len` bytes at `at`.
fn mark(region: &mut Region, e: &Element, at: u32, len: u32) -> Block
    requires laid { IsLaid region.old × IsIn e.now (elements_in region.old.bytes) }
    requires free { e.now.state ≡ State.Free }
    requires inside { (0 < len) × (e.now.offset + header_len ≤ at) × (at + len ≤ end_of e.now) × (at % cache_line ≡ 0) }
    ensures block { (result.home ≡ region.old.home) × (result.offset ≡ at) × (length result.bytes ≡ len) }
    ensures laid { IsLaid region.new }
    ensures home { region.new.home ≡ region.old.home }
    ensures outside { Outside e.now.offset (end_of e.now) region.old.bytes region.new.bytes }
    ensures pieces { Replaces e.now (marked e.now at ∷ []) (elements_in region.old.bytes) (elements_in region.new.bytes) }
{
    let pad = at - HEADER_LEN - e.offset;
    write_header(region, e.offset, e.size, State::Busy, pad);
    write_pad(region, at, pad);
    region.lend(at, len)
}

// Splits off the part of `e`, a free element in no list, after `end`, if it is larger than the slack, and lists it.
fn trim_end(region: &mut Region, lists: &mut Lists, e: Element, end: u32) -> Element
    requires off { IsOff region.old lists.old.heads e }
    requires inside { (e.offset + header_len ≤ end) × (end ≤ end_of e) × (end % cache_line ≡ 0) }
    ensures left { result ≡ below e end }
    ensures home { region.new.home ≡ region.old.home }
    ensures off { IsOff region.new lists.new.heads result }
    ensures pieces { Replaces e (below e end ∷ spare end (end_of e - end)) (elements_in region.old.bytes) (elements_in region.new.bytes) }
{
    if e.offset + e.size - end <= SLACK {
        return e;
    }
    let (rest, spare) = cut(region, &e, end);
    lists.enter(region, &spare);
    rest
}

// Splits off the part of `e`, a free element in no list, before `start`, if it is larger than the slack, and lists it.
fn trim_start(region: &mut Region, lists: &mut Lists, e: Element, start: u32) -> Element
    requires off { IsOff region.old lists.old.heads e }
    requires inside { (e.offset ≤ start) × (start + header_len ≤ end_of e) × (start % cache_line ≡ 0) }
    ensures left { result ≡ above e start }
    ensures home { region.new.home ≡ region.old.home }
    ensures off { IsOff region.new lists.new.heads result }
    ensures pieces { Replaces e (spare e.offset (start - e.offset) ++ above e start ∷ []) (elements_in region.old.bytes) (elements_in region.new.bytes) }
{
    if start - e.offset <= SLACK {
        return e;
    }
    let (spare, rest) = cut(region, &e, start);
    lists.enter(region, &spare);
    rest
}

// Takes a block of `len` bytes at `at` from the free element `e`.
pub(crate) fn take(region: &mut Region, lists: &mut Lists, e: Element, at: u32, len: u32) -> Block
    requires heap { IsHeap region.old × IsIn e (elements_in region.old.bytes) }
    requires free { e.state ≡ State.Free }
    requires listed { Listed region.old.bytes lists.old.heads (elements_in region.old.bytes) [] }
    requires inside { (0 < len) × (e.offset + header_len ≤ at) × (at + len ≤ end_of e) }
    requires steps { (at % cache_line ≡ 0) × (len % cache_line ≡ 0) }
    ensures block { (result.home ≡ region.old.home) × (result.offset ≡ at) × (length result.bytes ≡ len) }
    ensures heap { IsHeap region.new }
    ensures home { region.new.home ≡ region.old.home }
    ensures listed { Listed region.new.bytes lists.new.heads (elements_in region.new.bytes) [] }
    ensures pieces { Replaces e (pieces e len at) (elements_in region.old.bytes) (elements_in region.new.bytes) }
{
    lists.leave(region, &e);
    let low = trim_end(region, lists, e, at + len);
    let mid = trim_start(region, lists, low, at - HEADER_LEN);
    mark(region, &mid, at, len)
}

// Takes a block back. Its element, found by the header before the data, becomes free, and is in no list yet.
pub(crate) fn unmark(region: &mut Region, block: Block) -> Element
    requires laid { IsLaid region.old }
    requires block { block.home ≡ region.old.home }
    ensures laid { IsLaid region.new }
    ensures home { region.new.home ≡ region.old.home }
    ensures outside { Outside result.offset (end_of result) region.old.bytes region.new.bytes }
    ensures emptied { Emptied block.offset result (elements_in region.old.bytes) (elements_in region.new.bytes) }
{
    let at = block.offset();
    region.reclaim(block);
    let pad = read_pad(region, at);
    let e = read_header(region, at - HEADER_LEN - pad);
    write_header(region, e.offset, e.size, State::Free, 0);
    Element {
        state: State::Free,
        pad: 0,
        ..e
    }
}

// Makes one element of two free neighbours that are in no list.
fn join(region: &mut Region, x: Element, y: Element) -> Element
    requires laid { IsLaid region.old }
    requires here { (before : List Item) × (after : List Item) × (elements_in region.old.bytes ≡ before ++ x ∷ y ∷ after) }
    requires free { (x.state ≡ State.Free) × (y.state ≡ State.Free) }
    ensures whole { result ≡ both x y }
    ensures laid { IsLaid region.new }
    ensures home { region.new.home ≡ region.old.home }
    ensures outside { Outside x.offset (end_of result) region.old.bytes region.new.bytes }
    ensures pieces { (before after : List Item) → elements_in region.old.bytes ≡ before ++ x ∷ y ∷ after → elements_in region.new.bytes ≡ before
        ++ both x y ∷ after }
{
    let size = x.size + y.size;
    write_header(region, x.offset, size, State::Free, 0);
    write_back(region, x.offset + size, size);
    Element { size, pad: 0, ..x }
}

// Joins `e`, a free element in no list, with the element above it, if that one is free.
pub(crate) fn join_above(region: &mut Region, lists: &mut Lists, e: Element) -> Element
    requires { IsOff region.old lists.old.heads e }
    ensures home { region.new.home ≡ region.old.home }
    ensures off { IsOff region.new lists.new.heads result }
    ensures pieces { (before after : List Item) → elements_in region.old.bytes ≡ before ++ e ∷ after → (rest : List Item) × (joined e after ≡ result ∷ rest)
        × (elements_in region.new.bytes ≡ before ++ result ∷ rest) }
{
    let end = e.offset + e.size;
    if end == region.size() {
        return e;
    }
    let above = read_header(region, end);
    match above.state {
        State::Free => {
            lists.leave(region, &above);
            join(region, e, above)
        }
        State::Busy => e,
    }
}

// Joins `e`, a free element in no list, with the element below it, if that one is free.
pub(crate) fn join_below(region: &mut Region, lists: &mut Lists, e: Element) -> Element
    requires { IsOff region.old lists.old.heads e }
    ensures home { region.new.home ≡ region.old.home }
    ensures off { IsOff region.new lists.new.heads result }
    ensures pieces { (before after : List Item) → elements_in region.old.bytes ≡ before ++ e ∷ after → elements_in region.new.bytes ≡ onto before (e ∷ after) }
{
    if e.offset == 0 {
        return e;
    }
    let size = region.load_u32(e.offset + BACK);
    let below = read_header(region, e.offset - size);
    if let State::Free = below.state {
        lists.leave(region, &below);
        return join(region, below, e);
    }
    e
}
