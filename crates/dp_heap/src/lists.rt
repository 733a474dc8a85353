//! The free elements in five lists, by size. Two words of each header link them: `specs/Lists.antt`.
ghost use Rattle.std.specs.Prelude.{◌≡◌, ℕ, ◌+◌, ◌^◌, ◌<◌, ◌≤◌, List, [], ◌∷◌, length, replicate, slice_index, MatchOption};
ghost use Rattle.dp_region.specs.Region.{IsFree, cache_line, max_region, number_at};
ghost use Rattle.dp_heap.specs.Elements.{header_len, CanHold, NothingFits, IsHighest};
ghost use Rattle.dp_heap.specs.Edits.{IsIn};
ghost use Rattle.dp_heap.specs.Laid.{element_at, elements_in, IsLaid};
ghost use Rattle.dp_heap.specs.Lists.{none, class_of, with_link, belong, Listed, NoneHolds, NoneBelow};
ghost use Rattle.dp_heap.specs.declared.elements.Element.{Element as Item};

use crate::elements::{Element, HEADER_LEN, State};
use crate::header::read_header;
use dp_region::Region;

// The end of a list.
const NONE: u32 = u32::MAX;

// The words of a header that hold the links.
const NEXT: u32 = 16;

const BEFORE: u32 = 20;

// The offset of each list's first element.
#[derive(Clone, Copy, Drop)]
pub(crate) struct Lists {
    heads: [u32; 5],
}

impl Lists {
    // Five empty lists.
    pub(crate) fn new() -> Lists
        ensures { result.heads ≡ replicate 5 none }
    {
        Lists { heads: [NONE; 5] }
    }

    // Puts `e`, a free element in no list, at the front of its list.
    pub(crate) fn enter(&mut self, region: &mut Region, e: &Element)
        requires laid { IsLaid region.old × IsIn e.now (elements_in region.old.bytes) }
        requires free { e.now.state ≡ State.Free }
        requires off { (off : List Item) × Listed region.old.bytes self.old.heads (elements_in region.old.bytes) (e.now ∷ off) }
        ensures laid { IsLaid region.new }
        ensures home { region.new.home ≡ region.old.home }
        ensures same { elements_in region.new.bytes ≡ elements_in region.old.bytes }
        ensures listed { (off : List Item) → Listed region.old.bytes self.old.heads (elements_in region.old.bytes) (e.now ∷ off) →
            Listed region.new.bytes self.new.heads (elements_in region.new.bytes) off }
    {
        let class = class_of(u64::from(e.size));
        let first = self.heads[class];
        write_link(region, NEXT, e.offset, first);
        write_link(region, BEFORE, e.offset, NONE);
        write_link(region, BEFORE, first, e.offset);
        self.heads[class] = e.offset;
    }

    // Takes `e` out of its list.
    pub(crate) fn leave(&mut self, region: &mut Region, e: &Element)
        requires laid { IsLaid region.old × IsIn e.now (elements_in region.old.bytes) }
        requires free { e.now.state ≡ State.Free }
        requires listed { (off : List Item) × Listed region.old.bytes self.old.heads (elements_in region.old.bytes) off
            × (belong (class_of e.now.size) e.now.offset off ≡ 0) }
        ensures laid { IsLaid region.new }
        ensures home { region.new.home ≡ region.old.home }
        ensures same { elements_in region.new.bytes ≡ elements_in region.old.bytes }
        ensures off { (off : List Item) → Listed region.old.bytes self.old.heads (elements_in region.old.bytes) off →
            belong (class_of e.now.size) e.now.offset off ≡ 0 → Listed region.new.bytes self.new.heads (elements_in region.new.bytes) (e.now ∷ off) }
    {
        let next = region.load_u32(e.offset + NEXT);
        let before = region.load_u32(e.offset + BEFORE);
        write_link(region, NEXT, before, next);
        write_link(region, BEFORE, next, before);
        if before == NONE {
            self.heads[class_of(u64::from(e.size))] = next;
        }
    }

    // Finds a free element with room for a block, and the highest offset for the block in it. The search goes up from the list for `len`.
    pub(crate) fn find(&self, region: &Region, len: u64, align: u64) -> Option<(Element, u32)>
        requires laid { IsLaid region.now × Listed region.now.bytes self.now.heads (elements_in region.now.bytes) [] }
        requires align { (cache_line ≤ align) × (align < 2 ^ 32) × (len < 2 ^ 33) }
        ensures { MatchOption result (NothingFits len align (elements_in region.now.bytes)) (λ f. IsIn f.0 (elements_in region.now.bytes)
            × (f.0.state ≡ State.Free) × IsHighest f.0 len align f.1 × NoneBelow (class_of f.0.size) len align (elements_in region.now.bytes)) }
    {
        let mut class = class_of(len + u64::from(HEADER_LEN));
        while class < 5 {
            if let Some(found) = self.first_fit(region, class, len, align) {
                return Some(found);
            }
            class += 1;
        }
        None
    }

    // The first element of one list that has room for a block, and the highest offset for the block in it.
    fn first_fit(
        &self,
        region: &Region,
        class: usize,
        len: u64,
        align: u64,
    ) -> Option<(Element, u32)>
        requires laid { IsLaid region.now × Listed region.now.bytes self.now.heads (elements_in region.now.bytes) [] }
        requires align { (cache_line ≤ align) × (align < 2 ^ 32) × (len < 2 ^ 33) }
        requires class { class < 5 }
        ensures { MatchOption result (NoneHolds class len align (elements_in region.now.bytes)) (λ f. IsIn f.0 (elements_in region.now.bytes)
            × (f.0.state ≡ State.Free) × IsHighest f.0 len align f.1 × (class_of f.0.size ≡ class)) }
    {
        let mut offset = self.heads[class];
        while offset != NONE {
            let e = read_header(region, offset);
            if let Some(at) = highest(&e, len, align) {
                return Some((e, at));
            }
            offset = region.load_u32(offset + NEXT);
        }
        None
    }
}

// The highest offset for a block's data in `e`, if it has room.
fn highest(e: &Element, len: u64, align: u64) -> Option<u32>
    requires align { (cache_line ≤ align) × (align < 2 ^ 32) }
    requires bounds { (len < 2 ^ 33) × (e.now.offset + e.now.size ≤ max_region) × (e.now.state ≡ State.Free) }
    ensures { MatchOption result ((d : ℕ) → ¬ CanHold e.now len align d) (λ d. IsHighest e.now len align d) }
{
    let end = u64::from(e.offset + e.size);
    if end < len {
        return None;
    }
    let at = (end - len) / align * align;
    if at < u64::from(e.offset) + u64::from(HEADER_LEN) {
        return None;
    }
    Some(at as u32)
}

// The index of the list for elements of this size.
fn class_of(size: u64) -> usize
    ensures { result ≡ class_of size }
{
    if size <= 256 {
        0
    } else if size <= 1024 {
        1
    } else if size <= 4096 {
        2
    } else if size <= 16384 {
        3
    } else {
        4
    }
}

// Writes `offset` into the word `word` of the header at `at`, unless `at` is `NONE`.
fn write_link(region: &mut Region, word: u32, at: u32, offset: u32)
    requires { (at < length region.old.bytes → IsFree region.old at header_len) × (word ≤ 60) × (length region.old.bytes ≤ max_region) }
    ensures { region.new ≡ record region.old { bytes = with_link region.old.bytes word at offset } }
{
    if at < region.size() {
        region.store_u32(at + word, offset);
    }
}
