//! Reads and writes the headers of elements in the region. `specs/Laid.antt` lists the words of a header.
ghost use Rattle.std.specs.Prelude.{◌≡◌, ◌+◌, ◌-◌, ◌<◌, ◌≤◌, length};
ghost use Rattle.dp_region.specs.Region.{IsFree, max_region, number_at};
ghost use Rattle.dp_heap.specs.Laid.{word_of, element_at, with_header, with_back, with_pad};

use crate::elements::{Element, State};
use dp_region::Region;

// The offsets of the words of a header, after that of the size.
const STATE: u32 = 4;

const PAD: u32 = 8;

pub(crate) const BACK: u32 = 12;

// How many bytes before a block's data the distance back lies: the word at `PAD` of the PAD header.
const BEFORE_DATA: u32 = 56;

// Reads the element whose header lies at `offset`.
pub(crate) fn read_header(region: &Region, offset: u32) -> Element
    requires { IsFree region.now offset 12 × (length region.now.bytes ≤ max_region) }
    ensures { result ≡ element_at region.now.bytes offset }
{
    let state = if region.load_u32(offset + STATE) == 0 {
        State::Free
    } else {
        State::Busy
    };
    Element {
        offset,
        size: region.load_u32(offset),
        state,
        pad: region.load_u32(offset + PAD),
    }
}

// Writes a header at `offset`, except for the size of the element below.
pub(crate) fn write_header(region: &mut Region, offset: u32, size: u32, state: State, pad: u32)
    requires { IsFree region.old offset 12 × (length region.old.bytes ≤ max_region) }
    ensures { region.new ≡ record region.old { bytes = with_header region.old.bytes offset size (word_of state) pad } }
{
    let word = match state {
        State::Free => 0,
        State::Busy => 1,
    };
    region.store_u32(offset, size);
    region.store_u32(offset + STATE, word);
    region.store_u32(offset + PAD, pad);
}

// Writes `size` as the size of the element below into the header at `offset`, unless `offset` is the end of the region.
pub(crate) fn write_back(region: &mut Region, offset: u32, size: u32)
    requires { (offset < length region.old.bytes → IsFree region.old offset 16) × (length region.old.bytes ≤ max_region) }
    ensures { region.new ≡ record region.old { bytes = with_back region.old.bytes offset size } }
{
    if offset < region.size() {
        region.store_u32(offset + BACK, size);
    }
}

// Writes the distance back into the PAD header right before the data at `at`. Where `pad` is 0 that is the element's own header.
pub(crate) fn write_pad(region: &mut Region, at: u32, pad: u32)
    requires { (56 ≤ at) × IsFree region.old (at - 56) 4 }
    ensures { region.new ≡ record region.old { bytes = with_pad region.old.bytes at pad } }
{
    region.store_u32(at - BEFORE_DATA, pad);
}

// Reads the distance back from the data at `at`.
pub(crate) fn read_pad(region: &Region, at: u32) -> u32
    requires { (56 ≤ at) × IsFree region.now (at - 56) 4 }
    ensures { result ≡ number_at region.now.bytes (at - 56) 4 }
{
    region.load_u32(at - BEFORE_DATA)
}
