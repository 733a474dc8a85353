//! An iterator over the elements.
ghost use Rattle.std.specs.Prelude.{◌≡◌, ◌≤◌, [], List, length};
ghost use Rattle.std.specs.Iterator.{YieldsFirst, item_count};
ghost use Rattle.dp_heap.specs.Laid.{elements_in, IsLaid};

use crate::elements::Element;
use crate::header::read_header;
use dp_region::Region;
use std::marker::Model;

/// The elements that an iteration has not reached yet, in order of offsets.
#[derive(Drop)]
pub struct Iter<'a> {
    region: &'a Region,
    offset: u32,
}

impl<'a> Model for Iter<'a> {
    ghost use Rattle.std.specs.Prelude.{List, length, ◌/◌};
    ghost use Rattle.dp_heap.specs.declared.elements.Element.{Element};
    ghost use Rattle.dp_heap.specs.Elements.{header_len};
    ghost use Rattle.dp_heap.specs.Laid.{elements_from, IsLaid, IsReached};

    ghost Value = { List Element };

    ghost view = { λ w. elements_from (length w.region.now.bytes / header_len) w.offset w.region.now.bytes };

    ghost invariant = { λ w. IsLaid w.region.now × IsReached w.region.now w.offset };
}

impl<'a> Iter<'a> {
    // Starts at the first element.
    pub(crate) fn over(region: &'a Region) -> Iter<'a>
        requires { IsLaid region.now }
        ensures { result ≡ elements_in region.now.bytes }
    {
        Iter { region, offset: 0 }
    }
}

impl<'a> Iterator for Iter<'a> {
    type Item = Element;

    ghost next_gives = { YieldsFirst (λ rest. rest) };

    ghost remaining = { item_count (λ rest. rest) };

    fn next(&mut self) -> Option<Element> {
        let offset = self.offset;
        if offset >= self.region.size() {
            return None;
        }
        let e = read_header(self.region, offset);
        self.offset = offset + e.size;
        Some(e)
    }
}
