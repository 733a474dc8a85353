//! The labels of a text and the instructions that they name.

ghost use Rattle.std.specs.Prelude.{◌≡◌, OnOk, option_map};
ghost use Rattle.std.specs.FinMap as map;

use std::alloc::{AllocError, Global};
use std::collections::BTreeMap;
use std::marker::Model;

/// The labels of a text, each with the number of the instruction that follows it.
#[derive(Drop)]
pub struct Labels<'a> {
    numbers: BTreeMap<&'a [u8], u16>,
}

impl<'a> Model for Labels<'a> {
    ghost use Rattle.std.specs.Prelude.{ℕ, List};
    ghost use Rattle.std.specs.Ordering.{nat_cmp};
    ghost use Rattle.std.specs.Cmp.Lexicographic.{slice_cmp};
    ghost use Rattle.std.specs.FinMap as map;
    ghost use Rattle.std.specs.Coded.{coded_ℕ, coded_list};

    ghost Value = { map.FinMap (slice_cmp nat_cmp) ℕ };

    ghost coded = { map.code (coded_list coded_ℕ) coded_ℕ };

    ghost use Rattle.dp_lang.specs.LabelMaps.{by_bytes};

    ghost view = { λ a. map.from_entries (by_bytes a.numbers.entries) };
}

impl<'a> Labels<'a> {
    /// No labels.
    pub fn new(alloc: Global) -> Self
        ensures { result ≡ map.empty }
    {
        Labels {
            numbers: BTreeMap::new(alloc),
        }
    }

    /// Looks up the instruction that a label names.
    pub fn get(&self, name: &'a [u8]) -> Option<u16>
        ensures { result ≡ map.get self.now name.now }
    {
        self.numbers.get(&name).copied()
    }

    /// Defines a label.
    pub fn insert(&mut self, name: &'a [u8], number: u16) -> Result<(), AllocError>
        ensures { OnOk result (self.new ≡ map.insert self.old name.now number) }
    {
        self.numbers.insert(name, number)?;
        Ok(())
    }
}
