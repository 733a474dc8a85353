//! A watcher that counts how often each instruction ran.
ghost use Rattle.std.specs.Prelude.{◌≡◌, ◌+◌, ◌*◌, ◌<◌, ◌≤◌, ◌↔◌, length, IfOk, IsTrue};
ghost use Rattle.dp_lang.specs.declared.program.TheConstants.{MAX_INSTRS};
ghost use Rattle.dp_engine.specs.Watching.{IsOneOfEight};
ghost use Rattle.dp_counts.specs.Counting.{place_of, one_more, step_counts, AreZero, HasNone};

use crate::levels::{Gauge, Levels};
use crate::losses::{Losses, Refusals};
use dp_engine::{View, Watch, Way};
use dp_lang::{MAX_INSTRS, Program};
use dp_model::Entry;
use std::alloc::{AllocError, Global};
use std::marker::Model;

/// The maximum number of ports, and of rings.
const MAX_OF_A_KIND: usize = 8;

/// Counts node runs: for each instruction of each node how often it ran, its jump was taken, and a node run was cut there. The numbers have 64 bits and wrap.
/// A step to the next instruction costs nothing; a taken jump updates two numbers; the beginning of a node run, its end and a cut update one each.
#[derive(Drop)]
pub struct Counts {
    // How often control came to each label, at the beginning of a node run or by a jump.
    came: Vec<u64>,
    // How often its jump was taken.
    taken: Vec<u64>,
    // How often a node run ended there.
    ended: Vec<u64>,
    // How often one was cut there.
    cut: Vec<u64>,
    // Where the counts of the running node begin.
    place: usize,
    gauge: Gauge,
    losses: Losses,
}

impl Model for Counts {
    ghost use Rattle.dp_counts.specs.Counting.{Tally, HasRoom};

    ghost Value = { Tally };

    ghost view = { λ c. record { came = c.came.items; taken = c.taken.items; ended = c.ended.items; cut = c.cut.items; place = c.place } };

    ghost invariant = { λ c. HasRoom c.came.items c.taken.items c.ended.items c.cut.items c.place };
}

// The number of a node: the rings come first, so that a ring's run begins without an addition, then the ports.
#[inline(always)]
pub(crate) fn number_of(node: Entry) -> u8
    requires { IsOneOfEight node }
    ensures { result < 16 }
{
    match node {
        Entry::Ring(ring) => ring,
        Entry::Port(port) => MAX_OF_A_KIND as u8 + port,
    }
}

// Where the counts of a node begin: those of the ports come first, then those of the rings.
#[inline(always)]
pub(crate) fn place_of(node: Entry) -> usize
    requires { IsOneOfEight node }
    ensures value { result ≡ place_of node }
    ensures bound { result + MAX_INSTRS ≤ 16 * MAX_INSTRS }
{
    match node {
        Entry::Port(port) => MAX_INSTRS * usize::from(port),
        Entry::Ring(ring) => MAX_INSTRS * (MAX_OF_A_KIND + usize::from(ring)),
    }
}

// Whether its number is below eight, the most ports and rings.
pub(crate) fn is_one_of_eight(node: Entry) -> bool
    ensures { IsTrue result ↔ IsOneOfEight node }
{
    match node {
        Entry::Port(index) | Entry::Ring(index) => usize::from(index) < MAX_OF_A_KIND,
    }
}

// Makes a zero for each label.
fn zeros(alloc: Global) -> Result<Vec<u64>, AllocError>
    ensures zero { IfOk result (λ v. AreZero v.items) }
    ensures len { IfOk result (λ v. length v.items ≡ 16 * MAX_INSTRS) }
{
    let numbers = Vec::from_elem(alloc, 0u64, 2 * MAX_OF_A_KIND * MAX_INSTRS)?;
    Ok(numbers)
}

// Adds one to a count.
#[inline(always)]
fn count(numbers: &mut [u64], k: usize)
    requires { k < length numbers.old }
    ensures { numbers.new ≡ one_more k numbers.old }
{
    numbers[k] = numbers[k].wrapping_add(1);
}

/// The counts of an instruction.
#[derive(Clone, Copy, Default)]
pub struct StepCounts {
    /// How often it ran.
    pub ran: u64,
    /// How often its jump was taken.
    pub taken: u64,
    /// How often a node run was cut there: its jump was the first backward one beyond the budget.
    pub cut: u64,
}

impl Counts {
    /// Makes counts that are all zero.
    ///
    /// # Errors
    ///
    /// `AllocError` if the memory for the counts, 560 kB, is refused.
    pub fn new(alloc: Global) -> Result<Counts, AllocError>
        ensures { IfOk result HasNone }
    {
        Ok(Counts {
            came: zeros(alloc)?,
            taken: zeros(alloc)?,
            ended: zeros(alloc)?,
            cut: zeros(alloc)?,
            place: 0,
            gauge: Gauge::NEW,
            losses: Losses::new(alloc)?,
        })
    }

    /// Adds the program of a node, so that what it is refused is counted.
    pub fn add(&mut self, node: Entry, program: &Program)
        ensures { self.new ≡ self.old }
    {
        self.losses.add(node, program);
    }

    /// How often each was refused. This is tested, not proved.
    pub fn refusals(&self) -> Refusals {
        self.losses.refusals()
    }

    /// How full the rings were, and how few buffers were free. This is tested, not proved.
    pub fn levels(&self) -> Levels {
        self.gauge.levels
    }

    /// The counts at a label of a node: zeros if there is no such node or label. It takes a sum over the labels up to this one.
    pub fn step(&self, node: Entry, label: usize) -> StepCounts
        ensures { result ≡ step_counts self.now node label }
    {
        if label >= MAX_INSTRS || !is_one_of_eight(node) {
            return StepCounts::default();
        }
        let place = place_of(node);
        let mut ran = self.came[place];
        for before in 0..label {
            let k = place + before;
            ran = ran
                .wrapping_sub(self.taken[k])
                .wrapping_sub(self.ended[k])
                .wrapping_sub(self.cut[k])
                .wrapping_add(self.came[k + 1]);
        }
        StepCounts {
            ran,
            taken: self.taken[place + label],
            cut: self.cut[place + label],
        }
    }
}

impl Watch for Counts {
    ghost use Rattle.dp_counts.specs.Counting.{counts_see};

    ghost sees = { counts_see };

    #[inline(always)]
    fn begin(&mut self, node: Entry, view: View<'_>) {
        let place = place_of(node);
        self.place = place;
        count(&mut self.came, place);
        self.gauge.note_begin(node, &view);
        self.losses.begin(node, view);
    }

    // (Each arm looks at the levels itself: with one look for all, an instruction takes a fifth of a machine instruction more.)
    #[inline(always)]
    fn see(&mut self, label: u16, way: Way, view: View<'_>) {
        let k = self.place + usize::from(label);
        match way {
            Way::On => self.gauge.note_step(&view),
            Way::To(to) => {
                count(&mut self.came, self.place + usize::from(to) % MAX_INSTRS);
                count(&mut self.taken, k);
                self.gauge.note_step(&view);
                self.losses.see(label, way, view);
            }
            Way::Out => {
                count(&mut self.ended, k);
                self.gauge.note_end(&view);
            }
            Way::Cut => {
                count(&mut self.cut, k);
                self.gauge.note_end(&view);
                self.losses.see(label, way, view);
            }
        }
    }
}
