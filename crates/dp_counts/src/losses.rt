//! Counts what was refused: packets by full transmit lists and full rings, and buffers by pools.

use crate::counts::{is_one_of_eight, number_of};
use dp_engine::{View, Watch, Way};
use dp_lang::{MAX_INSTRS, Program};
use dp_model::{Entry, Instr, NumberRegister};
use std::alloc::{AllocError, Global};

/// What an instruction asks for that may be refused. Then it jumps.
#[derive(Clone, Copy)]
enum Request {
    None,
    /// A place in the transmit list of the port in this register.
    Send(NumberRegister),
    /// A place in this ring.
    Enqueue(u8),
    /// Buffers of this pool.
    Allocate(u8),
}

impl Request {
    /// What an instruction asks for.
    fn of(instr: &Instr) -> Request {
        match *instr {
            Instr::Tx { port, .. } => Request::Send(port),
            Instr::Enq { ring, .. } => Request::Enqueue(ring),
            Instr::Alloc { pool, .. } | Instr::Clone { pool, .. } => Request::Allocate(pool),
            _ => Request::None,
        }
    }
}

/// How often each was refused. The numbers wrap at 2^64.
#[derive(Clone, Copy)]
pub struct Refusals {
    /// For each port, how often a packet was to be put into its transmit list while that was full.
    pub lists: [u64; 8],
    /// For each ring, how often a packet was to be put into it while it was full.
    pub rings: [u64; 8],
    /// For each pool, how often `alloc` and `clone` were refused its buffers.
    pub pools: [u64; 8],
}

impl Refusals {
    /// Nothing was refused.
    pub const NONE: Refusals = Refusals {
        lists: [0; 8],
        rings: [0; 8],
        pools: [0; 8],
    };
}

/// Adds one to the count of this index, if there is one.
fn count(numbers: &mut [u64; 8], index: usize) {
    if let Some(number) = numbers.get_mut(index) {
        *number = number.wrapping_add(1);
    }
}

/// A watcher that counts refusals. Only a jump that is taken costs anything. What it counts is tested, not proved.
#[derive(Drop)]
pub struct Losses {
    /// What the instruction at each label of each node asks for.
    requests: Vec<Request>,
    /// The number of the running node.
    running: u8,
    refusals: Refusals,
}

impl Losses {
    /// A watcher of no programs.
    ///
    /// # Errors
    ///
    /// `AllocError` if the memory for it, some 32 kB, is refused.
    pub fn new(alloc: Global) -> Result<Losses, AllocError> {
        Ok(Losses {
            requests: Vec::from_elem(alloc, Request::None, 16 * MAX_INSTRS)?,
            running: 0,
            refusals: Refusals::NONE,
        })
    }

    /// Adds the program of a node.
    pub fn add(&mut self, node: Entry, program: &Program) {
        if is_one_of_eight(node) {
            let place = MAX_INSTRS * usize::from(number_of(node));
            for (label, instr) in program.instrs().iter().enumerate() {
                if let Some(request) = self.requests.get_mut(place + label) {
                    *request = Request::of(instr);
                }
            }
        }
    }

    /// How often each was refused.
    pub fn refusals(&self) -> Refusals {
        self.refusals
    }
}

impl Watch for Losses {
    ghost use Rattle.std.specs.Prelude.{⊤};

    ghost sees = { λ w e w'. ⊤ };

    #[inline(always)]
    fn begin(&mut self, node: Entry, _view: View<'_>) {
        self.running = number_of(node);
    }

    #[inline(always)]
    fn see(&mut self, label: u16, way: Way, view: View<'_>) {
        if matches!(way, Way::On | Way::Out) {
            return;
        }
        let index = MAX_INSTRS * usize::from(self.running) + usize::from(label);
        match self.requests.get(index) {
            Some(Request::Send(port)) => {
                let port = view.number(*port);
                count(&mut self.refusals.lists, port as usize);
            }
            Some(Request::Enqueue(ring)) => count(&mut self.refusals.rings, usize::from(*ring)),
            Some(Request::Allocate(pool)) => count(&mut self.refusals.pools, usize::from(*pool)),
            _ => {}
        }
    }
}
