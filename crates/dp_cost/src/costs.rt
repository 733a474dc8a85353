//! The cost of a program, and of a turn.

ghost use Rattle.std.specs.Prelude.{◌≡◌, ◌≤◌};
ghost use Rattle.dp_cost.specs.Costs.{IsCost, greatest, turn_cost};

use crate::flow::first_back;
use crate::longest::longest;
use dp_lang::Program;

/// How many times its length a program can cost at most: 256 jumps back, and the run after the last.
const ROUNDS: u32 = 257;

/// The maximum number of node runs on packets in rings, in a turn.
const RING_RUNS: u64 = 32;

/// What one node run of a program can take at most.
#[derive(Clone, Copy)]
pub struct Cost {
    /// The greatest number of instructions, 1 to 263,168: the longest way through the program, or 257 times its length if it can jump back.
    pub steps: u32,
    /// The first label, from 0, at which the program can jump back, to that label or an earlier one; none if it never does.
    pub back: Option<u16>,
}

/// The cost of a program.
pub fn cost_of(program: &Program) -> Cost
    ensures { IsCost program.now result }
{
    let instrs = program.instrs();
    match first_back(instrs) {
        Some(label) => Cost {
            steps: ROUNDS * instrs.len() as u32,
            back: Some(label as u16),
        },
        None => Cost {
            steps: u32::from(longest(instrs)),
            back: None,
        },
    }
}

/// The greatest cost of these, 0 of none.
fn greatest(costs: &[Cost]) -> u32
    ensures { result ≡ greatest costs.now }
{
    match costs {
        [] => 0,
        [first, later @ ..] => first.steps.max(greatest(later)),
    }
}

/// The greatest number of instructions for one record: that of its port's program, and of up to 32 node runs on packets in rings.
pub fn turn_cost(port: Cost, rings: &[Cost]) -> u64
    ensures { result ≡ turn_cost port rings.now }
{
    u64::from(port.steps) + RING_RUNS * u64::from(greatest(rings))
}
