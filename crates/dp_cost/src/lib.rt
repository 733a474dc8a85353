//! What a program can cost: the greatest number of instructions that one node run can take, known before the program runs.
//!
//! What to call: `cost_of` for a program, and `turn_cost` for a port with the rings of its pipeline. `costs_bound_runs` is the promise: no node run
//! takes more instructions than its program costs, and no turn more than `turn_cost`, whatever packets come.
//!
//! A program in which no instruction names its own label or an earlier one costs its longest way: the most labels along which control can go one
//! after another. So the number is exact for labels; whether a packet takes that way depends on its bytes. Any other program costs 257 times its
//! length, as the machine takes at most 256 jumps back. Nothing here takes memory.
#![tactic(auto)]

mod costs;
mod flow;
mod laws;
mod longest;

pub use costs::{Cost, cost_of, turn_cost};
pub use laws::costs_bound_runs;
