//! The cost of a program, for a caller that has its text.

ghost use Rattle.std.specs.Prelude.{◌≡◌};
ghost use Rattle.dp_host.specs.Costs.{CostAnswers, jumps_number, label_number, stats_of};

use crate::numbers::CostStats;
use crate::refusal::Refusal;
use dp_cost::{Cost, cost_of};
use dp_lang::{AsmError, assemble};
use std::alloc::Global;

// 1 if a program can jump back, else 0.
fn jumps_number(back: Option<u16>) -> u32
    ensures { result ≡ jumps_number back }
{
    match back {
        Some(_) => 1,
        None => 0,
    }
}

// The first label at which a program can jump back, 0 if it never does.
fn label_number(back: Option<u16>) -> u32
    ensures { result ≡ label_number back }
{
    match back {
        Some(label) => u32::from(label),
        None => 0,
    }
}

// A cost, as the C caller sees it.
fn stats_of(cost: Cost) -> CostStats
    ensures { result ≡ stats_of cost }
{
    CostStats {
        steps: cost.steps,
        jumps_back: jumps_number(cost.back),
        label: label_number(cost.back),
    }
}

/// Sets `stats` to the cost of the program that a text reads as; returns 0 or the number of a refusal.
#[tactic(auto, using(crate::proofs::Unread::no_program))]
pub(crate) fn program_cost(alloc: Global, text: &[u8], stats: &mut CostStats) -> u32
    ensures { CostAnswers text.now stats.old stats.new result }
{
    match assemble(alloc, text) {
        Ok(program) => {
            *stats = stats_of(cost_of(&program));
            0
        }
        Err(AsmError::Fault(_)) => Refusal::NoProgram.number(),
        Err(AsmError::Memory) => Refusal::NoMemory.number(),
    }
}
