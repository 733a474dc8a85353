//! What costs promise, as the contract of a function that does nothing.

ghost use Rattle.std.specs.Prelude.{ℕ, Bool, List};
ghost use Rattle.dp_model.specs.declared.instr.Instr.{Instr};
ghost use Rattle.dp_model.specs.Machine.{Setting, World};
ghost use Rattle.dp_model.specs.Packets.{Packet};
ghost use Rattle.dp_model.specs.Runs.{NodeRun, ConsumedAtMost, Nodes, Outcome, Turn};
ghost use Rattle.dp_cost.specs.declared.costs.Cost.{Cost};
ghost use Rattle.dp_cost.specs.Costs.{IsCost, AreCosts, turn_cost};

use dp_model::budgets_are_as_they_read;

/// No node run takes more instructions than its program costs, for every program, accepted or not, and whatever packet, number and world it begins
/// with. No turn takes more than `turn_cost`: the cost of its port's program, and 32 times the greatest cost of a ring's.
pub fn costs_bound_runs()
    ensures node_runs { (setting : Setting) (program : List Instr) (cost : Cost) (packet : Packet) (number : ℕ) (w w' : World) (answers : List Bool) →
        IsCost program cost → NodeRun setting program packet number w answers w' → ConsumedAtMost w w' cost.steps 1 }
    ensures turns { (setting : Setting) (nodes : Nodes) (port : ℕ) (bytes : List ℕ) (w w' : World) (outcome : Outcome) (runs : ℕ) (answers : List Bool)
        (cost : Cost) (costs : List Cost) (t : Turn setting nodes port bytes w outcome runs answers w') →
        IsCost t.program cost → AreCosts nodes.rings costs → ConsumedAtMost w w' (turn_cost cost costs) runs }
{
    budgets_are_as_they_read();
}
