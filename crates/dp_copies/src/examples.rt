//! A run that the definitions compute in both machines.

ghost use Rattle.std.specs.Prelude.{ℕ, [], ◌∷◌};
ghost use Rattle.dp_model.specs.Machine.{World};
ghost use Rattle.dp_model.specs.Runs.{Got, Run};
ghost use Rattle.dp_model.specs.Starts.{IsStart};
ghost use Rattle.dp_model.specs.CopyMachine.{Captures};
ghost use Rattle.dp_copies.specs.TwoClones.{one_port, setting, nodes, arrivals, before, answers, captures};

/// Two clones: one is chained and sent, the other is freed before its source is written. The run over shared buffers and the run of the copies, each
/// computed without the law, have the same captures.
pub fn two_clones_in_both_machines()
    ensures starts { IsStart one_port before }
    ensures shared { (w' : World) × Run {T = ℕ} setting nodes arrivals before (record { answers = answers; outcomes = Got ∷ []; captures = captures }) w' }
    ensures copied { Captures {T = ℕ} one_port [] nodes arrivals answers captures 0 }
{}
