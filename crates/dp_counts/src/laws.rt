//! The laws of counts: functions that do nothing.
ghost use Rattle.dp_counts.specs.Counting.{BeginsAtZero, CountsSteps, CountsTurns};

/// A law: after events that are a sequence of whole node runs, each count is its old value plus one for each step that it counts, modulo 2^64.
pub fn counts_are_of_steps()
    ensures { CountsSteps }
{}

/// A law: counts that begin are 0 at each label of each node.
pub fn counts_begin_at_zero()
    ensures { BeginsAtZero }
{}

/// A law: over a turn that is shown to `Counts`, each count grows by the steps of that turn that it counts.
pub fn counts_are_of_turns()
    ensures { CountsTurns }
{}
