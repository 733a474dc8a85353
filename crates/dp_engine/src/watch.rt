//! Where control goes after an instruction, and watchers of node runs.
ghost use Rattle.std.specs.Prelude.{◌≡◌, ◌+◌, Some, if◌then◌else◌};
ghost use Rattle.dp_engine.specs.Steps.{label_after, IsOnOrTo};
ghost use Rattle.dp_engine.specs.Watching.{TurnsAreRuns};

use crate::view::View;
use dp_model::Entry;

/// Where an instruction led.
#[derive(Clone, Copy)]
pub enum Way {
    /// To the instruction after it.
    On,
    /// To the instruction of this label, by a jump that was taken.
    To(u16),
    /// Out of the node run, which ends.
    Out,
    /// Nowhere: its jump is the first backward one beyond the budget, so the node run is cut.
    Cut,
}

// Jumps to the label if the test passes, else goes on.
#[inline(always)]
pub(crate) fn branch(test: bool, to: u16, label: usize) -> Way
    ensures leads { label_after label result ≡ Some (if test then to else label + 1) }
    ensures names { IsOnOrTo to result }
{
    if test { Way::To(to) } else { Way::On }
}

/// Watches node runs, instruction by instruction.
///
/// Contracts see how each event that a watcher is shown changes it.
pub trait Watch {
    ghost use Rattle.std.specs.Prelude.{◌<◌};
    ghost use Rattle.dp_lang.specs.declared.program.TheConstants.{MAX_INSTRS};
    ghost use Rattle.dp_engine.specs.Watching.{Event, Began, Ran, IsOneOfEight};

    // Relates the watcher before an event to the watcher after it.
    ghost sees: { Self → Event → Self → Type 0 };

    /// A node run of this node begins. The view is of the machine before the first instruction.
    fn begin(&mut self, node: Entry, view: View<'_>)
        requires { IsOneOfEight node }
        ensures { sees self.old (Began node view.entry.state) self.new };

    /// The instruction at this label ran and led that way. The view is of the machine after it; if the node run is cut, before its packets are
    /// freed.
    fn see(&mut self, label: u16, way: Way, view: View<'_>)
        requires { label < MAX_INSTRS }
        ensures { sees self.old (Ran label way view.entry.state) self.new };
}

/// A watcher that does nothing. A run under it costs as much as a run that nobody watches.
#[derive(Clone, Copy)]
pub struct Silent;

impl Watch for Silent {
    ghost use Rattle.std.specs.Prelude.{⊤};

    ghost sees = { λ w e w'. ⊤ };

    #[inline(always)]
    fn begin(&mut self, _node: Entry, _view: View<'_>) {}

    #[inline(always)]
    fn see(&mut self, _label: u16, _way: Way, _view: View<'_>) {}
}

/// A law: the events that a watcher is shown of a turn are a sequence of whole node runs.
pub fn turns_are_runs()
    ensures { TurnsAreRuns }
{}
