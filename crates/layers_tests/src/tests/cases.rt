//! How tests assert: the cases of a table, the steps of a script, and facts.
ghost use Rattle.std.specs.Prelude.{◌≡◌, true};

use std::alloc::Global;
use std::process::Abort;

/// A case of a table.
pub(crate) trait Case {
    /// Whether it is as it says.
    fn holds(&self, alloc: Global) -> bool;
}

/// Asserts that each case is as it says.
pub(crate) fn all_hold<C: Case>(rt: &impl Abort, alloc: Global, cases: &[C]) {
    for (k, case) in cases.iter().enumerate() {
        assert!(rt; case.holds(alloc), "case {k}");
    }
}

/// Asserts that no step of a script is the first that differs.
pub(crate) fn none_differs(rt: &impl Abort, script: usize, first: Option<usize>) {
    let step = first.unwrap_or(0);
    assert!(rt; first.is_none(), "script {script}, step {step}");
}

/// Whether all bytes are this one.
pub(crate) fn are_all(bytes: &[u8], byte: u8) -> bool {
    for one in bytes {
        if *one != byte {
            return false;
        }
    }
    true
}

/// Asserts that something is so.
pub(crate) fn must(rt: &impl Abort, holds: bool, what: &str)
    ensures { holds ≡ true }
{
    assert!(rt; holds, "{what}");
}
