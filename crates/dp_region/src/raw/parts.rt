//! Splits a `Vec<u8>` into its raw bytes (`Run`) and what frees them (`Shell`), and puts it together again; views a run as a vector that cannot grow.
ghost use Rattle.std.specs.Prelude.{◌≡◌, ◌^◌, ◌<◌, length};

use super::{Run, Shell};
use std::alloc::Global;
use std_alloc::vec::{Lodged, lodge};

// Splits a vector into its bytes and its shell.
pub(crate) fn detach(vec: Vec<u8, Global>) -> (Run, Shell)
    requires some { 0 < vec.len }
    ensures run { (result.0.start ≡ vec.ptr) × (result.0.bytes ≡ vec.items) }
    ensures shell { (result.1.ptr ≡ vec.ptr) × (result.1.len ≡ vec.len) }
{
    let shell = Shell { vec };
    (Run {}, shell)
}

// Puts a shell and a run together to a vector.
pub(crate) fn attach(shell: Shell, run: Run) -> Vec<u8, Global>
    requires { (run.start ≡ shell.ptr) × (length run.bytes ≡ shell.len) }
    ensures { result.items ≡ run.bytes }
{
    let Run {} = run;
    let Shell { vec } = shell;
    vec
}

// Views a run as a vector that can neither grow nor be freed.
pub(crate) fn house(run: Run, ptr: *mut u8, len: usize) -> Vec<u8, Lodged>
    requires { (run.start ≡ ptr) × (length run.bytes ≡ len) × (0 < len) × (len < 2 ^ 63) }
    ensures { (result.items ≡ run.bytes) × (result.len ≡ len) × (result.ptr ≡ ptr) }
{
    let Run {} = run;
    unsafe { lodge(ptr, len, len) }
}

// Takes the run out of such a vector.
pub(crate) fn vacate(vec: Vec<u8, Lodged>) -> Run
    requires { 0 < vec.len }
    ensures { (result.start ≡ vec.ptr) × (result.bytes ≡ vec.items) }
{
    let _ = vec.dislodge();
    Run {}
}
