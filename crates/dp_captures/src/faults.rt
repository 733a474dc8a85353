//! Why a capture is at fault.

ghost use Rattle.std.specs.Prelude.{◌≡◌};
ghost use Rattle.dp_captures.specs.Opening.{IsOf};

use crate::watched::{Inlet, Seen};
use dp_pcap::PcapError;
use std::io::Error;

/// Why a capture is at fault.
#[derive(Clone, Copy)]
pub enum CaptureReason {
    /// The system's error.
    System(Error),
    /// The output is read by the same run.
    IsRead,
    /// The output is another port's too.
    IsOutput,
    /// What is printed goes to the output too.
    IsStdout,
    /// What is reported goes to the output too.
    IsStderr,
    /// What is wrong with the capture, and what was seen of its file.
    Capture(PcapError, Seen),
}

/// A reason, and the name of the file it concerns, if that is to be reported.
#[derive(Clone, Copy)]
pub struct CaptureProblem<'a> {
    pub file: Option<&'a str>,
    pub reason: CaptureReason,
}

/// Why captures are not opened.
#[derive(Clone, Copy)]
pub enum CaptureFault<'a> {
    /// Memory was refused.
    Memory,
    /// The capture of this name cannot be opened, or may not be made.
    File {
        name: &'a str,
        problem: CaptureProblem<'a>,
    },
}

/// The fault of the capture with this name, and the other file that it concerns.
pub fn fault_at<'a>(name: &'a str, file: Option<&'a str>, reason: CaptureReason) -> CaptureFault<'a>
    ensures { IsOf name.now result }
{
    let problem = CaptureProblem { file, reason };
    CaptureFault::File { name, problem }
}

/// The reason for a fault of an input: the system's error if its reader failed, otherwise the fault of the capture.
pub fn reason_of_input<I: Inlet>(cause: PcapError, input: Option<&I>) -> CaptureReason {
    let seen = match input {
        Some(input) => input.seen(),
        None => Seen::NOTHING,
    };
    match (cause, seen.failure) {
        (PcapError::Read, Some(error)) => CaptureReason::System(error),
        _ => CaptureReason::Capture(cause, seen),
    }
}
