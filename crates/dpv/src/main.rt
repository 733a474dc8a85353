//! The program `dpv`: one call of dp_cli over the host.
#![tactic(auto)]

use dp_cli::{Streams, run_command_line};
use std::process::ExitCode;

fn main(rt: HostRuntime) -> ExitCode {
    let streams = Streams {
        input: rt.stdin(),
        output: rt.stdout(),
        error: rt.stderr(),
    };
    ExitCode::from(run_command_line(&rt, streams))
}
