//! The report of a run as text.

ghost use Rattle.std.specs.Prelude.{◌∷◌, [], ◌++◌, Some};
ghost use Rattle.dp_console.specs.Replies.{Says};
ghost use Rattle.dp_counts.specs.Totals.{lines_from};
ghost use Rattle.dp_counts.specs.Report as spec;

use dp_console::Text;
use dp_engine::{InputState, PoolReport, PortReport, Report};
use std::fmt;

/// Says how far an input was read: `whole`, `cut` with the offset of the record that is cut short, or `open`.
fn say_state(state: InputState, out: &mut Text)
    ensures { Says out.old out.new (Some (spec.state_text state ++ 10 ∷ [])) }
{
    match state {
        InputState::Whole => out.say("whole\n"),
        InputState::Cut(byte) => out.say(format_args!("cut {byte}\n")),
        InputState::Open => out.say("open\n"),
    }
}

/// Says a line for each port.
fn say_ports(ports: &[PortReport], out: &mut Text)
    ensures { Says out.old out.new (Some (lines_from spec.port_line 0 ports.now)) }
{
    for (k, port) in ports.iter().enumerate() {
        let (received, nobuf) = (port.received, port.nobuf);
        out.say(format_args!("port {k} received {received} nobuf {nobuf}"));
        let (oversize, sent) = (port.oversize, port.sent);
        out.say(format_args!(" oversize {oversize} sent {sent} input "));
        say_state(port.state, out);
    }
}

/// Says how many packets were left in each ring.
fn say_rings(rings: &[u64], out: &mut Text)
    ensures { Says out.old out.new (Some (lines_from spec.ring_line 0 rings.now)) }
{
    for (k, left) in rings.iter().enumerate() {
        out.say(format_args!("ring {k} left {left}\n"));
    }
}

/// Says how many buffers of each pool are free.
fn say_pools(pools: &[PoolReport], out: &mut Text)
    ensures { Says out.old out.new (Some (lines_from spec.pool_line 0 pools.now)) }
{
    for (k, pool) in pools.iter().enumerate() {
        out.say(format_args!("pool {k} free {} of {}\n", pool.free, pool.count));
    }
}

/// Says a report: a line for each port, each ring and each pool, one for the allocation calls, and one for the node runs that were cut, if there
/// are any.
#[tactic(auto, using(crate::proofs::Lines::says_both))]
pub fn say_report(report: &Report, out: &mut Text)
    ensures { Says out.old out.new (Some (spec.report_text report.now)) }
{
    say_ports(report.ports.as_slice(), out);
    say_rings(report.rings.as_slice(), out);
    say_pools(report.pools.as_slice(), out);
    out.say(format_args!("calls {} refused {}\n", report.calls, report.refused));
    if report.cut > 0 {
        out.say(format_args!("cut {}\n", report.cut));
    }
}

/// The records of a port that a run processed: those received, and those dropped before.
fn records_done(port: &PortReport) -> u128 {
    u128::from(port.received) + u128::from(port.nobuf) + u128::from(port.oversize)
}

/// For each port, a line with the number of records that a run processed.
#[derive(Clone, Copy)]
pub struct Totals<'a>(pub &'a [PortReport]);

impl fmt::Display for Totals<'_> {
    fn fmt<W: fmt::Write>(&self, f: &mut fmt::Formatter<W>) -> fmt::Result {
        for (port, numbers) in self.0.iter().enumerate() {
            let records = records_done(numbers);
            writeln!(f, "progress: port {port}: {records} records read in all")?;
        }
        Ok(())
    }
}
