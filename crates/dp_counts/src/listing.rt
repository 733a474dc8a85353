//! Says the programs of a pipeline with their counts, the sums for each table and each ring, and how few buffers of each pool were free.
ghost use Rattle.std.specs.Prelude.{◌≡◌, ◌≤◌, Some, length, take};
ghost use Rattle.dp_console.specs.Replies.{Says};
ghost use Rattle.dp_counts.specs.Listings as spec;
ghost use Rattle.dp_counts.specs.Totals as totals;

use crate::counts::{Counts, StepCounts};
use crate::levels::Levels;
use crate::source::{NodeSource, Role, SourceLine};
use dp_console::Text;
use dp_load::NodeName;
use dp_model::{Entry, PoolSpec, RingSpec};

// Says bytes.
fn say_bytes(bytes: &[u8], out: &mut Text)
    ensures { Says out.old out.new (Some bytes.now) }
{
    out.has_failed |= out.bytes.extend_from_slice(bytes).is_err();
}

// Says the columns of an instruction: how often it ran, and how often its jump was taken, or the word for packets that ended there.
fn say_columns(role: Role, counts: StepCounts, out: &mut Text)
    ensures { Says out.old out.new (Some (spec.columns_of role counts)) }
{
    let StepCounts { ran, taken, .. } = counts;
    let word = match role {
        Role::Frees if ran > 0 => "     freed  ",
        Role::Ends if ran > 0 => "     ended  ",
        Role::Plain | Role::Frees | Role::Ends => "            ",
        _ => return out.say(format_args!("{ran:>10}{taken:>10}  ")),
    };
    out.say(format_args!("{ran:>10}{word}"));
}

// Says a line without an instruction, after two empty columns.
#[tactic(auto, using(crate::proofs::Lines::says_nothing, crate::proofs::Lines::says_both))]
fn say_other(text: &[u8], out: &mut Text)
    ensures { Says out.old out.new (Some (spec.other_line text.now)) }
{
    if let [_, ..] = text {
        out.say("                      ");
        say_bytes(text, out);
    }
    out.say("\n");
}

// Says a line of a program, and how many node runs were cut at its instruction, if there were any.
#[tactic(auto, using(crate::proofs::Lines::says_both))]
fn say_line(counts: &Counts, node: Entry, line: &SourceLine<'_>, out: &mut Text)
    ensures { Says out.old out.new (Some (spec.line_text counts.now node line.now)) }
{
    let Some(step) = line.step else {
        return say_other(line.text, out);
    };
    let counts = counts.step(node, step.label);
    say_columns(step.role, counts, out);
    say_bytes(line.text, out);
    match counts.cut {
        0 => out.say("\n"),
        cut => out.say(format_args!("\n{cut:>10}       cut\n")),
    }
}

// Says the lines of a program.
#[tactic(auto, using(crate::proofs::Lines::says_both))]
fn say_lines(counts: &Counts, source: &NodeSource<'_>, out: &mut Text)
    ensures { Says out.old out.new (Some (spec.lines_text counts.now source.now.node source.now.lines.items)) }
{
    for line in source.lines.as_slice() {
        say_line(counts, source.node, line, out);
    }
}

// Says the programs of a pipeline with their counts, each below its node, its file, and the names of the columns.
pub(crate) fn say_programs(counts: &Counts, sources: &[NodeSource<'_>], out: &mut Text)
    ensures { Says out.old out.new (Some (spec.programs_text counts.now sources.now)) }
{
    for source in sources {
        let (node, name) = (NodeName(source.node), source.name);
        out.say(format_args!("{node} {name}\n       ran     taken\n"));
        say_lines(counts, source, out);
    }
}

/// A sum over instructions of several programs.
#[derive(Clone, Copy)]
pub enum Total {
    /// The lookups for which this table had a hop.
    Hits(u8),
    /// The lookups for which this table had none.
    Misses(u8),
    /// How often a packet was to be put into this ring while it was full.
    Full(u8),
}

// What a line adds: how often the jump of its instruction was not taken, or how often it was taken or cut.
fn share_of_line(counts: &Counts, total: Total, node: Entry, line: &SourceLine<'_>) -> u64
    ensures { result ≡ totals.share_of_line counts.now total node line.now }
{
    let Some(step) = line.step else {
        return 0;
    };
    let StepCounts { ran, taken, cut } = counts.step(node, step.label);
    match (total, step.role) {
        (Total::Hits(table), Role::Lookup(own)) if own == table => {
            ran.saturating_sub(taken).saturating_sub(cut)
        }
        (Total::Misses(wanted), Role::Lookup(own)) | (Total::Full(wanted), Role::Enqueue(own))
            if own == wanted => { taken.wrapping_add(cut) }
        _ => 0,
    }
}

// What a program adds.
fn share_of_node(counts: &Counts, total: Total, source: &NodeSource<'_>) -> u64
    ensures { result ≡ totals.share_of_node counts.now total source.now }
{
    let mut sum = 0u64;
    for line in source.lines.as_slice() {
        sum = sum.wrapping_add(share_of_line(counts, total, source.node, line));
    }
    sum
}

/// The sum over all programs, modulo 2^64.
pub fn total_of(counts: &Counts, total: Total, sources: &[NodeSource<'_>]) -> u64
    ensures { result ≡ totals.total_of counts.now total sources.now }
{
    let mut sum = 0u64;
    for source in sources {
        sum = sum.wrapping_add(share_of_node(counts, total, source));
    }
    sum
}

// Says for each table how many lookups in it found a hop, and how many found none.
#[tactic(auto, using(crate::proofs::Lines::says_both))]
pub(crate) fn say_tables(counts: &Counts, tables: u8, sources: &[NodeSource<'_>], out: &mut Text)
    ensures { Says out.old out.new (Some (totals.table_lines counts.now sources.now tables)) }
{
    for table in 0..tables {
        let hits = total_of(counts, Total::Hits(table), sources);
        let misses = total_of(counts, Total::Misses(table), sources);
        out.say(format_args!("table {table} hits {hits} misses {misses}\n"));
    }
}

// The rings or pools that a pipeline can have: the first eight.
pub(crate) fn first_eight<T>(parts: &[T]) -> &[T]
    ensures same { result.now ≡ take 8 parts.now }
    ensures few { length result.now ≤ 8 }
{
    if parts.len() > 8 { &parts[..8] } else { parts }
}

// Says for each ring, eight at most, the most packets that waited in it, its capacity, and how often it was full.
pub(crate) fn say_rings(
    counts: &Counts,
    levels: &Levels,
    rings: &[RingSpec],
    sources: &[NodeSource<'_>],
    out: &mut Text,
)
    ensures { Says out.old out.new (Some (totals.ring_lines counts.now levels.now sources.now (take 8 rings.now))) }
{
    let rings = first_eight(rings);
    for k in 0..rings.len() {
        let (waited, most) = (levels.waited[k], rings[k].count.saturating_sub(1));
        let full = total_of(counts, Total::Full(k as u8), sources);
        out.say(format_args!("ring {k} waited {waited} of {most} full {full}\n"));
    }
}

// Says for each pool, eight at most, the least number of its buffers that were free, and how many it has.
pub(crate) fn say_pools(levels: &Levels, pools: &[PoolSpec], out: &mut Text)
    ensures { Says out.old out.new (Some (totals.pool_lines levels.now (take 8 pools.now))) }
{
    let pools = first_eight(pools);
    for k in 0..pools.len() {
        let count = pools[k].count;
        let least = levels.free[k].min(count);
        out.say(format_args!("pool {k} least {least} of {count}\n"));
    }
}
