//! Widens rows of programs with loops: passes over all labels weaken rows until they are stable, or until the limit of passes. Each step goes to a
//! constant of the program, and after many passes straight to a row that says nothing. This is a heuristic: the contracts say exactly which rows
//! result, but not that they suffice. The checker decides that.

ghost use Rattle.std.specs.Prelude.{◌≡◌, ◌<◌, ◌≤◌, not, length, IsTrue, slice_get, Some};
ghost use Rattle.dp_model.specs.Arithmetic.{greatest};
ghost use Rattle.dp_model.specs.declared.instr.Instr.{Instr as AnyInstr};
ghost use Rattle.std.specs.List.{list_all};
ghost use Rattle.dp_model.specs.Rows.{is_well_formed_row};
ghost use Rattle.dp_lang.specs.declared.program.TheConstants.{MAX_INSTRS};
ghost use Rattle.dp_check.specs.Leads.{listed};
ghost use Rattle.dp_infer.specs.Joins.{paired};
ghost use Rattle.dp_infer.specs.Widening as spec;

use crate::join::{joined, met};
use dp_check::{Leads, leads_of};
use dp_model::{Env, Fact, Holding, Instr, Lead, MAX_SEGMENTS, Operand, Row};

/// The number of passes that go from constant to constant.
const SLOW_PASSES: u32 = 64;

/// The maximum number of passes.
const MAX_PASSES: u32 = 4096;

/// The bound that a constant of an instruction (set, test, mask) puts on a number, or 0.
fn bound_in(instr: &Instr) -> u64
    ensures { result ≡ spec.bound_in instr.now }
{
    match *instr {
        Instr::Set { value, .. } => value,
        Instr::Jlt { right, .. } => right.saturating_sub(1),
        Instr::And {
            by: Operand::Constant(value),
            ..
        } => value,
        Instr::Jeq {
            right: Operand::Constant(value),
            ..
        } => value,
        _ => 0,
    }
}

/// The count of bytes in an instruction, or 0.
fn count_in(instr: &Instr) -> u16
    ensures { result ≡ spec.count_in instr.now }
{
    match *instr {
        Instr::Prepend { count, .. } => count,
        Instr::Adj { count, .. } => count,
        Instr::Append { count, .. } => count,
        Instr::Trim { count, .. } => count,
        Instr::IfHead { least, .. } => least,
        Instr::IfTail { least, .. } => least,
        Instr::IfLen { least, .. } => least,
        Instr::IfLast { least, .. } => least,
        _ => 0,
    }
}

/// The least bound of the program that is at least `least`, or the greatest number.
fn bound_above(program: &[Instr], least: u64) -> u64
    ensures { result ≡ spec.bound_from least greatest program.now }
{
    let mut above = u64::MAX;
    for instr in program {
        let bound = bound_in(instr);
        if least <= bound && bound < above {
            above = bound;
        }
    }
    above
}

/// The greatest count of the program that is at most `most`, or 0.
fn count_below(program: &[Instr], most: u16) -> u16
    ensures { result ≡ spec.count_from most 0 program.now }
{
    let mut below = 0u16;
    for instr in program {
        let count = count_in(instr);
        if count <= most && below < count {
            below = count;
        }
    }
    below
}

/// Widens a bound that may have grown.
fn raised(program: &[Instr], before: u64, now: u64, slow: bool) -> u64
    ensures { result ≡ spec.raised program.now slow before now }
{
    if now <= before {
        now
    } else if slow {
        bound_above(program, now)
    } else {
        u64::MAX
    }
}

/// Widens a measure that may have become less.
fn lowered(program: &[Instr], before: u16, now: u16, slow: bool) -> u16
    ensures { result ≡ spec.lowered program.now slow before now }
{
    if before <= now {
        now
    } else if slow {
        count_below(program, now)
    } else {
        0
    }
}

/// Widens a fact that may say less than before.
fn lowered_fact(program: &[Instr], before: Fact, now: Fact, slow: bool) -> Fact
    ensures { result ≡ spec.lowered_fact program.now slow before now }
{
    match before.holding() {
        None => now,
        Some(was) => match now.holding() {
            None => now,
            Some(h) => Fact::from(Holding {
                head: lowered(program, was.head, h.head, slow),
                tail: lowered(program, was.tail, h.tail, slow),
                first: lowered(program, was.first, h.first, slow),
                last: lowered(program, was.last, h.last, slow),
                segs: if h.segs <= was.segs {
                    h.segs
                } else {
                    MAX_SEGMENTS
                },
                ..h
            }),
        },
    }
}

/// Widens facts that may say less than before, register by register.
fn lowered_facts(program: &[Instr], before: &[Fact; 8], now: &[Fact; 8], slow: bool) -> [Fact; 8]
    ensures { result ≡ paired (spec.lowered_fact program.now slow) before.now now.now }
{
    let mut lowered = [Fact::Empty; 8];
    for i in 0..8 {
        lowered[i] = lowered_fact(program, before[i], now[i], slow);
    }
    lowered
}

/// Widens bounds that may have grown, register by register.
fn raised_bounds(program: &[Instr], before: &[u64; 8], now: &[u64; 8], slow: bool) -> [u64; 8]
    ensures { result ≡ paired (spec.raised program.now slow) before.now now.now }
{
    let mut greater = [0u64; 8];
    for i in 0..8 {
        greater[i] = raised(program, before[i], now[i], slow);
    }
    greater
}

/// Widens a row that may say less than before.
fn lowered_row(program: &[Instr], before: &Row, now: &Row, slow: bool) -> Row
    ensures { result ≡ spec.lowered_row program.now slow before.now now.now }
{
    Row {
        live: now.live,
        facts: lowered_facts(program, &before.facts, &now.facts, slow),
        bounds: raised_bounds(program, &before.bounds, &now.bounds, slow),
    }
}

/// The row of a label to which control returns with `row`.
#[tactic(auto, using(crate::proofs::JoinLaws::joined_well_formed, crate::proofs::JoinLaws::met_well_formed))]
fn weakened(program: &[Instr], there: &Row, row: &Row, slow: bool) -> Row
    ensures is { result ≡ spec.weakened program.now slow there.now row.now }
    ensures well_formed { IsTrue (is_well_formed_row result) }
{
    let common = met(there, row);
    if there.live {
        joined(&lowered_row(program, there, &common, slow), &common)
    } else {
        common
    }
}

/// The row of a label that control reaches with `row`, from an earlier label, from a later one or from itself.
#[tactic(auto, using(crate::proofs::JoinLaws::met_well_formed))]
fn known_after(program: &[Instr], there: &Row, row: &Row, back: bool, slow: bool) -> Row
    ensures is { result ≡ spec.known_after program.now back slow there.now row.now }
    ensures well_formed { IsTrue (is_well_formed_row result) }
{
    if back {
        weakened(program, there, row, slow)
    } else {
        met(there, row)
    }
}

/// Whether two rows differ.
fn differ(row: &Row, other: &Row) -> bool
    ensures { result ≡ not (spec.same_row row.now other.now) }
{
    *row != *other
}

/// Joins a row into that of its label; returns whether that changed.
#[tactic(auto, using(crate::proofs::RowLists::all_set))]
fn reach_again(rows: &mut [Row], program: &[Instr], label: u16, lead: &Lead, slow: bool) -> bool
    requires well_formed { IsTrue (list_all is_well_formed_row rows.old) }
    ensures reached { spec.reached_again program.now label slow lead.now rows.old ≡ record { rows = rows.new; changed = result } }
    ensures well_formed { IsTrue (list_all is_well_formed_row rows.new) }
    ensures long { length rows.new ≡ length rows.old }
{
    let to = usize::from(lead.to);
    if to >= rows.len() {
        return false;
    }
    let there = rows[to];
    let row = known_after(program, &there, &lead.row, lead.to <= label, slow);
    rows[to] = row;
    differ(&row, &there)
}

/// Joins what is known after a label into the rows of its successors; returns whether a row changed.
fn pass_again(rows: &mut [Row], program: &[Instr], env: &Env, label: u16, slow: bool) -> bool
    requires in_range { label < length rows.old }
    requires same_length { length rows.old ≡ length program.now }
    requires at_most { length program.now ≤ MAX_INSTRS }
    requires well_formed { IsTrue (list_all is_well_formed_row rows.old) }
    ensures passed { (i : AnyInstr) → slice_get program.now label ≡ Some i →
        spec.passed_again program.now env.now slow label i rows.old ≡ record { rows = rows.new; changed = result } }
    ensures well_formed { IsTrue (list_all is_well_formed_row rows.new) }
    ensures long { length rows.new ≡ length rows.old }
{
    let row = rows[usize::from(label)];
    if !row.live {
        return false;
    }
    let instr = program[usize::from(label)];
    match leads_of(instr, env, label, &row) {
        Leads::Ends => false,
        Leads::One(lead) => reach_again(rows, program, label, &lead, slow),
        Leads::Two(lead, other) => {
            let one = reach_again(rows, program, label, &lead, slow);
            let two = reach_again(rows, program, label, &other, slow);
            one | two
        }
    }
}

/// Joins rows into those of successors, label by label in order; returns whether a row changed.
fn spread_again(rows: &mut [Row], program: &[Instr], env: &Env, slow: bool) -> bool
    requires same_length { length rows.old ≡ length program.now }
    requires at_most { length program.now ≤ MAX_INSTRS }
    requires well_formed { IsTrue (list_all is_well_formed_row rows.old) }
    ensures rows { rows.new ≡ (spec.weakened_once program.now env.now slow rows.old).rows }
    ensures changed { result ≡ (spec.weakened_once program.now env.now slow rows.old).changed }
    ensures well_formed { IsTrue (list_all is_well_formed_row rows.new) }
    ensures long { length rows.new ≡ length rows.old }
{
    let mut changed = false;
    for label in 0..program.len() as u16 {
        let again = pass_again(rows, program, env, label, slow);
        changed |= again;
    }
    changed
}

/// Widens rows, pass by pass, until a pass changes none, or [`MAX_PASSES`] are made. Whether they suffice then is left open.
pub(crate) fn widen(rows: &mut [Row], program: &[Instr], env: &Env)
    requires same_length { length rows.old ≡ length program.now }
    requires at_most { length program.now ≤ MAX_INSTRS }
    requires well_formed { IsTrue (list_all is_well_formed_row rows.old) }
    ensures widened_to_end { rows.new ≡ spec.widened_to_end program.now env.now rows.old }
    ensures long { length rows.new ≡ length rows.old }
    ensures well_formed { IsTrue (list_all is_well_formed_row rows.new) }
{
    for pass in 0..MAX_PASSES {
        if !spread_again(rows, program, env, pass < SLOW_PASSES) {
            return;
        }
    }
}
