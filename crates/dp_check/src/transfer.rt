//! The successors of an instruction, each with the row there.

ghost use Rattle.std.specs.Prelude.{◌≡◌, ◌<◌, IsTrue};
ghost use Rattle.dp_model.specs.Rows.{is_well_formed_row, onward, fork, leads};
ghost use Rattle.dp_check.specs.Leads.{last_label, listed};

use crate::bounds::{with_bits, with_bound, with_left_shift, with_right_shift};
use crate::groups::{chained, cloned, freed, sent};
use crate::packet_facts::{allocated, appended, cut_after, cut_in_front, prepended, with_least};
use dp_model::{Env, Instr, Lead, MAX_HOP, Measure, Row, by_instr};

/// The successors of an instruction.
#[derive(Clone, Copy)]
pub enum Leads {
    Ends,
    One(Lead),
    Two(Lead, Lead),
}

impl Leads {
    /// To the next instruction only.
    fn onward(label: u16, row: Row) -> Leads
        requires { label < last_label }
        ensures { listed result ≡ onward label row }
    {
        Leads::One(Lead { to: label + 1, row })
    }

    /// To the next instruction with the first row, or to a label with the second.
    fn fork(label: u16, row: Row, to: u16, there: Row) -> Leads
        requires { label < last_label }
        ensures { listed result ≡ fork label row to there }
    {
        Leads::Two(Lead { to: label + 1, row }, Lead { to, row: there })
    }
}

/// The successors of the instruction at a label, each with the row there.
pub fn leads_of(instr: Instr, env: &Env, label: u16, row: &Row) -> Leads
    requires in_range { label < last_label }
    requires well_formed { IsTrue (is_well_formed_row row.now) }
    ensures { listed result ≡ leads env.now label row.now instr }
{
    by_instr! { instr;
        Alloc: { into, pool, refused } => Leads::fork(label, allocated(row, into, env.room(pool)), refused, *row);
        Free: { packet } => Leads::onward(label, freed(row, packet));
        Clone: { into, from, refused, .. } => Leads::fork(label, cloned(row, into, from), refused, *row);
        Prepend: { packet, count } => Leads::onward(label, prepended(row, packet, count));
        Adj: { packet, count } => Leads::onward(label, cut_in_front(row, packet, count));
        Append: { packet, count } => Leads::onward(label, appended(row, packet, count));
        Trim: { packet, count } => Leads::onward(label, cut_after(row, packet, count));
        Chain: { front, back } => Leads::onward(label, chained(row, front, back));
        IfHead: { packet, least, less } => Leads::fork(label, with_least(row, packet, Measure::Headroom, least), less, *row);
        IfTail: { packet, least, less } => Leads::fork(label, with_least(row, packet, Measure::Tailroom, least), less, *row);
        IfLen: { packet, least, less } => Leads::fork(label, with_least(row, packet, Measure::First, least), less, *row);
        IfLast: { packet, least, less } => Leads::fork(label, with_least(row, packet, Measure::Last, least), less, *row);
        Load | LoadX: { into, width, .. } => Leads::onward(label, with_bound(row, into, width.greatest()));
        Store | StoreX: { .. } => Leads::onward(label, *row);
        Set: { into, value } => Leads::onward(label, with_bound(row, into, value));
        Mov: { into, from } => Leads::onward(label, with_bound(row, into, row.bound_of(from)));
        Add: { into, by } => Leads::onward(label, with_bound(row, into, row.bound_of(into).saturating_add(row.bound(by))));
        Sub: { into, .. } => Leads::onward(label, with_bound(row, into, u64::MAX));
        And: { into, by } => Leads::onward(label, with_bound(row, into, row.bound_of(into).min(row.bound(by))));
        Or | Xor: { into, by } => Leads::onward(label, with_bits(row, into, by));
        Shl: { into, by } => Leads::onward(label, with_left_shift(row, into, by));
        Shr: { into, by } => Leads::onward(label, with_right_shift(row, into, by));
        Jmp: { to } => Leads::One(Lead { to, row: *row });
        Jeq: { left, right, equal } => Leads::fork(label, *row, equal, with_bound(row, left, row.bound_of(left).min(row.bound(right))));
        Jlt: { left, right, below } =>
            Leads::fork(label, *row, below, with_bound(row, left, row.bound_of(left).min(right.saturating_sub(1))));
        Lookup: { into, missed, .. } => Leads::fork(label, with_bound(row, into, u64::from(MAX_HOP)), missed, *row);
        Tx | Enq: { packet, full, .. } => Leads::fork(label, sent(row, packet), full, *row);
        Exit: {} => Leads::Ends;
    }
}
