//! Joins what is known at a label that control reaches from several places.

ghost use Rattle.std.specs.Prelude.{◌≡◌, max};
ghost use Rattle.dp_model.specs.Rows.{held, owns_head};
ghost use Rattle.dp_check.specs.Leads.{listed};
ghost use Rattle.dp_infer.specs.Joins as spec;

use dp_check::{Leads, owns_head, reshared, shares_group};
use dp_model::{Fact, HEAD_SOLE, Holding, LOOSE, Lead, MAX_SEGMENTS, Row, is_share};

/// The strongest share that both entail.
fn joined_share(share: u8, other: u8) -> u8
    ensures { result ≡ spec.joined_share share other }
{
    if share == other && is_share(share) {
        share
    } else if owns_head(share) && owns_head(other) {
        HEAD_SOLE
    } else {
        LOOSE
    }
}

/// What is known about both packets: the lesser of each measure, and the greater number of segments.
fn joined_holding(h: Holding, with: Holding) -> Holding
    ensures { held result ≡ spec.joined_fact (held h) (held with) }
{
    Holding {
        share: joined_share(h.share, with.share),
        head: h.head.min(with.head),
        tail: h.tail.min(with.tail),
        first: h.first.min(with.first),
        last: h.last.min(with.last),
        segs: h.segs.max(with.segs).max(1).min(MAX_SEGMENTS),
    }
}

/// What both facts say: the lesser of each measure, and the greater number of segments.
#[tactic(auto, using(crate::proofs::JoinLaws::left_empty, crate::proofs::JoinLaws::right_empty, crate::proofs::JoinLaws::both_held))]
fn joined_fact(fact: Fact, other: Fact) -> Fact
    ensures { result ≡ spec.joined_fact fact other }
{
    match fact.holding() {
        None => Fact::Empty,
        Some(h) => match other.holding() {
            None => Fact::Empty,
            Some(with) => Fact::from(joined_holding(h, with)),
        },
    }
}

/// What both lists of facts say, register by register.
fn paired_facts(facts: &[Fact; 8], others: &[Fact; 8]) -> [Fact; 8]
    ensures { result ≡ spec.paired spec.joined_fact facts.now others.now }
{
    let mut joined = [Fact::Empty; 8];
    for i in 0..8 {
        joined[i] = joined_fact(facts[i], others[i]);
    }
    joined
}

/// What both rows say of a register: loose if its group does not have the same registers in both.
fn common_fact(row: &Row, other: &Row, fact: Fact) -> Fact
    ensures { result ≡ spec.common_fact row.now.facts other.now.facts fact }
{
    match fact.group() {
        Some(group) => {
            if shares_group(row, other, group) {
                fact
            } else {
                reshared(fact, group, LOOSE)
            }
        }
        None => fact,
    }
}

/// What the facts of both rows say.
fn joined_facts(row: &Row, other: &Row) -> [Fact; 8]
    ensures { result ≡ spec.joined_facts row.now.facts other.now.facts }
{
    let facts = paired_facts(&row.facts, &other.facts);
    let mut joined = [Fact::Empty; 8];
    for i in 0..8 {
        joined[i] = common_fact(row, other, facts[i]);
    }
    joined
}

/// The greater of two bounds, register by register.
fn greater_bounds(bounds: &[u64; 8], others: &[u64; 8]) -> [u64; 8]
    ensures { result ≡ spec.paired max bounds.now others.now }
{
    let mut greater = [0u64; 8];
    for i in 0..8 {
        greater[i] = bounds[i].max(others[i]);
    }
    greater
}

/// What both rows say.
pub(crate) fn joined(row: &Row, other: &Row) -> Row
    ensures { result ≡ spec.joined row.now other.now }
{
    Row {
        live: true,
        facts: joined_facts(row, other),
        bounds: greater_bounds(&row.bounds, &other.bounds),
    }
}

/// The row of a label that control reaches with `row`, and perhaps reached before with `there`.
pub(crate) fn met(there: &Row, row: &Row) -> Row
    ensures { result ≡ spec.met there.now row.now }
{
    if there.live {
        joined(there, row)
    } else {
        joined(row, row)
    }
}

/// Joins a row into that of its label, if that is a later one.
fn reach(rows: &mut [Row], label: u16, lead: &Lead)
    ensures { rows.new ≡ spec.reached label rows.old lead.now }
{
    let to = usize::from(lead.to);
    if label < lead.to && to < rows.len() {
        rows[to] = met(&rows[to], &lead.row);
    }
}

/// Joins each successor's row into that of its label, if that is a later one.
pub(crate) fn pass_on(rows: &mut [Row], label: u16, leads: &Leads)
    ensures { rows.new ≡ spec.passed_on label rows.old (listed leads.now) }
{
    match leads {
        Leads::Ends => {}
        Leads::One(lead) => reach(rows, label, lead),
        Leads::Two(lead, other) => {
            reach(rows, label, lead);
            reach(rows, label, other);
        }
    }
}
