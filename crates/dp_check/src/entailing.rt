//! Entailment: whether one fact, or one row, says all that another does.

ghost use Rattle.std.specs.Prelude.{◌≡◌, nat_le};
ghost use Rattle.dp_model.specs.Groups.{at_each_index, same_registers, keeps_groups};
ghost use Rattle.dp_model.specs.Rows.{entails_share, entails_holding, entails_fact, entails};

use dp_model::{Fact, HEAD_SOLE, Holding, LOOSE, Row, SOLE};

/// Whether a share says all that the other does.
pub(crate) fn share_entails(share: u8, other: u8) -> bool
    ensures { result ≡ entails_share share other }
{
    other == LOOSE || share == other || (share == SOLE && other == HEAD_SOLE)
}

/// Whether what is known of a packet says all that the other does.
fn holding_entails(known: Holding, wanted: Holding) -> bool
    ensures { result ≡ entails_holding known wanted }
{
    share_entails(known.share, wanted.share)
        && known.head >= wanted.head
        && known.tail >= wanted.tail
        && known.first >= wanted.first
        && known.last >= wanted.last
        && known.segs <= wanted.segs
}

/// Whether a fact says all that the other does.
#[tactic(auto, using(crate::proofs::RowLemmas::empty_entails))]
pub fn fact_entails(fact: Fact, other: Fact) -> bool
    ensures { result ≡ entails_fact fact other }
{
    match fact.holding() {
        None => other.is_empty(),
        Some(known) => match other.holding() {
            None => false,
            Some(wanted) => holding_entails(known, wanted),
        },
    }
}

/// Whether each fact entails the other's at its index.
#[tactic(auto, using(dp_model::specs::Laws::Lists::each_index_drop))]
fn facts_entail(facts: &[Fact; 8], others: &[Fact; 8]) -> bool
    ensures { result ≡ at_each_index entails_fact facts.now others.now }
{
    for i in 0..8 {
        if !fact_entails(facts[i], others[i]) {
            return false;
        }
    }
    true
}

/// Whether each bound is at most the other's at its index.
#[tactic(auto, using(dp_model::specs::Laws::Lists::each_index_drop))]
fn bounds_entail(bounds: &[u64; 8], others: &[u64; 8]) -> bool
    ensures { result ≡ at_each_index nat_le bounds.now others.now }
{
    for i in 0..8 {
        if bounds[i] > others[i] {
            return false;
        }
    }
    true
}

/// Whether the group has the same registers in both.
#[tactic(auto, using(dp_model::specs::Laws::Lists::each_index_drop))]
pub(crate) fn same_registers(facts: &[Fact; 8], others: &[Fact; 8], group: u8) -> bool
    ensures { result ≡ same_registers facts.now others.now group }
{
    for i in 0..8 {
        if facts[i].is_in(group) != others[i].is_in(group) {
            return false;
        }
    }
    true
}

/// Whether each group of the second row is a group of the same registers in the first.
fn keep_groups(facts: &[Fact; 8], others: &[Fact; 8]) -> bool
    ensures { result ≡ keeps_groups facts.now others.now }
{
    others.iter().all(|other| match other.group() {
        Some(group) => same_registers(facts, others, group),
        None => true,
    })
}

/// Whether a row says all that the other does.
pub fn entails(row: &Row, other: &Row) -> bool
    ensures { result ≡ entails row.now other.now }
{
    row.live
        && other.live
        && facts_entail(&row.facts, &other.facts)
        && keep_groups(&row.facts, &other.facts)
        && bounds_entail(&row.bounds, &other.bounds)
}
