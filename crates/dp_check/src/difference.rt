//! Finds the first difference between a row and one that it should entail.

ghost use Rattle.std.specs.Prelude.{◌≡◌, ◌<◌, true, false, Some, nat_le, slice_get, IfSome, IfNone};
ghost use Rattle.std.proofs.Math.Bool.{beq};
ghost use Rattle.dp_model.specs.Groups.{at_each_index, group_of, is_in, keeps_groups, same_registers};
ghost use Rattle.dp_model.specs.Rows.{entails, entails_fact};
ghost use Rattle.dp_check.specs.Diagnoses.{Is, IsGap, first_weaker, first_outside, first_greater, first_regrouped, is_kept};

use crate::entailing::fact_entails;
use crate::reason::Gap;
use dp_model::{Fact, NumberRegister, PacketRegister, Row};

/// The first register whose fact does not entail the wanted one.
#[tactic(auto, using(dp_model::specs::Laws::Lists::each_index_drop, crate::proofs::GapLemmas::failing_drop))]
fn fact_gap(facts: &[Fact; 8], others: &[Fact; 8]) -> Option<PacketRegister>
    ensures first { result ≡ first_weaker facts.now others.now }
    ensures none { IfNone result (at_each_index entails_fact facts.now others.now ≡ true) }
    ensures some { IfSome result (λ p. Is (slice_get facts.now p) (λ known. Is (slice_get others.now p) (λ wanted. entails_fact known wanted ≡ false))) }
{
    for i in 0..8 {
        if !fact_entails(facts[i], others[i]) {
            return Some(PacketRegister::new(i as u8));
        }
    }
    None
}

/// The first register that belongs to the group in one of the two rows only.
#[tactic(auto, using(dp_model::specs::Laws::Lists::each_index_drop, crate::proofs::GapLemmas::failing_drop))]
fn member_gap(facts: &[Fact; 8], others: &[Fact; 8], group: u8) -> Option<PacketRegister>
    ensures first { result ≡ first_outside group facts.now others.now }
    ensures none { IfNone result (same_registers facts.now others.now group ≡ true) }
    ensures differ { IfSome result (λ p. same_registers facts.now others.now group ≡ false) }
    ensures some { IfSome result (λ p. Is (slice_get facts.now p) (λ known.
        Is (slice_get others.now p) (λ wanted. beq (is_in group known) (is_in group wanted) ≡ false))) }
{
    for i in 0..8 {
        if facts[i].is_in(group) != others[i].is_in(group) {
            return Some(PacketRegister::new(i as u8));
        }
    }
    None
}

/// The first number whose bound is greater than the wanted one.
#[tactic(auto, using(dp_model::specs::Laws::Lists::each_index_drop, crate::proofs::GapLemmas::failing_drop))]
fn bound_gap(bounds: &[u64; 8], others: &[u64; 8]) -> Option<NumberRegister>
    ensures first { result ≡ first_greater bounds.now others.now }
    ensures none { IfNone result (at_each_index nat_le bounds.now others.now ≡ true) }
    ensures some { IfSome result (λ r. Is (slice_get bounds.now r) (λ known. Is (slice_get others.now r) (λ wanted. wanted < known))) }
{
    for i in 0..8 {
        if bounds[i] > others[i] {
            return Some(NumberRegister::new(i as u8));
        }
    }
    None
}

/// A group that has other registers in the known facts than in the wanted ones, and a register that belongs to it in one of the two only.
#[derive(Clone, Copy)]
struct GroupGap {
    group: u8,
    packet: PacketRegister,
}

/// The group of a register, with the first register that belongs to it in one of the two rows only, if there is one.
fn group_of_gap(facts: &[Fact; 8], others: &[Fact; 8], member: usize) -> Option<GroupGap>
    requires { member < 8 }
    ensures none { IfNone result (Is (slice_get others.now member) (λ other. is_kept facts.now others.now other ≡ true)) }
    ensures group { IfSome result (λ found. Is (slice_get others.now member)
        (λ other. (is_kept facts.now others.now other ≡ false) × (group_of other ≡ Some found.group))) }
    ensures first { IfSome result (λ found. first_outside found.group facts.now others.now ≡ Some found.packet) }
    ensures some { IfSome result (λ found. Is (slice_get facts.now found.packet)
        (λ known. Is (slice_get others.now found.packet) (λ wanted. beq (is_in found.group known) (is_in found.group wanted) ≡ false))) }
{
    let group = others[member].group()?;
    let packet = member_gap(facts, others, group)?;
    Some(GroupGap { group, packet })
}

/// The first group of the wanted facts that has other registers in the known ones, and a register in which they differ.
fn groups_gap(facts: &[Fact; 8], others: &[Fact; 8]) -> Option<GroupGap>
    ensures none { IfNone result (keeps_groups facts.now others.now ≡ true) }
    ensures group { IfSome result (λ found. first_regrouped facts.now others.now ≡ Some found.group) }
    ensures first { IfSome result (λ found. first_outside found.group facts.now others.now ≡ Some found.packet) }
    ensures some { IfSome result (λ found. Is (slice_get facts.now found.packet)
        (λ known. Is (slice_get others.now found.packet) (λ wanted. beq (is_in found.group known) (is_in found.group wanted) ≡ false))) }
{
    for member in 0..8 {
        if let Some(found) = group_of_gap(facts, others, member) {
            return Some(found);
        }
    }
    None
}

/// The first thing that `there` wants and `row` does not say.
pub(crate) fn gap(row: &Row, there: &Row) -> Gap
    requires { entails row.now there.now ≡ false }
    ensures { IsGap row.now there.now result }
{
    if !row.live || !there.live {
        return Gap::Dead;
    }
    if let Some(packet) = fact_gap(&row.facts, &there.facts) {
        return Gap::Packet {
            packet,
            known: row.fact(packet),
            wanted: there.fact(packet),
        };
    }
    if let Some(GroupGap { group, packet }) = groups_gap(&row.facts, &there.facts) {
        return Gap::Group {
            group,
            packet,
            known: row.fact(packet),
            wanted: there.fact(packet),
        };
    }
    match bound_gap(&row.bounds, &there.bounds) {
        Some(register) => Gap::Number {
            register,
            known: row.bound_of(register),
            wanted: there.bound_of(register),
        },
        None => unreachable!(),
    }
}
