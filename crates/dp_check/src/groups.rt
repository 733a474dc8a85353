//! Sharing groups: how a clone, a free, a send and a chain change them.

ghost use Rattle.std.specs.Prelude.{◌≡◌, ◌&&◌, IsTrue};
ghost use Rattle.dp_model.specs.Groups.{is_group, same_registers, reshared_fact, reshared, share_left};
ghost use Rattle.dp_model.specs.Rows.{is_well_formed_row, group_at, with_shares, dissolved, renamed, after_free, after_leave, after_chained};
ghost use Rattle.dp_model.specs.Rows.{twin, twin_share, joins, after_clone};

use crate::entailing::same_registers;
use crate::packet_facts::{emptied, held_at, joined, with_held, with_share};
use dp_model::{Fact, Holding, LOOSE, PacketRegister, Row, SOLE, share_of_group};

/// Whether the group is one of the first row, named by its least register, and has the same registers in the second row.
pub fn shares_group(row: &Row, other: &Row, group: u8) -> bool
    ensures { result ≡ (is_group row.now.facts group && same_registers row.now.facts other.now.facts group) }
{
    row.is_group(group) && same_registers(&row.facts, &other.facts, group)
}

/// The fact with another share, if its register belongs to the group.
#[tactic(auto, using(crate::proofs::RowLemmas::reshared_in, crate::proofs::RowLemmas::reshared_out, crate::proofs::RowLemmas::reshared_none))]
pub fn reshared(fact: Fact, group: u8, share: u8) -> Fact
    ensures { result ≡ reshared_fact group share fact }
{
    match fact.holding() {
        Some(h) if fact.is_in(group) => Fact::from(Holding { share, ..h }),
        _ => fact,
    }
}

/// The facts with another share for each register of the group.
fn all_reshared(facts: &[Fact; 8], group: u8, share: u8) -> [Fact; 8]
    ensures { result ≡ reshared group share facts.now }
{
    let mut changed = [Fact::Empty; 8];
    for i in 0..8 {
        changed[i] = reshared(facts[i], group, share);
    }
    changed
}

/// The row with another share for each register of the group.
fn with_shares(row: &Row, group: u8, share: u8) -> Row
    ensures { result ≡ with_shares row.now group share }
{
    Row {
        live: row.live,
        facts: all_reshared(&row.facts, group, share),
        bounds: row.bounds,
    }
}

/// The share of the registers that remain of a group.
fn share_left(row: &Row, group: u8) -> u8
    ensures { result ≡ share_left row.now.facts group }
{
    if row.group_size(group) == 1 {
        return SOLE;
    }
    match row.least_of(group) {
        Some(register) => share_of_group(register.number()),
        None => LOOSE,
    }
}

/// The group of a register, if it belongs to one.
fn group_at(row: &Row, packet: PacketRegister) -> Option<u8>
    ensures { result ≡ group_at row.now packet }
{
    row.fact(packet).group()
}

/// The row with all registers of the register's group loose.
fn dissolved(row: &Row, packet: PacketRegister) -> Row
    ensures { result ≡ dissolved row.now packet }
{
    match group_at(row, packet) {
        Some(group) => with_shares(row, group, LOOSE),
        None => *row,
    }
}

/// The row after the registers that remain of a group get its new name, or none.
fn renamed(row: &Row, group: u8) -> Row
    ensures { result ≡ renamed row.now group }
{
    with_shares(row, group, share_left(row, group))
}

/// The row after the register's packet is freed.
pub(crate) fn freed(row: &Row, packet: PacketRegister) -> Row
    ensures { result ≡ after_free row.now packet }
{
    match group_at(row, packet) {
        Some(group) => renamed(&emptied(row, packet), group),
        None => emptied(row, packet),
    }
}

/// The row after the register's packet moves into a list.
pub(crate) fn sent(row: &Row, packet: PacketRegister) -> Row
    ensures { result ≡ after_leave row.now packet }
{
    emptied(&dissolved(row, packet), packet)
}

/// The row after the second packet's segments are appended to the first's, and their groups are dissolved.
#[tactic(auto, using(crate::proofs::RowLemmas::dissolved_fits))]
pub(crate) fn chained(row: &Row, front: PacketRegister, back: PacketRegister) -> Row
    requires { IsTrue (is_well_formed_row row.now) }
    ensures { result ≡ after_chained row.now front back }
{
    let loose = dissolved(&dissolved(row, front), back);
    joined(&loose, front, back)
}

/// The share of an ungrouped packet and of its clone.
fn twin_share(into: PacketRegister, from: PacketRegister, holding: Holding) -> u8
    ensures { result ≡ twin_share into from holding }
{
    if holding.share == SOLE {
        share_of_group(into.number().min(from.number()))
    } else {
        LOOSE
    }
}

/// The row with a clone of a register's packet in another, both with this share.
fn with_twin(
    row: &Row,
    into: PacketRegister,
    from: PacketRegister,
    holding: Holding,
    share: u8,
) -> Row
    ensures { result ≡ twin row.now into from holding share }
{
    with_held(
        &with_share(row, from, share),
        into,
        Holding { share, ..holding },
    )
}

/// The row with a clone of a register's packet in another, which joins the group.
fn with_member(
    row: &Row,
    into: PacketRegister,
    from: PacketRegister,
    holding: Holding,
    group: u8,
) -> Row
    ensures { result ≡ joins row.now into from holding group }
{
    let name = share_of_group(into.number().min(group));
    with_twin(&with_shares(row, group, name), into, from, holding, name)
}

/// The row after a register's packet is cloned into another: the clone joins the group of its source, or makes one with a sole source.
#[tactic(auto, using(crate::proofs::RowLemmas::cloned_is))]
pub(crate) fn cloned(row: &Row, into: PacketRegister, from: PacketRegister) -> Row
    ensures { result ≡ after_clone row.now into from }
{
    let Some(holding) = held_at(row, from) else {
        return *row;
    };
    match group_at(row, from) {
        Some(group) => with_member(row, into, from, holding, group),
        None => with_twin(row, into, from, holding, twin_share(into, from, holding)),
    }
}
