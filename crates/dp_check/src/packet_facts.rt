//! The fact of the packet in a register, and how an instruction on one packet changes it.

ghost use Rattle.std.specs.Prelude.{◌≡◌, ◌≤◌, IsTrue};
ghost use Rattle.std.specs.List.{list_all};
ghost use Rattle.dp_model.specs.Facts.{is_fact_of_row};
ghost use Rattle.dp_model.specs.Limits.{max_segments};
ghost use Rattle.dp_model.specs.Rows.{held, held_at, with_fact, emptied, changed, after_prepend, after_adj, after_append, after_trim};
ghost use Rattle.dp_model.specs.Rows.{shared, owns_head, chained_share, after_chain, chained, after_alloc};
ghost use Rattle.dp_check.specs.Leads.{raised};

use dp_model::{
    DEFAULT_HEADROOM, Fact, HEAD_SOLE, Holding, LOOSE, Measure, PacketRegister, Row, SOLE,
};

/// What a row says of the packet in a register, if there is one.
pub(crate) fn held_at(row: &Row, packet: PacketRegister) -> Option<Holding>
    ensures { result ≡ held_at row.now packet }
{
    row.fact(packet).holding()
}

/// The row with the register's fact replaced.
fn with_fact(row: &Row, packet: PacketRegister, fact: Fact) -> Row
    ensures { result ≡ with_fact row.now packet fact }
{
    let mut changed = *row;
    changed.facts[usize::from(packet.number())] = fact;
    changed
}

/// The row with these facts of the register's packet.
pub(crate) fn with_held(row: &Row, packet: PacketRegister, holding: Holding) -> Row
    ensures { result ≡ with_fact row.now packet (held holding) }
{
    with_fact(row, packet, Fact::from(holding))
}

/// The row with the register empty.
pub(crate) fn emptied(row: &Row, packet: PacketRegister) -> Row
    ensures { result ≡ emptied row.now packet }
{
    with_fact(row, packet, Fact::Empty)
}

/// The fact after `prepend packet, count`.
pub(crate) fn prepended(row: &Row, packet: PacketRegister, count: u16) -> Row
    ensures { result ≡ changed row.now packet (after_prepend count) }
{
    let Some(h) = held_at(row, packet) else {
        return *row;
    };
    let after = Holding {
        head: h.head.saturating_sub(count),
        first: h.first.saturating_add(count),
        last: h.last.saturating_add(if h.segs == 1 { count } else { 0 }),
        ..h
    };
    with_held(row, packet, after)
}

/// The fact after `adj packet, count`.
pub(crate) fn cut_in_front(row: &Row, packet: PacketRegister, count: u16) -> Row
    ensures { result ≡ changed row.now packet (after_adj count) }
{
    let Some(h) = held_at(row, packet) else {
        return *row;
    };
    let after = Holding {
        head: h.head.saturating_add(count),
        first: h.first.saturating_sub(count),
        last: h.last.saturating_sub(count),
        ..h
    };
    with_held(row, packet, after)
}

/// The fact after `append packet, count`.
pub(crate) fn appended(row: &Row, packet: PacketRegister, count: u16) -> Row
    ensures { result ≡ changed row.now packet (after_append count) }
{
    let Some(h) = held_at(row, packet) else {
        return *row;
    };
    let after = Holding {
        tail: h.tail.saturating_sub(count),
        first: h.first.saturating_add(if h.segs == 1 { count } else { 0 }),
        last: h.last.saturating_add(count),
        ..h
    };
    with_held(row, packet, after)
}

/// The fact after `trim packet, count`.
pub(crate) fn cut_after(row: &Row, packet: PacketRegister, count: u16) -> Row
    ensures { result ≡ changed row.now packet (after_trim count) }
{
    let Some(h) = held_at(row, packet) else {
        return *row;
    };
    let after = Holding {
        tail: h.tail.saturating_add(count),
        first: h.first.saturating_sub(count),
        last: h.last.saturating_sub(count),
        ..h
    };
    with_held(row, packet, after)
}

/// The facts of a packet, with a measure raised to at least `least`.
fn raised(h: Holding, part: Measure, least: u16) -> Holding
    ensures { result ≡ raised part least h }
{
    match part {
        Measure::Headroom => Holding {
            head: h.head.max(least),
            ..h
        },
        Measure::Tailroom => Holding {
            tail: h.tail.max(least),
            ..h
        },
        Measure::First => Holding {
            first: h.first.max(least),
            ..h
        },
        Measure::Last => Holding {
            last: h.last.max(least),
            ..h
        },
    }
}

/// The row after a test that a measure of the register's packet is at least `least`.
pub(crate) fn with_least(row: &Row, packet: PacketRegister, part: Measure, least: u16) -> Row
    ensures { result ≡ changed row.now packet (raised part least) }
{
    let Some(h) = held_at(row, packet) else {
        return *row;
    };
    with_held(row, packet, raised(h, part, least))
}

/// The row with another share of the register's packet.
pub(crate) fn with_share(row: &Row, packet: PacketRegister, share: u8) -> Row
    ensures { result ≡ changed row.now packet (shared share) }
{
    let Some(h) = held_at(row, packet) else {
        return *row;
    };
    with_held(row, packet, Holding { share, ..h })
}

/// The row with a new packet in the register, of a pool with this data room.
pub(crate) fn allocated(row: &Row, packet: PacketRegister, room: u16) -> Row
    ensures { result ≡ with_fact row.now packet (after_alloc room) }
{
    let head = room.min(DEFAULT_HEADROOM);
    let new = Holding {
        share: SOLE,
        head,
        tail: room - head,
        first: 0,
        last: 0,
        segs: 1,
    };
    with_held(row, packet, new)
}

/// Whether the first segment's buffer has one reference.
pub fn owns_head(share: u8) -> bool
    ensures { result ≡ owns_head share }
{
    share == HEAD_SOLE || share == SOLE
}

/// The share of two chained packets.
fn chained_share(front: u8, back: u8) -> u8
    ensures { result ≡ chained_share front back }
{
    if front == SOLE && back == SOLE {
        SOLE
    } else if owns_head(front) {
        HEAD_SOLE
    } else {
        LOOSE
    }
}

/// The row with these segments appended to those of the register's packet.
#[tactic(auto, using(crate::proofs::RowLemmas::few_segs))]
fn with_after(row: &Row, packet: PacketRegister, beyond: Holding) -> Row
    requires in_range { IsTrue (list_all is_fact_of_row row.now.facts) }
    requires few { beyond.segs ≤ max_segments }
    ensures { result ≡ changed row.now packet (λ h. after_chain h beyond) }
{
    let Some(h) = held_at(row, packet) else {
        return *row;
    };
    let after = Holding {
        share: chained_share(h.share, beyond.share),
        tail: beyond.tail,
        last: beyond.last,
        segs: h.segs + beyond.segs,
        ..h
    };
    with_held(row, packet, after)
}

/// The row after the second packet's segments are appended to the first's, if neither belongs to a group.
#[tactic(auto, using(crate::proofs::RowLemmas::few_segs))]
pub(crate) fn joined(row: &Row, front: PacketRegister, back: PacketRegister) -> Row
    requires { IsTrue (list_all is_fact_of_row row.now.facts) }
    ensures { result ≡ chained row.now front back }
{
    let Some(beyond) = held_at(row, back) else {
        return *row;
    };
    emptied(&with_after(row, front, beyond), back)
}
