//! Why a program is refused, as members of a document: tools/views has the names of its numbers, and the words.

use dp_check::{Gap, Measure, Reason};
use dp_console::{Document, Item};
use dp_model::{Fact, PacketRegister};

/// A reason: its name, its numbers in the order in which tools/views names them, and what is known and wanted of a packet.
#[derive(Clone, Copy)]
struct Case {
    name: &'static str,
    numbers: [u64; 5],
    known: Fact,
    wanted: Fact,
}

/// A reason of numbers alone.
fn of_numbers(name: &'static str, numbers: [u64; 5]) -> Case {
    let (known, wanted) = (Fact::Empty, Fact::Empty);
    Case {
        name,
        numbers,
        known,
        wanted,
    }
}

/// A reason of what is known and wanted of a packet, and of another number.
fn of_packet(
    name: &'static str,
    packet: PacketRegister,
    other: u64,
    known: Fact,
    wanted: Fact,
) -> Case {
    let numbers = [u64::from(packet.number()), other, 0, 0, 0];
    Case {
        name,
        numbers,
        known,
        wanted,
    }
}

/// The number of a room or a length.
fn part_number(part: Measure) -> u64 {
    match part {
        Measure::Headroom => 0,
        Measure::Tailroom => 1,
        Measure::First => 2,
        Measure::Last => 3,
    }
}

/// The reason that a row wants more than is known. The row is the first one, or that of a successor.
fn case_of_row(gap: Gap) -> Case {
    match gap {
        Gap::Dead => of_numbers("row_dead", [0; 5]),
        Gap::Packet {
            packet,
            known,
            wanted,
        } => of_packet("row_packet", packet, 0, known, wanted),
        Gap::Group {
            group,
            packet,
            known,
            wanted,
        } => of_packet("row_group", packet, u64::from(group), known, wanted),
        Gap::Number {
            register,
            known,
            wanted,
        } => {
            of_numbers(
                "row_number",
                [u64::from(register.number()), known, wanted, 0, 0],
            )
        }
    }
}

/// A reason as its name, its numbers and what it says of packets.
fn case_of(reason: Reason) -> Case {
    match reason {
        Reason::RowCount { known, wanted } => of_numbers(
            "row_count",
            [known as u64, wanted as u64, 0, 0, 0],
        ),
        Reason::NoEntry => of_numbers("no_entry", [0; 5]),
        Reason::NoPool { pool, known } => of_numbers(
            "no_pool",
            [u64::from(pool), known as u64, 0, 0, 0],
        ),
        Reason::NoTable { table, known } => of_numbers(
            "no_table",
            [u64::from(table), u64::from(known), 0, 0, 0],
        ),
        Reason::NoRing { ring, known } => of_numbers(
            "no_ring",
            [u64::from(ring), known as u64, 0, 0, 0],
        ),
        Reason::NoInstruction { to, known } => of_numbers(
            "no_instruction",
            [u64::from(to), known as u64, 0, 0, 0],
        ),
        Reason::NotHeld { packet } => of_packet("not_held", packet, 0, Fact::Empty, Fact::Empty),
        Reason::NotEmpty { packet, known } => of_packet("not_empty", packet, 0, known, Fact::Empty),
        Reason::OneRegister { packet } => of_packet(
            "one_register",
            packet,
            0,
            Fact::Empty,
            Fact::Empty,
        ),
        Reason::TooLittle {
            packet,
            part,
            known,
            start,
            count,
        } => {
            let numbers = [
                u64::from(packet.number()),
                part_number(part),
                u64::from(known),
                start,
                u64::from(count),
            ];
            of_numbers("too_little", numbers)
        }
        Reason::NotAlone {
            packet,
            known,
            wanted,
        } => of_packet("not_alone", packet, u64::from(wanted), known, Fact::Empty),
        Reason::TooLong {
            front,
            back,
            known,
            more,
        } => {
            let numbers = [
                u64::from(front.number()),
                u64::from(back.number()),
                u64::from(known),
                u64::from(more),
                0,
            ];
            of_numbers("too_long", numbers)
        }
        Reason::NoPort {
            register,
            known,
            ports,
        } => {
            of_numbers(
                "no_port",
                [u64::from(register.number()), known, ports as u64, 0, 0],
            )
        }
        Reason::LessThanRing {
            packet,
            ring,
            known,
            wanted,
        } => of_packet("less_than_ring", packet, u64::from(ring), known, wanted),
        Reason::LeftOver { packet, known } => of_packet("left_over", packet, 0, known, Fact::Empty),
        Reason::EntryRow(gap) | Reason::Successor { gap, .. } => case_of_row(gap),
    }
}

/// Writes what is known of a packet register: nothing, or the parts of what it holds.
fn write_fact(name: &str, fact: Fact, to: &mut Document) {
    let Some(held) = fact.holding() else {
        return to.item(name, Item::Null);
    };
    let (head, tail) = (u64::from(held.head), u64::from(held.tail));
    let (first, last) = (u64::from(held.first), u64::from(held.last));
    let (share, segs) = (u64::from(held.share), u64::from(held.segs));
    to.numbers(name, &[share, head, tail, first, last, segs]);
}

/// Writes why a rule fails.
pub fn write_reason(reason: Reason, to: &mut Document) {
    let case = case_of(reason);
    to.begin_object("reason");
    to.item("case", Item::Text(case.name));
    write_fact("known", case.known, to);
    to.numbers("numbers", &case.numbers);
    if let Reason::Successor { to: next, .. } = &reason {
        to.item("to", Item::Number(u64::from(*next)));
    }
    write_fact("wanted", case.wanted, to);
    to.end_object();
}
