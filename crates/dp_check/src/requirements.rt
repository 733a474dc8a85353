//! Tests what an instruction needs, rule by rule, and says what is missing.

ghost use Rattle.std.specs.Prelude.{◌≡◌, ℕ, ◌+◌, ◌<◌, ◌≤◌, true, false, length, IfSome, IfNone, MatchOption, option_to_list, slice_get};
ghost use Rattle.std.specs.List.{list_all};
ghost use Rattle.dp_model.specs.declared.rule.Rule.TheVariants.{J3, J4, J5, J6, J7, J8, J9, J10};
ghost use Rattle.dp_model.specs.Rows.{entails_share, is_empty};
ghost use Rattle.dp_model.specs.Rules.{Question, indices_exist, is_held, uses, targets_fit, bytes_fit, share_fits, segments_fit, may_leave, may_end};
ghost use Rattle.dp_check.specs.Diagnoses.{Is, Says, first_held, measured, measured_at, rule_of, segs_in, share_in, start_of, wanted_of};

use crate::entailing::{fact_entails, share_entails};
use crate::reason::Reason;
use dp_model::{
    Env, Fact, HEAD_SOLE, Instr, LOOSE, MAX_SEGMENTS, Measure, NumberRegister, PacketRegister, Row,
    SOLE, Target, Written,
};

/// The reason, if the environment does not have the pool, the table or the ring that is named.
pub(crate) fn check_index(env: &Env, instr: Instr) -> Option<Reason>
    ensures none { IfNone result (indices_exist env.now instr ≡ true) }
    ensures some { IfSome result (λ reason. (indices_exist env.now instr ≡ false) × (rule_of reason ≡ J3)) }
    ensures says { (question : Question) → question.env ≡ env.now → (label : ℕ) (row : Row) → IfSome result (Says question label instr row) }
{
    match instr {
        Instr::Alloc { pool, .. } | Instr::Clone { pool, .. } => {
            let known = env.pools().len();
            if usize::from(pool) < known {
                None
            } else {
                Some(Reason::NoPool { pool, known })
            }
        }
        Instr::Lookup { table, .. } => {
            let known = env.tables();
            if table < known {
                None
            } else {
                Some(Reason::NoTable { table, known })
            }
        }
        Instr::Enq { ring, .. } => {
            let known = env.rings().len();
            if usize::from(ring) < known {
                None
            } else {
                Some(Reason::NoRing { ring, known })
            }
        }
        _ => None,
    }
}

/// The reason, if a packet register is named and is empty.
fn check_register(row: &Row, named: Option<PacketRegister>) -> Option<Reason>
    ensures { MatchOption result (list_all (is_held row.now) (option_to_list named) ≡ true)
        (λ reason. Is named (λ packet. (is_held row.now packet ≡ false) × (reason ≡ Reason.NotHeld packet))) }
{
    let packet = named?;
    match row.fact(packet) {
        Fact::Held { .. } => None,
        Fact::Empty => Some(Reason::NotHeld { packet }),
    }
}

/// The reason, if a packet register that is used is empty: the first is named.
pub(crate) fn check_held(row: &Row, instr: Instr) -> Option<Reason>
    ensures none { IfNone result (list_all (is_held row.now) (uses instr) ≡ true) }
    ensures some { IfSome result (λ reason. (list_all (is_held row.now) (uses instr) ≡ false) × (rule_of reason ≡ J4)) }
    ensures says { (question : Question) (label : ℕ) → IfSome result (Says question label instr row.now) }
{
    let needs = instr.needs();
    match check_register(row, needs.packet) {
        Some(reason) => Some(reason),
        None => check_register(row, needs.other),
    }
}

/// The reason, if a target is not empty or a register is chained to itself.
pub(crate) fn check_target(row: &Row, instr: Instr) -> Option<Reason>
    ensures none { IfNone result (targets_fit row.now instr ≡ true) }
    ensures some { IfSome result (λ reason. (targets_fit row.now instr ≡ false) × (rule_of reason ≡ J5)) }
    ensures says { (question : Question) (label : ℕ) → IfSome result (Says question label instr row.now) }
{
    let needs = instr.needs();
    match needs.target? {
        Target::Vacant(packet) => {
            let known = row.fact(packet);
            if known.is_empty() {
                None
            } else {
                Some(Reason::NotEmpty { packet, known })
            }
        }
        Target::Distinct(packet, other) => {
            if packet.number() == other.number() {
                Some(Reason::OneRegister { packet })
            } else {
                None
            }
        }
    }
}

/// What a fact says of a measure, in bytes.
fn measured(part: Measure, fact: Fact) -> u16
    ensures { result ≡ measured part fact }
{
    match fact {
        Fact::Empty => 0,
        Fact::Held {
            head,
            tail,
            first,
            last,
            ..
        } => match part {
            Measure::Headroom => head,
            Measure::Tailroom => tail,
            Measure::First => first,
            Measure::Last => last,
        },
    }
}

/// The reason, if a measure of a packet is too small.
fn check_measure(
    row: &Row,
    packet: PacketRegister,
    part: Measure,
    start: u64,
    count: u32,
) -> Option<Reason>
    ensures { MatchOption result (start + count ≤ measured_at row.now packet part)
        (λ reason. (measured_at row.now packet part < start + count) × (reason ≡ Reason.TooLittle packet part (measured_at row.now packet part) start count)) }
{
    let known = measured(part, row.fact(packet));
    if start <= u64::from(known) && start + u64::from(count) <= u64::from(known) {
        return None;
    }
    Some(Reason::TooLittle {
        packet,
        part,
        known,
        start,
        count,
    })
}

/// The greatest value of an index, if there is one.
fn start_of(row: &Row, index: Option<NumberRegister>) -> u64
    ensures { result ≡ start_of row.now index }
{
    match index {
        Some(index) => row.bound_of(index),
        None => 0,
    }
}

/// The reason, if bytes or room that the instruction takes are not there.
pub(crate) fn check_bytes(row: &Row, instr: Instr) -> Option<Reason>
    requires held { list_all (is_held row.now) (uses instr) ≡ true }
    ensures none { IfNone result (bytes_fit row.now instr ≡ true) }
    ensures some { IfSome result (λ reason. (bytes_fit row.now instr ≡ false) × (rule_of reason ≡ J6)) }
    ensures says { (question : Question) (label : ℕ) → IfSome result (Says question label instr row.now) }
{
    let needs = instr.needs();
    let bytes = needs.bytes?;
    let packet = needs.packet?;
    let start = start_of(row, bytes.index);
    check_measure(row, packet, bytes.part, start, bytes.count)
}

/// The maximum number of segments that a fact lets the packet have.
fn segs_in(fact: Fact) -> u8
    ensures { result ≡ segs_in fact }
{
    match fact {
        Fact::Held { segs, .. } => segs,
        Fact::Empty => 0,
    }
}

/// The share in a fact.
fn share_in(fact: Fact) -> u8
    ensures { result ≡ share_in fact }
{
    match fact {
        Fact::Held { share, .. } => share,
        Fact::Empty => LOOSE,
    }
}

/// The reason, if a packet that is written has a smaller share than wanted.
fn check_alone(packet: PacketRegister, known: Fact, wanted: u8) -> Option<Reason>
    ensures { MatchOption result (entails_share (share_in known) wanted ≡ true)
        (λ reason. (entails_share (share_in known) wanted ≡ false) × (reason ≡ Reason.NotAlone packet known wanted)) }
{
    if share_entails(share_in(known), wanted) {
        return None;
    }
    Some(Reason::NotAlone {
        packet,
        known,
        wanted,
    })
}

/// The share that is wanted of a packet with this part written.
fn wanted_of(part: Written, known: Fact) -> u8
    ensures { result ≡ wanted_of part (segs_in known) }
{
    match part {
        Written::Head => HEAD_SOLE,
        Written::Tail => if segs_in(known) == 1 { HEAD_SOLE } else { SOLE },
    }
}

/// The reason, if a packet that is written may be shared.
pub(crate) fn check_share(row: &Row, instr: Instr) -> Option<Reason>
    requires held { list_all (is_held row.now) (uses instr) ≡ true }
    ensures none { IfNone result (share_fits row.now instr ≡ true) }
    ensures some { IfSome result (λ reason. (share_fits row.now instr ≡ false) × (rule_of reason ≡ J7)) }
    ensures says { (question : Question) (label : ℕ) → IfSome result (Says question label instr row.now) }
{
    let needs = instr.needs();
    let part = needs.written?;
    let packet = needs.packet?;
    let known = row.fact(packet);
    check_alone(packet, known, wanted_of(part, known))
}

/// The reason, if two packets can have too many segments together.
pub(crate) fn check_segments(row: &Row, instr: Instr) -> Option<Reason>
    requires held { list_all (is_held row.now) (uses instr) ≡ true }
    ensures none { IfNone result (segments_fit row.now instr ≡ true) }
    ensures some { IfSome result (λ reason. (segments_fit row.now instr ≡ false) × (rule_of reason ≡ J8)) }
    ensures says { (question : Question) (label : ℕ) → IfSome result (Says question label instr row.now) }
{
    match instr {
        Instr::Chain { front, back } => {
            let known = segs_in(row.fact(front));
            let more = segs_in(row.fact(back));
            if u16::from(known) + u16::from(more) <= u16::from(MAX_SEGMENTS) {
                return None;
            }
            Some(Reason::TooLong {
                front,
                back,
                known,
                more,
            })
        }
        _ => None,
    }
}

/// The reason, if the port does not exist or the ring declares more than is known.
pub(crate) fn check_destination(env: &Env, row: &Row, instr: Instr) -> Option<Reason>
    requires places { indices_exist env.now instr ≡ true }
    ensures none { IfNone result (may_leave env.now row.now instr ≡ true) }
    ensures some { IfSome result (λ reason. (may_leave env.now row.now instr ≡ false) × (rule_of reason ≡ J9)) }
    ensures says { (question : Question) → question.env ≡ env.now → (label : ℕ) → IfSome result (Says question label instr row.now) }
{
    match instr {
        Instr::Tx { port, .. } => {
            let known = row.bound_of(port);
            let ports = env.ports().len();
            if known < ports as u64 {
                return None;
            }
            Some(Reason::NoPort {
                register: port,
                known,
                ports,
            })
        }
        Instr::Enq { packet, ring, .. } => {
            let known = row.fact(packet);
            let wanted = env.rings()[usize::from(ring)].fact;
            if fact_entails(known, wanted) {
                return None;
            }
            Some(Reason::LessThanRing {
                packet,
                ring,
                known,
                wanted,
            })
        }
        _ => None,
    }
}

/// The first register that holds a packet.
#[tactic(auto, using(crate::proofs::GapLemmas::all_drop, crate::proofs::GapLemmas::found_drop))]
fn first_held(facts: &[Fact; 8]) -> Option<PacketRegister>
    ensures first { result ≡ first_held facts.now }
    ensures none { IfNone result (list_all is_empty facts.now ≡ true) }
    ensures some { IfSome result (λ p. list_all is_empty facts.now ≡ false) }
    ensures held { IfSome result (λ p. Is (slice_get facts.now p) (λ fact. is_empty fact ≡ false)) }
{
    for i in 0..8 {
        if !facts[i].is_empty() {
            return Some(PacketRegister::new(i as u8));
        }
    }
    None
}

/// The reason, if a packet is held at the exit.
pub(crate) fn check_end(row: &Row, instr: Instr) -> Option<Reason>
    ensures none { IfNone result (may_end row.now instr ≡ true) }
    ensures some { IfSome result (λ reason. (may_end row.now instr ≡ false) × (rule_of reason ≡ J10)) }
    ensures says { (question : Question) (label : ℕ) → IfSome result (Says question label instr row.now) }
{
    match instr {
        Instr::Exit => {
            let packet = first_held(&row.facts)?;
            Some(Reason::LeftOver {
                packet,
                known: row.fact(packet),
            })
        }
        _ => None,
    }
}
