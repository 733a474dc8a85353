//! Writes the record of a packet.
ghost use Rattle.std.specs.Prelude.{◌≡◌, ◌<◌, None};
ghost use Rattle.dp_model.specs.Stores.{IsLive, with_slot};
ghost use Rattle.dp_pcap.specs.declared.format.TheConstants.{NANOS_A_SECOND};
ghost use Rattle.dp_engine.specs.Putting.{PutsRecord};

use dp_mbuf::Mbufs;
use dp_model::Packet as Handle;
use dp_pcap::{PcapError, Sink, Time, Unit, put_bytes, put_head, put_record};

// What a writer returns.
type Put = Result<(), PcapError>;

// Writes a packet segment by segment.
#[inline(always)]
#[tactic(auto, using(std::proofs::lemmas::Grind::common_steps))]
fn put_segments<W: Sink>(mbufs: &Mbufs, packet: Handle, time: Time, unit: Unit, w: &mut W) -> Put
    requires live { IsLive mbufs.now.store packet }
    requires nano { time.nano < NANOS_A_SECOND }
    ensures { PutsRecord W.contents W.is_broken W.calls W.failures unit time mbufs.now.store packet w.old w.new result }
{
    put_head(w, unit, time, mbufs.length(&packet) as usize)?;
    for index in 0..mbufs.segments(&packet) {
        put_bytes(w, mbufs.segment_bytes(&packet, index))?;
    }
    Ok(())
}

// Writes the record of a packet. If it has one segment, the bytes of that are the record's.
fn put_packet<W: Sink>(mbufs: &Mbufs, packet: Handle, time: Time, unit: Unit, w: &mut W) -> Put
    requires live { IsLive mbufs.now.store packet }
    requires nano { time.nano < NANOS_A_SECOND }
    ensures { PutsRecord W.contents W.is_broken W.calls W.failures unit time mbufs.now.store packet w.old w.new result }
{
    if mbufs.segments(&packet) != 1 {
        return put_segments(mbufs, packet, time, unit, w);
    }
    put_record(w, unit, time, mbufs.segment_bytes(&packet, 0))
}

// Writes the record of any packet, and frees it.
#[inline(never)]
fn put_shared<W: Sink>(mbufs: &mut Mbufs, packet: Handle, time: Time, unit: Unit, w: &mut W) -> Put
    requires live { IsLive mbufs.old.store packet }
    requires nano { time.nano < NANOS_A_SECOND }
    ensures puts { PutsRecord W.contents W.is_broken W.calls W.failures unit time mbufs.old.store packet w.old w.new result }
    ensures freed { mbufs.new.store ≡ with_slot packet None mbufs.old.store }
    ensures zones { mbufs.new.zones ≡ mbufs.old.zones }
{
    let outcome = put_packet(mbufs, packet, time, unit, w);
    mbufs.free(packet);
    outcome
}

// Writes the record of a packet, and frees it. Most packets are one segment in a buffer of their own, whose header is then read once.
#[inline(always)]
pub(crate) fn put_and_free<W: Sink>(
    mbufs: &mut Mbufs,
    packet: Handle,
    time: Time,
    unit: Unit,
    w: &mut W,
) -> Put
    requires live { IsLive mbufs.old.store packet }
    requires nano { time.nano < NANOS_A_SECOND }
    ensures puts { PutsRecord W.contents W.is_broken W.calls W.failures unit time mbufs.old.store packet w.old w.new result }
    ensures freed { mbufs.new.store ≡ with_slot packet None mbufs.old.store }
    ensures zones { mbufs.new.zones ≡ mbufs.old.zones }
{
    let Some(bytes) = mbufs.sole_bytes(&packet) else {
        return put_shared(mbufs, packet, time, unit, w);
    };
    let outcome = put_record(w, unit, time, bytes);
    mbufs.free_sole(packet);
    outcome
}
