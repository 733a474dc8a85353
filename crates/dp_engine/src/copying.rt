//! Copies the bytes of a packet.
ghost use Rattle.std.specs.Prelude.{◌≡◌, ◌+◌, ◌≤◌, length};
ghost use Rattle.dp_model.specs.Buffers.{overwritten};
ghost use Rattle.dp_model.specs.Packets.{packet_bytes};
ghost use Rattle.dp_model.specs.Stores.{IsLive, Of};

use dp_mbuf::Mbufs;
use dp_model::Packet as Handle;

// Writes `part` into an array at index `start`.
#[inline(always)]
fn write_at(bytes: &mut [u8], start: usize, part: &[u8])
    requires { start + length part.now ≤ length bytes.old }
    ensures { bytes.new ≡ overwritten bytes.old start part.now }
{
    bytes[start..start + part.len()].copy_from_slice(part);
}

// Copies the bytes of a packet into an array at an offset, segment by segment. Returns their number.
#[inline(always)]
pub(crate) fn copy_packet(mbufs: &Mbufs, packet: Handle, bytes: &mut [u8], from: usize) -> u32
    requires live { IsLive mbufs.now.store packet }
    requires room { Of mbufs.now.store packet (λ k. from + length (packet_bytes mbufs.now.store.buffers k) ≤ length bytes.old) }
    ensures length { Of mbufs.now.store packet (λ k. result ≡ length (packet_bytes mbufs.now.store.buffers k)) }
    ensures copied { Of mbufs.now.store packet (λ k. bytes.new ≡ overwritten bytes.old from (packet_bytes mbufs.now.store.buffers k)) }
    ensures many { length bytes.new ≡ length bytes.old }
{
    // A packet has at most 64 segments.
    mbufs.is_well_formed();
    let mut length = 0u32;
    for index in 0..mbufs.segments(&packet) {
        let part = mbufs.segment_bytes(&packet, index);
        write_at(bytes, from + length as usize, part);
        length += part.len() as u32;
    }
    length
}
