//! Bursts: the frames of one port, in one call.

ghost use Rattle.std.specs.Prelude.{◌≡◌, ◌+◌, ◌<◌, ◌≤◌, length, map};
ghost use Rattle.std.specs.List.{AllByRecursion};
ghost use Rattle.dp_host.specs.Bursts.{BurstAnswers, FramePassed, beyond, shifted};

use crate::host::{Host, passed};
use crate::numbers::{BurstFrame, Room};
use dp_engine::SentRecord;

// Adds a number of bytes to the offset of each record.
fn shift(records: &mut [SentRecord], before: u64)
    requires { AllByRecursion (λ (r : SentRecord). r.offset + before < 18446744073709551616) records.old }
    ensures { records.new ≡ map (shifted before) records.old }
{
    for k in 0..records.len() {
        records[k].offset += before;
    }
}

// Passes in a frame of a burst, which has filled this much of a batch, into what is left of it; returns how much of that it fills.
fn passed_beyond(
    host: &mut Host,
    port: u32,
    frame: &mut BurstFrame<'_>,
    before: Room,
    records: &mut [SentRecord],
    bytes: &mut [u8],
) -> Room
    requires { before.bytes + length bytes.old < 18446744073709551616 }
    ensures passed { FramePassed host.old.running host.old.missing host.new.running port frame.old frame.new before result
        (record { records = records.old; bytes = bytes.old }) (record { records = records.new; bytes = bytes.new }) }
    ensures rest { beyond result (record { records = records.new; bytes = bytes.new }) ≡ beyond result (record { records = records.old; bytes = bytes.old }) }
    ensures records_fit { result.records ≤ length records.old }
    ensures bytes_fit { result.bytes ≤ length bytes.old }
    ensures missing { host.new.missing ≡ host.old.missing }
    ensures explanation { host.new.explanation ≡ host.old.explanation }
{
    let mut part = Room {
        records: 0,
        bytes: 0,
    };
    frame.first = before.records;
    frame.answer = passed(
        host,
        port,
        frame.time,
        frame.bytes,
        records,
        bytes,
        &mut part,
    );
    frame.records = part.records;
    shift(&mut records[..part.records as usize], before.bytes);
    part
}

/// Passes in the frames of one port, in order, each into what those before it left of the batch.
pub(crate) fn burst(
    host: &mut Host,
    port: u32,
    frames: &mut [BurstFrame<'_>],
    records: &mut [SentRecord],
    bytes: &mut [u8],
    filled: &mut Room,
)
    ensures { BurstAnswers host.old.running host.old.missing host.new.running port frames.old frames.new
        (record { records = records.old; bytes = bytes.old }) (record { records = records.new; bytes = bytes.new }) filled.new
        × (host.new.missing ≡ host.old.missing) × (host.new.explanation ≡ host.old.explanation) }
{
    let mut used = Room {
        records: 0,
        bytes: 0,
    };
    for k in 0..frames.len() {
        let part = passed_beyond(
            host,
            port,
            &mut frames[k],
            used,
            &mut records[used.records as usize..],
            &mut bytes[used.bytes as usize..],
        );
        used = Room {
            records: used.records + part.records,
            bytes: used.bytes + part.bytes,
        };
    }
    *filled = used;
}
