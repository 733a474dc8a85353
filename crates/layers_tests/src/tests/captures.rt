//! Devices of captures that a caller writes: what they are asked for, and what comes of it. What captures are read as, and what is written of them,
//! is in tests/program/copies.py.

mod devices;
mod writing;

use super::cases;
use crate::copies::copy;
use dp_pcap::{Feed, Next, PcapError, Sink, Source, next_record};

/// The bytes of the record in `HUNDRED`.
const BODY: [u8; 60] = [
    0, 1, 2, 3, 4, 5, 6, 7, 8, 9, 10, 11, 12, 13, 14, 15, 16, 17, 18, 19, 20, 21, 22, 23, 24, 25,
    26, 27, 28, 29, 30, 31, 32, 33, 34, 35, 36, 37, 38, 39, 40, 41, 42, 43, 44, 45, 46, 47, 48, 49,
    50, 51, 52, 53, 54, 55, 56, 57, 58, 59,
];

/// A capture of 100 bytes: one record of 60 bytes at second 1, microsecond 2.
const HUNDRED: [u8; 100] = [
    212, 195, 178, 161, 2, 0, 4, 0, 0, 0, 0, 0, 0, 0, 0, 0, 0, 0, 4, 0, 1, 0, 0, 0, 1, 0, 0, 0, 2,
    0, 0, 0, 60, 0, 0, 0, 60, 0, 0, 0, 0, 1, 2, 3, 4, 5, 6, 7, 8, 9, 10, 11, 12, 13, 14, 15, 16,
    17, 18, 19, 20, 21, 22, 23, 24, 25, 26, 27, 28, 29, 30, 31, 32, 33, 34, 35, 36, 37, 38, 39, 40,
    41, 42, 43, 44, 45, 46, 47, 48, 49, 50, 51, 52, 53, 54, 55, 56, 57, 58, 59,
];

/// A capture of 146 bytes: records of 14, 0 and 60 bytes at second 0, in nanoseconds.
const THREE_RECORDS: [u8; 146] = [
    77, 60, 178, 161, 2, 0, 4, 0, 0, 0, 0, 0, 0, 0, 0, 0, 0, 0, 4, 0, 1, 0, 0, 0, 0, 0, 0, 0, 0, 0,
    0, 0, 14, 0, 0, 0, 14, 0, 0, 0, 0, 1, 2, 3, 4, 5, 6, 7, 8, 9, 10, 11, 12, 13, 0, 0, 0, 0, 0, 0,
    0, 0, 0, 0, 0, 0, 0, 0, 0, 0, 0, 0, 0, 0, 0, 0, 0, 0, 60, 0, 0, 0, 60, 0, 0, 0, 0, 1, 2, 3, 4,
    5, 6, 7, 8, 9, 10, 11, 12, 13, 14, 15, 16, 17, 18, 19, 20, 21, 22, 23, 24, 25, 26, 27, 28, 29,
    30, 31, 32, 33, 34, 35, 36, 37, 38, 39, 40, 41, 42, 43, 44, 45, 46, 47, 48, 49, 50, 51, 52, 53,
    54, 55, 56, 57, 58, 59,
];

/// The most bytes of a record, as a buffer has to hold.
const ROOM: usize = 262_144;

/// Room for a record.
type Buffer = [u8; ROOM];

// The bytes, with other values at some offsets. There are at most 146; zeros follow.
fn edited(bytes: &[u8], edits: &[(usize, u8)]) -> [u8; 146] {
    let mut all = [0; 146];
    if let Some(front) = all.get_mut(..bytes.len()) {
        front.copy_from_slice(bytes);
    }
    for (at, byte) in edits {
        if let Some(place) = all.get_mut(*at) {
            *place = *byte;
        }
    }
    all
}

// Reads the next record.
fn next<R: Feed>(r: &mut R, source: &mut Source, buf: &mut Buffer) -> Result<Next, PcapError> {
    next_record(r, source, buf.as_mut_slice())
}

// Copies a capture, with room for a record.
fn copied<R: Feed, W: Sink>(r: &mut R, w: &mut W) -> Result<Option<u64>, PcapError> {
    copy(r, w, &mut [0u8; ROOM])
}

// The constants are read by these functions alone, since each function that reads one spells it out.
fn hundred() -> &'static [u8] {
    &HUNDRED
}

fn three_records() -> &'static [u8] {
    &THREE_RECORDS
}

fn body() -> &'static [u8] {
    &BODY
}
