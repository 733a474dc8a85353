//! What writers of captures are offered, and what they hold.

use super::cases::{Case, all_hold, must};
use super::{body, copied, hundred};
use Asked::{Flush, Push, Take};
use Put::{Bytes, Head, Header, OfHundred, Record};
use Taking::{AtMost, Fails, Interrupted};
use dp_pcap::{
    Buffered, FailingSink, MAX_RECORD, NANOS_A_SECOND, OfBufWriter, OfRead, OfWrite, PcapError,
    Sink, Time, Unit, put_bytes, put_head, put_header, put_record,
};
use std::alloc::Global;
use std::io;
use std::io::Write;

/// A call that writes a part of a capture.
enum Put {
    Header,
    /// A record with these bytes.
    Record(Time, &'static [u8]),
    /// The record of `HUNDRED`.
    OfHundred,
    /// The head of a record of this length.
    Head(Time, usize),
    Bytes(&'static [u8]),
}

/// The time of the record of `HUNDRED`, and one that no microsecond spells.
const AT_2000: Time = Time { sec: 1, nano: 2000 };

const AT_2999: Time = Time { sec: 1, nano: 2999 };

fn write_part<W: Sink>(w: &mut W, unit: Unit, step: &Put) -> Result<(), PcapError> {
    match step {
        Header => put_header(w, unit),
        Record(time, bytes) => write_record(w, unit, *time, bytes),
        OfHundred => write_record(w, unit, AT_2000, body()),
        Head(time, len) if time.nano < NANOS_A_SECOND && *len <= MAX_RECORD => {
            put_head(w, unit, *time, *len)
        }
        Bytes(bytes) => put_bytes(w, bytes),
        _ => Err(PcapError::BadTime),
    }
}

fn write_record<W: Sink>(w: &mut W, unit: Unit, time: Time, bytes: &[u8]) -> Result<(), PcapError> {
    if time.nano < NANOS_A_SECOND && bytes.len() <= MAX_RECORD {
        put_record(w, unit, time, bytes)
    } else {
        Err(PcapError::BadTime)
    }
}

// The first call that does not write what it should, or that does not fail where `false` says that the writer fails.
fn differs<W: Sink>(w: &mut W, unit: Unit, steps: &[(Put, bool)]) -> Option<usize> {
    for (k, (step, written)) in steps.iter().enumerate() {
        let wanted = if *written {
            Ok(())
        } else {
            Err(PcapError::Write)
        };
        if write_part(w, unit, step) != wanted {
            return Some(k);
        }
    }
    None
}

/// A record at (1, 2999), at once and in parts.
const TWICE: [(Put, bool); 6] = [
    (Header, true),
    (Record(AT_2999, &[5, 6]), true),
    (Head(AT_2999, 2), true),
    (Bytes(&[5]), true),
    (Bytes(&[]), true),
    (Bytes(&[6]), true),
];

/// Calls, whether each writes what it should, how many bytes the writer takes in each call and in all, and what it holds at the end.
struct Writing(Unit, &'static [(Put, bool)], usize, usize, &'static [u8]);

static WRITTEN: [Writing; 3] = [
    // The fraction is 2 in microseconds, and 2999 in nanoseconds.
    Writing(
        Unit::Micro,
        &TWICE,
        1000,
        1000,
        &[
            0xd4, 0xc3, 0xb2, 0xa1, 2, 0, 4, 0, 0, 0, 0, 0, 0, 0, 0, 0, 0, 0, 4, 0, 1, 0, 0, 0, 1,
            0, 0, 0, 2, 0, 0, 0, 2, 0, 0, 0, 2, 0, 0, 0, 5, 6, 1, 0, 0, 0, 2, 0, 0, 0, 2, 0, 0, 0,
            2, 0, 0, 0, 5, 6,
        ],
    ),
    Writing(
        Unit::Nano,
        &TWICE,
        1000,
        1000,
        &[
            0x4d, 0x3c, 0xb2, 0xa1, 2, 0, 4, 0, 0, 0, 0, 0, 0, 0, 0, 0, 0, 0, 4, 0, 1, 0, 0, 0, 1,
            0, 0, 0, 0xb7, 0x0b, 0, 0, 2, 0, 0, 0, 2, 0, 0, 0, 5, 6, 1, 0, 0, 0, 0xb7, 0x0b, 0, 0,
            2, 0, 0, 0, 2, 0, 0, 0, 5, 6,
        ],
    ),
    // A writer that takes 8 bytes a call and fails its fifth call holds the first 32 bytes.
    Writing(
        Unit::Micro,
        &[
            (Header, true),
            (
                Record(
                    AT_2000,
                    &[
                        9, 9, 9, 9, 9, 9, 9, 9, 9, 9, 9, 9, 9, 9, 9, 9, 9, 9, 9, 9, 9, 9, 9, 9, 9,
                        9, 9, 9, 9, 9, 9, 9, 9, 9, 9, 9, 9, 9, 9, 9, 9, 9, 9, 9, 9, 9,
                    ],
                ),
                false,
            ),
            (Header, false),
        ],
        8,
        32,
        &[
            0xd4, 0xc3, 0xb2, 0xa1, 2, 0, 4, 0, 0, 0, 0, 0, 0, 0, 0, 0, 0, 0, 4, 0, 1, 0, 0, 0, 1,
            0, 0, 0, 2, 0, 0, 0,
        ],
    ),
];

type Failing = FailingSink<OfWrite<Vec<u8>>>;

// A writer that takes `most` bytes a call, at least one, and fails after `left` bytes.
fn failing(alloc: Global, most: usize, left: usize) -> Failing {
    FailingSink::new(OfWrite::new(Vec::new(alloc)), most.max(1), left)
}

// Whether it holds these bytes at the end.
fn has_held(w: Failing, bytes: &[u8]) -> bool {
    w.into_inner().into_inner().as_slice() == bytes
}

impl Case for Writing {
    fn holds(&self, alloc: Global) -> bool {
        let mut w = failing(alloc, self.2, self.3);
        let first = differs(&mut w, self.0, self.1);
        has_held(w, self.4) && first.is_none()
    }
}

#[test]
fn written(rt: HostRuntime) {
    all_hold(&rt, rt.alloc(), &WRITTEN);
}

// Whether a record of 76 bytes fits into the buffer of a writer with room left, and the buffer holds `held` bytes afterwards.
fn fits_as(w: &mut OfBufWriter<Vec<u8>>, fits: bool, held: usize) -> bool {
    let fitted = w.has_room(16, 60);
    let written = write_part(w, Unit::Micro, &OfHundred);
    fitted == fits && written == Ok(()) && w.get_ref().buffer().len() == held && !w.has_room(16, 60)
}

// Whether the record is written out, and there is room for another if there was for it.
fn empties(w: &mut OfBufWriter<Vec<u8>>, fits: bool) -> bool {
    w.flush().is_ok()
        && hundred().get(24..) == Some(w.get_ref().get_ref().as_slice())
        && w.has_room(16, 60) == fits
}

/// A writer with a buffer of this room over a list of bytes.
fn buffered_list(alloc: Global, room: usize) -> Option<OfBufWriter<Vec<u8>>> {
    match Buffered::with_capacity(alloc, room, Vec::new(alloc)) {
        Ok(inner) => Some(OfBufWriter::new(inner)),
        Err(_) => None,
    }
}

// Whether a writer is flushed without an error, and takes a record then.
fn is_flushed(w: &mut OfBufWriter<Vec<u8>>) -> bool {
    w.flush().is_ok() && write_part(w, Unit::Micro, &OfHundred) == Ok(())
}

// Whether it is flushed without an error, and wrote this number of bytes in all.
fn is_empty_after(w: &mut OfBufWriter<Vec<u8>>, bytes: usize) -> bool {
    w.flush().is_ok() && w.get_ref().buffer().is_empty() && w.get_ref().get_ref().len() == bytes
}

/// What is asked of a writer with a buffer.
enum Asked {
    /// To take a record: whether it fits into the buffer, and how many bytes are held afterwards.
    Take(bool, usize),
    /// To take `BODY`: how many of its bytes are taken at once.
    Push(usize),
    /// To write two records, and to be flushed before, between and after them.
    Flush,
}

/// The room of a writer's buffer, and what it is asked.
struct Behind(usize, Asked);

static BEHIND: [Behind; 14] = [
    // A buffer that has room left after the record, one that it fills, and one that is a byte too short.
    Behind(77, Take(true, 76)),
    Behind(76, Take(false, 76)),
    Behind(75, Take(false, 1)),
    // A piece that leaves room in the buffer is taken whole; of a longer one, as much as fills the buffer.
    Behind(1000, Push(60)),
    Behind(61, Push(60)),
    Behind(60, Push(60)),
    Behind(59, Push(59)),
    Behind(1, Push(1)),
    // A sound writer is flushed.
    Behind(0, Flush),
    Behind(16, Flush),
    Behind(75, Flush),
    Behind(76, Flush),
    Behind(77, Flush),
    Behind(200, Flush),
];

fn does(w: &mut OfBufWriter<Vec<u8>>, asked: &Asked) -> bool {
    match asked {
        Take(fits, held) => fits_as(w, *fits, *held) && empties(w, *fits),
        Push(taken) => w.push(body()) == Ok(*taken),
        Flush => is_flushed(w) && is_flushed(w) && is_empty_after(w, 152),
    }
}

impl Case for Behind {
    fn holds(&self, alloc: Global) -> bool {
        match &mut buffered_list(alloc, self.0) {
            Some(w) => does(w, &self.1),
            None => false,
        }
    }
}

// A writer without a buffer has no room.
#[test]
fn what_a_buffer_takes_and_writes(rt: HostRuntime) {
    all_hold(&rt, rt.alloc(), &BEHIND);
    let has_room = OfWrite::new(Vec::new(rt.alloc())).has_room(0, 0);
    must(&rt, !has_room, "no room");
}

/// How many of the bytes that it is offered a writer takes in a call.
pub(super) enum Taking {
    AtMost(usize),
    Fails,
    Interrupted,
}

/// A writer that takes bytes as it is asked to in its first calls, and then at most `most` a call. It has the lengths that it was offered in each
/// call, and what it took, and counts how often it is flushed.
#[derive(Drop)]
pub(super) struct Taker {
    first: &'static [Taking],
    most: usize,
    pub(super) offered: Vec<usize>,
    pub(super) held: Vec<u8>,
    flushes: usize,
}

impl Taker {
    pub(super) fn new(alloc: Global, first: &'static [Taking], most: usize) -> Taker {
        Taker {
            first,
            most,
            offered: Vec::new(alloc),
            held: Vec::new(alloc),
            flushes: 0,
        }
    }

    // How many bytes of a buffer of this length it takes in the next call, or why it fails.
    fn taken(&self, len: usize) -> Result<usize, io::ErrorKind> {
        match self.first.get(self.offered.len()) {
            Some(AtMost(most)) => Ok(len.min(*most)),
            Some(Fails) => Err(io::ErrorKind::BrokenPipe),
            Some(Interrupted) => Err(io::ErrorKind::Interrupted),
            None => Ok(len.min(self.most)),
        }
    }
}

impl Write for Taker {
    fn write(&mut self, buf: &[u8]) -> io::Result<usize> {
        let taken = self.taken(buf.len());
        if self.offered.push(buf.len()).is_err() {
            return Err(io::ErrorKind::OutOfMemory.into());
        }
        match taken {
            Ok(taken) => {
                let front = buf.get(..taken).unwrap_or(&[]);
                if self.held.extend_from_slice(front).is_err() {
                    return Err(io::ErrorKind::OutOfMemory.into());
                }
                Ok(front.len())
            }
            Err(kind) => Err(kind.into()),
        }
    }

    fn flush(&mut self) -> io::Result<()> {
        self.flushes = self.flushes.saturating_add(1);
        Ok(())
    }
}

/// What a writer takes in its first calls, the room of a buffer before it, calls, and the lengths that it is offered.
struct LeftAlone(
    &'static [Taking],
    Option<usize>,
    &'static [(Put, bool)],
    &'static [usize],
);

static LEFT_ALONE: [LeftAlone; 6] = [
    // A writer that takes nothing has failed, and is not called again.
    LeftAlone(
        &[AtMost(10), AtMost(0)],
        None,
        &[(Header, false), (Header, false)],
        &[24, 14],
    ),
    // Neither is one that failed.
    LeftAlone(&[Fails], None, &[(Header, false), (Header, false)], &[24]),
    // With a buffer too, whether it is smaller than a piece or holds some.
    LeftAlone(
        &[Fails],
        Some(0),
        &[
            (Header, false),
            (Header, false),
            (Header, false),
            (Header, false),
            (Header, false),
        ],
        &[24],
    ),
    LeftAlone(
        &[Fails],
        Some(8),
        &[
            (Header, false),
            (Header, false),
            (Header, false),
            (Header, false),
            (Header, false),
        ],
        &[8],
    ),
    LeftAlone(
        &[Fails],
        Some(25),
        &[
            (Header, true),
            (Header, false),
            (Header, false),
            (Header, false),
            (Header, false),
        ],
        &[25],
    ),
    LeftAlone(
        &[Fails],
        Some(60),
        &[
            (Header, true),
            (Header, true),
            (Header, false),
            (Header, false),
            (Header, false),
        ],
        &[60],
    ),
];

// Whether the calls return what they should, and the writer is offered these lengths.
fn is_left_alone(inner: Taker, steps: &[(Put, bool)], offered: &[usize]) -> bool {
    let mut w = OfWrite::new(inner);
    let first = differs(&mut w, Unit::Micro, steps);
    w.into_inner().offered.as_slice() == offered && first.is_none()
}

// The same with a buffer in between.
fn is_left_alone_behind(
    w: &mut OfBufWriter<Taker>,
    steps: &[(Put, bool)],
    offered: &[usize],
) -> bool {
    let first = differs(w, Unit::Micro, steps);
    w.get_ref().get_ref().offered.as_slice() == offered && first.is_none()
}

impl Case for LeftAlone {
    fn holds(&self, alloc: Global) -> bool {
        let inner = Taker::new(alloc, self.0, 1000);
        let Some(room) = self.1 else {
            return is_left_alone(inner, self.2, self.3);
        };
        match Buffered::with_capacity(alloc, room, inner) {
            Ok(inner) => is_left_alone_behind(&mut OfBufWriter::new(inner), self.2, self.3),
            Err(_) => false,
        }
    }
}

#[test]
fn a_failed_writer_is_left_alone(rt: HostRuntime) {
    all_hold(&rt, rt.alloc(), &LEFT_ALONE);
}

// Whether a writer is called once more than it takes pieces of 7 bytes, holds all of `HUNDRED`, and is flushed once.
fn has_all(inner: &Taker) -> bool {
    inner.held.as_slice() == hundred() && inner.offered.len() == 16 && inner.flushes == 1
}

// Whether a buffer holds `HUNDRED`, and writes all of it when it is flushed.
fn is_flushed_whole(w: &mut Buffered<Taker>) -> bool {
    w.write(hundred()).is_ok()
        && w.get_ref().offered.is_empty()
        && w.flush().is_ok()
        && has_all(w.get_ref())
}

// A writer behind a buffer is called again where it was interrupted, and where it took a part, and its flush comes after what the buffer held.
#[test]
fn a_flush_writes_all_and_goes_on(rt: HostRuntime) {
    let inner = Taker::new(rt.alloc(), &[Interrupted], 7);
    let is_whole = match &mut Buffered::with_capacity(rt.alloc(), 101, inner) {
        Ok(w) => is_flushed_whole(w),
        Err(_) => false,
    };
    must(&rt, is_whole, "all is written");
}

// Whether a buffer before a list holds `HUNDRED`, which is written when it is dropped.
fn is_held(alloc: Global, to: &mut Vec<u8>) -> bool {
    match &mut Buffered::with_capacity(alloc, 101, to) {
        Ok(w) => w.write(hundred()).is_ok() && w.get_ref().is_empty(),
        Err(_) => false,
    }
}

// What a buffer holds is written when it is dropped.
#[test]
fn a_dropped_buffer_is_written(rt: HostRuntime) {
    let mut to = Vec::new(rt.alloc());
    let is_held = is_held(rt.alloc(), &mut to);
    must(&rt, is_held && to.as_slice() == hundred(), "what was held");
}

// What is left of these lengths after those that a writer that takes `most` bytes a call is offered of one piece; none if they differ.
fn after_piece(offered: &[usize], most: usize, piece: usize) -> Option<&[usize]> {
    let mut rest = offered;
    for taken in (0..piece).step_by(most.max(1)) {
        let (first, others) = rest.split_first()?;
        if *first != piece.saturating_sub(taken) {
            return None;
        }
        rest = others;
    }
    Some(rest)
}

// Whether these are the lengths for a header, and a record's head and bytes.
fn are_offers(offered: &[usize], most: usize) -> bool {
    let mut rest = offered;
    for piece in [24usize, 16, 60] {
        match after_piece(rest, most, piece) {
            Some(others) => rest = others,
            None => return false,
        }
    }
    rest.is_empty()
}

// Whether a writer took `HUNDRED`, and was offered pieces and then their rests.
fn was_offered_pieces(taker: Taker, most: usize) -> bool {
    taker.held.as_slice() == hundred() && are_offers(taker.offered.as_slice(), most)
}

/// How many bytes a writer takes a call.
struct Most(usize);

impl Case for Most {
    fn holds(&self, alloc: Global) -> bool {
        let mut w = OfWrite::new(Taker::new(alloc, &[], self.0));
        let answer = copied(&mut OfRead::new(hundred()), &mut w);
        was_offered_pieces(w.into_inner(), self.0) && answer == Ok(None)
    }
}

static MOST: [Most; 8] = [
    Most(1),
    Most(7),
    Most(16),
    Most(23),
    Most(24),
    Most(59),
    Most(60),
    Most(1000),
];

// The header, the record's head and its bytes are one piece each: a writer is offered a whole piece, and then the rest of it.
#[test]
fn a_writer_is_offered_a_piece_and_then_its_rest(rt: HostRuntime) {
    all_hold(&rt, rt.alloc(), &MOST);
}
