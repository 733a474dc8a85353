//! How often readers are called, and what their buffers hold.

use super::cases::{Case, all_hold, must};
use super::writing::Taker;
use super::{Buffer, ROOM, body, copied, edited, hundred, next, three_records};
use dp_pcap::{
    FailingFeed, Feed, Next, OfBufReader, OfRead, OfWrite, PcapError, Source, Time, pass_record,
    read_header, record_at_hand,
};
use std::alloc::Global;
use std::io;
use std::io::{BufReader, ErrorKind, Read};

/// A reader that gives at most `most` bytes in a call, then ends or fails, and counts the calls.
#[derive(Drop)]
struct Sipped<'b> {
    left: &'b [u8],
    most: usize,
    fails: Option<ErrorKind>,
    count: usize,
}

impl<'b> Sipped<'b> {
    // A reader that gives all that it is asked for.
    fn whole(left: &'b [u8]) -> Sipped<'b> {
        Sipped {
            left,
            most: 1000,
            fails: None,
            count: 0,
        }
    }
}

impl Read for Sipped<'_> {
    fn read(&mut self, buf: &mut [u8]) -> io::Result<usize> {
        self.count = self.count.wrapping_add(1);
        if let (Some(kind), true) = (self.fails, self.left.is_empty()) {
            return Err(kind.into());
        }
        let room = buf.len().min(self.most);
        match buf.get_mut(..room) {
            Some(place) => self.left.read(place),
            None => Ok(0),
        }
    }
}

/// What reading comes to: how many of the records of `THREE_RECORDS` come, how many of them are at hand, and what comes instead of the next.
#[derive(Clone, Copy)]
struct Walked {
    count: usize,
    at_hand: usize,
    ends: Result<Next, PcapError>,
}

// Reads the next record, and returns whether it was at hand.
fn take<R: Feed>(
    r: &mut R,
    source: &mut Source,
    buf: &mut Buffer,
) -> (bool, Result<Next, PcapError>) {
    let Some(found) = record_at_hand(r, source) else {
        return (false, next(r, source, buf));
    };
    let record = Next::Record(found.time, found.len);
    let bytes = r.held().get(16..).unwrap_or(&[]);
    let bytes = bytes.get(..found.len).unwrap_or(&[]);
    if let Some(place) = buf.get_mut(..bytes.len()) {
        place.copy_from_slice(bytes);
    }
    pass_record(r, source, found);
    (true, Ok(record))
}

// Whether this is a record of `THREE_RECORDS` with these bytes.
fn is_record(taken: Result<Next, PcapError>, bytes: &[u8], buf: &Buffer) -> bool {
    let time = Time { sec: 0, nano: 0 };
    taken == Ok(Next::Record(time, bytes.len())) && buf.as_slice().starts_with(bytes)
}

// Reads the records after the header. None if something comes after the end.
fn walk_on<R: Feed>(r: &mut R, source: Source, buf: &mut Buffer) -> Option<Walked> {
    let mut source = source;
    let (mut count, mut at_hand) = (0usize, 0usize);
    for len in [14usize, 0, 60, 61] {
        let (held, ends) = take(r, &mut source, buf);
        match body().get(..len) {
            Some(bytes) if is_record(ends, bytes, buf) => {}
            _ if next(r, &mut source, buf) == Ok(Next::End) => {
                return Some(Walked {
                    count,
                    at_hand,
                    ends,
                });
            }
            _ => return None,
        }
        count = count.wrapping_add(1);
        at_hand = at_hand.wrapping_add(usize::from(held));
    }
    None
}

fn walk<R: Feed>(r: &mut R) -> Option<Walked> {
    match read_header(r) {
        Ok(source) => walk_on(r, source, &mut [0u8; ROOM]),
        Err(_) => None,
    }
}

/// How much a device holds at the end, and how often its reader was called.
type After = (usize, usize);

// Reads without a buffer.
fn walk_plainly(inner: Sipped<'_>) -> (Option<Walked>, After) {
    let mut r = OfRead::new(inner);
    let walk = walk(&mut r);
    let held = r.held().len();
    (walk, (held, r.into_inner().count))
}

/// A feed over bytes with a buffer of this room.
fn buffered(alloc: Global, room: usize, bytes: &[u8]) -> Option<OfBufReader<&[u8]>> {
    match BufReader::with_capacity(alloc, room, bytes) {
        Ok(inner) => Some(OfBufReader::new(inner)),
        Err(_) => None,
    }
}

// Reads with a buffer of this room; returns how much it holds at the end, too.
fn walk_behind(alloc: Global, room: usize, bytes: &[u8]) -> Option<(Walked, usize)> {
    let mut r = buffered(alloc, room, bytes)?;
    let walk = walk(&mut r)?;
    Some((walk, r.held().len()))
}

/// Bytes of `THREE_RECORDS` that have other values, the room of a buffer, how many records come and how many are at hand in it, how many bytes it
/// holds at the end, and what comes instead of the next record.
struct AtHand(
    &'static [(usize, u8)],
    usize,
    usize,
    usize,
    usize,
    Result<Next, PcapError>,
);

static AT_HAND: [AtHand; 8] = [
    AtHand(&[], 0, 3, 0, 0, Ok(Next::End)),
    AtHand(&[], 16, 3, 0, 0, Ok(Next::End)),
    AtHand(&[], 54, 3, 1, 0, Ok(Next::End)),
    AtHand(&[], 146, 3, 3, 0, Ok(Next::End)),
    AtHand(&[], 200, 3, 3, 0, Ok(Next::End)),
    // A part of a record is not at hand, and neither is one with a bad head.
    AtHand(&[(31, 255)], 256, 0, 0, 106, Err(PcapError::BadTime)),
    AtHand(&[(35, 1)], 256, 0, 0, 106, Err(PcapError::TooLong)),
    AtHand(&[(32, 255)], 256, 0, 0, 0, Ok(Next::Cut(24))),
];

impl Case for AtHand {
    fn holds(&self, alloc: Global) -> bool {
        let bytes = edited(three_records(), self.0);
        match walk_behind(alloc, self.1, &bytes) {
            Some((walk, held)) => {
                walk.count == self.2
                    && walk.at_hand == self.3
                    && held == self.4
                    && walk.ends == self.5
            }
            None => false,
        }
    }
}

// A record at hand is the one that comes next.
#[test]
fn what_is_at_hand_comes_next(rt: HostRuntime) {
    all_hold(&rt, rt.alloc(), &AT_HAND);
}

// What reading from a feed with a buffer comes to that fails after 30 bytes, and how many bytes are left in the buffer.
fn walk_broken(alloc: Global) -> Option<(Walked, usize)> {
    let mut r = FailingFeed::new(buffered(alloc, 256, three_records())?, 30);
    let walk = walk(&mut r)?;
    Some((walk, r.into_inner().held().len()))
}

// A device that is broken has nothing at hand.
#[test]
fn nothing_is_at_hand_in_a_broken_device(rt: HostRuntime) {
    let is_broken = match walk_broken(rt.alloc()) {
        Some((walk, left)) => {
            walk.at_hand == 0 && walk.ends == Err(PcapError::Read) && left == 116
        }
        None => false,
    };
    must(&rt, is_broken, "nothing");
}

/// How many bytes of `THREE_RECORDS` come, how many of them at most in a call, where the record begins in which they end, if they end in one, and
/// the calls of the reader until then. The last call of each row gives nothing.
struct CutOff(usize, usize, Option<u64>, usize);

static CUTS: [CutOff; 18] = [
    // One call for each byte that came, and one more, whatever length the record would have.
    CutOff(25, 1, Some(24), 26),
    CutOff(39, 1, Some(24), 40),
    CutOff(40, 1, Some(24), 41),
    CutOff(53, 1, Some(24), 54),
    CutOff(55, 1, Some(54), 56),
    CutOff(86, 1, Some(70), 87),
    CutOff(145, 1, Some(70), 146),
    // Seven bytes a call: four calls for the header, three for a head.
    CutOff(30, 7, Some(24), 6),
    CutOff(45, 7, Some(24), 9),
    CutOff(100, 7, Some(70), 18),
    // All that it is asked for: a call a piece, and one more in the piece that is cut.
    CutOff(30, 1000, Some(24), 3),
    CutOff(40, 1000, Some(24), 3),
    CutOff(45, 1000, Some(24), 4),
    CutOff(100, 1000, Some(70), 7),
    // The header alone, and one, two and three records: a call for the header, a record's head, and its bytes.
    CutOff(24, 1000, None, 2),
    CutOff(54, 1000, None, 4),
    CutOff(70, 1000, None, 5),
    CutOff(146, 1000, None, 7),
];

impl CutOff {
    // Whether a reader that ends there, or fails, is called as often, and has nothing at hand.
    fn is_called(&self, fails: Option<ErrorKind>, ends: Result<Next, PcapError>) -> bool {
        let mut inner = Sipped::whole(three_records().get(..self.0).unwrap_or(&[]));
        inner.most = self.1;
        inner.fails = fails;
        match walk_plainly(inner) {
            (Some(walk), (held, calls)) => {
                walk.ends == ends && walk.at_hand == 0 && held == 0 && calls == self.3
            }
            (None, _) => false,
        }
    }
}

impl Case for CutOff {
    fn holds(&self, _alloc: Global) -> bool {
        let end = match self.2 {
            Some(byte) => Next::Cut(byte),
            None => Next::End,
        };
        self.is_called(None, Ok(end))
            && self.is_called(Some(ErrorKind::BrokenPipe), Err(PcapError::Read))
    }
}

// A reader that ends or fails is called once for each piece or byte that came, and once more; after that it is not called.
#[test]
fn an_end_takes_one_call_more(rt: HostRuntime) {
    all_hold(&rt, rt.alloc(), &CUTS);
}

// Whether a writer took `THREE_RECORDS`, and was called once for each piece.
fn has_taken_pieces(taker: Taker) -> bool {
    taker.held.as_slice() == three_records()
        && taker.offered.as_slice() == &[24usize, 16, 14, 16, 16, 60][..]
}

// A copy makes a call a piece, and one more of its reader.
#[test]
fn a_copy_makes_a_call_a_piece(rt: HostRuntime) {
    let mut r = OfRead::new(Sipped::whole(three_records()));
    let mut w = OfWrite::new(Taker::new(rt.alloc(), &[], 1000));
    let answer = copied(&mut r, &mut w);
    let has_taken = has_taken_pieces(w.into_inner());
    let holds = has_taken && answer == Ok(None) && r.into_inner().count == 7;
    must(&rt, holds, "a call a piece");
}

// Whether a reader that is interrupted breaks its device, and is called once for two headers in turn.
fn is_called_once() -> bool {
    let mut inner = Sipped::whole(&[]);
    inner.fails = Some(ErrorKind::Interrupted);
    let mut r = OfRead::new(inner);
    let fails = read_header(&mut r).err() == Some(PcapError::Read)
        && read_header(&mut r).err() == Some(PcapError::Read);
    fails && r.into_inner().count == 1
}

// Whether a record of which one byte is missing is read, and the bytes after it in the buffer stay as they were.
fn is_front(r: &mut OfRead<Sipped<'_>>, buf: &mut Buffer) -> bool {
    let Ok(mut source) = read_header(r) else {
        return false;
    };
    let time = Time { sec: 1, nano: 2000 };
    next(r, &mut source, buf) == Ok(Next::Record(time, 60))
        && buf.as_slice().starts_with(body())
        && buf.get(60) == Some(&7u8)
        && r.truncated() == 1
        && next(r, &mut source, buf) == Ok(Next::End)
}

// A record changes only the front of the buffer. A reader that failed is left alone, and one that is given back has what was not read.
#[test]
fn a_reader_gives_what_is_asked(rt: HostRuntime) {
    let bytes = edited(hundred(), &[(36, 61)]);
    let mut r = OfRead::new(Sipped::whole(bytes.get(..100).unwrap_or(&[])));
    let is_front = is_front(&mut r, &mut [7u8; ROOM]);
    let is_so = is_front && r.into_inner().left.is_empty() && is_called_once();
    must(&rt, is_so, "a reader");
}
