//! Counts the whole records of a capture in the bytes that passed so far.
ghost use Rattle.std.specs.Prelude.{◌≡◌, ◌+◌, ◌<◌, ◌≤◌, ◌^◌, ◌++◌, ℕ, List, length, take, drop};
ghost use Rattle.dp_pcap.specs.declared.byte_order.Order.{Order};
ghost use Rattle.dp_pcap.specs.declared.time.Unit.{Unit as TimeUnit};
ghost use Rattle.dp_pcap.specs.Capture.{captured, IsHeader};
ghost use Rattle.dp_pcap.specs.Counting.{none_yet, none_left, records_in, IsAfter};
ghost use Rattle.dp_pcap.specs.Passing.{StepsBy};

use crate::byte_order::{Order, long_number, short_number};
use crate::format::{CAPTURED_AT, HEAD_SIZE, HEADER_SIZE, MAJOR, MAJOR_AT, MINOR_AT};
use std::marker::Model;

/// Counts the records of a capture that are whole in its first bytes, as these pass in pieces of any size.
#[derive(Drop)]
pub struct WholeRecords {
    // The byte order of its numbers.
    order: Order,
    // The number of whole pieces: the header, and then records.
    pieces: u64,
    // How many bytes of the header, or of a record after its head, are still to come.
    left: usize,
    // The bytes of the next record's head; the first `came` of them have come.
    head: [u8; HEAD_SIZE],
    came: usize,
}

impl Model for WholeRecords {
    ghost use Rattle.std.specs.Prelude.{◌≡◌, ◌<◌, length, take};
    ghost use Rattle.dp_pcap.specs.Counting.{Counted};
    ghost use Rattle.dp_pcap.specs.declared.format.TheConstants.{HEAD_SIZE};

    ghost Value = { Counted };

    ghost view = { λ c. record { order = c.order; pieces = c.pieces; left = c.left; head = take c.came c.head } };

    ghost invariant = { λ c. (c.came < HEAD_SIZE) × (length c.head ≡ HEAD_SIZE) };
}

// The number of bytes after a record's head.
fn body_length(order: Order, head: &[u8]) -> u32
    requires { length head.now ≡ HEAD_SIZE }
    ensures { result ≡ captured order head.now }
{
    long_number(order, &head[CAPTURED_AT..])
}

// The byte order of a header: the one in which its version is 2.
fn order_of(header: &[u8]) -> Order
    requires { MINOR_AT ≤ length header.now }
    ensures { (order : Order) (unit : TimeUnit) → IsHeader order unit header.now → result ≡ order }
{
    if short_number(Order::Big, &header[MAJOR_AT..]) == MAJOR {
        Order::Big
    } else {
        Order::Little
    }
}

// The number of whole records at the front of these bytes, where one begins, and their bytes.
fn whole_at_front(order: Order, bytes: &[u8]) -> (u64, usize)
    ensures within { result.1 ≤ length bytes.now }
    ensures few { result.0 ≤ result.1 }
    ensures beyond { (n : ℕ) (before : List ℕ) → IsAfter (none_left order n) before →
        IsAfter (none_left order (n + result.0)) (before ++ take result.1 bytes.now) }
{
    if bytes.len() < HEAD_SIZE {
        return (0, 0);
    }
    let last = bytes.len() - HEAD_SIZE;
    let mut count = 0u64;
    let mut at = 0;
    let mut next = record_end(order, bytes, 0);
    // Where a head follows, the record is whole: that is one test for both.
    while next <= last {
        count += 1;
        at = next;
        next = record_end(order, bytes, at);
    }
    if next <= bytes.len() {
        return (count + 1, next);
    }
    (count, at)
}

// The offset after a record whose head is at this one.
#[inline(always)]
fn record_end(order: Order, bytes: &[u8], at: usize) -> usize
    requires { at + HEAD_SIZE ≤ length bytes.now }
    ensures { result ≡ at + (HEAD_SIZE + captured order (take HEAD_SIZE (drop at bytes.now))) }
{
    at + HEAD_SIZE + body_length(order, &bytes[at..at + HEAD_SIZE]) as usize
}

impl WholeRecords {
    // The count before the first byte.
    fn before(order: Order) -> WholeRecords
        ensures { result ≡ none_yet order }
    {
        WholeRecords {
            order,
            pieces: 0,
            left: HEADER_SIZE,
            head: [0; HEAD_SIZE],
            came: 0,
        }
    }

    /// The count before the first byte of a capture that this crate writes.
    pub fn new() -> WholeRecords
        ensures { result ≡ none_yet Order.Little }
    {
        WholeRecords::before(Order::Little)
    }

    /// The count before the first byte of a capture with this front: its version gives the byte order.
    pub fn of_capture(front: &[u8]) -> WholeRecords
        ensures none { result ≡ none_yet result.order }
        ensures order { (order : Order) (unit : TimeUnit) → IsHeader order unit (take HEADER_SIZE front.now) → result ≡ none_yet order }
    {
        if front.len() < HEADER_SIZE {
            return WholeRecords::new();
        }
        WholeRecords::before(order_of(&front[..HEADER_SIZE]))
    }

    /// The number of whole records so far.
    pub fn count(&self) -> u64
        ensures { result ≡ records_in self.now }
    {
        self.pieces.saturating_sub(1)
    }

    /// Counts more bytes of the capture.
    pub fn pass(&mut self, bytes: &[u8])
        ensures order { self.new.order ≡ self.old.order }
        ensures beyond { self.old.pieces + length bytes.now < 2 ^ 64 →
            (before : List ℕ) → IsAfter self.old before → IsAfter self.new (before ++ bytes.now) }
    {
        let mut at = 0;
        while at < bytes.len() {
            at += self.step(&bytes[at..]);
        }
    }

    // Counts the front of these bytes: what they have of the header, of a record's head, or of the bytes after it.
    fn step(&mut self, bytes: &[u8]) -> usize
        requires { 0 < length bytes.now }
        ensures { StepsBy self.old self.new bytes.now result }
    {
        if self.left == 0 {
            self.take_records(bytes)
        } else {
            self.skip(bytes)
        }
    }

    // Counts the whole records at the front, where one begins here, else bytes of a head.
    fn take_records(&mut self, bytes: &[u8]) -> usize
        requires some { 0 < length bytes.now }
        requires none { self.old.left ≡ 0 }
        ensures { StepsBy self.old self.new bytes.now result }
    {
        if self.came > 0 {
            return self.take_head(bytes);
        }
        let (count, size) = whole_at_front(self.order, bytes);
        if size == 0 {
            return self.take_head(bytes);
        }
        self.pieces = self.pieces.saturating_add(count);
        size
    }

    // Counts bytes of the header, or of a record after its head.
    fn skip(&mut self, bytes: &[u8]) -> usize
        requires some { 0 < length bytes.now }
        requires left { 0 < self.old.left }
        ensures { StepsBy self.old self.new bytes.now result }
    {
        let taken = self.left.min(bytes.len());
        self.left -= taken;
        if self.left == 0 {
            self.pieces = self.pieces.saturating_add(1);
        }
        taken
    }

    // Counts bytes of a record's head.
    fn take_head(&mut self, bytes: &[u8]) -> usize
        requires some { 0 < length bytes.now }
        requires none { self.old.left ≡ 0 }
        ensures { StepsBy self.old self.new bytes.now result }
    {
        let taken = (HEAD_SIZE - self.came).min(bytes.len());
        self.head[self.came..self.came + taken].copy_from_slice(&bytes[..taken]);
        self.came += taken;
        if self.came == HEAD_SIZE {
            self.came = 0;
            self.left = body_length(self.order, &self.head) as usize;
            if self.left == 0 {
                self.pieces = self.pieces.saturating_add(1);
            }
        }
        taken
    }
}
