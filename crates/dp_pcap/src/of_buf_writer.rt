//! A sink over a writer with a buffer.
ghost use Rattle.std.specs.Prelude.{◌≡◌, [], ◌∷◌, ◌++◌, ◌+◌, ◌<◌, ◌≤◌, ◌↔◌, length, take, IfOk, IsErr, IsTrue, MatchResult, OnOk, false, nat_lt, if◌then◌else◌};
ghost use Rattle.std.specs.Io.KnownBytes.{Appends, Keeps, WriteAppends};
ghost use Rattle.dp_pcap.specs.Buffers.{writer_buffer, writer_capacity, writer_contents};
ghost use Rattle.dp_pcap.specs.Offering.{OffersTwo};
ghost use Rattle.dp_pcap.specs.OfStd.{writer_inside, sink_health, sink_offers};

use crate::{Buffered, Failed, OfWrite, Offers, Sink};
use std::io::{self, Write};

/// A buffered writer as a [`Sink`], like [`OfWrite`]. Bytes that fit into its buffer go there at once.
#[derive(Drop)]
pub struct OfBufWriter<W: Write + Drop> {
    sink: OfWrite<Buffered<W>>,
    // What this sink was offered. The inner sink is offered what fills the buffer.
    offers: Offers,
}

impl<W: Write + Drop> OfBufWriter<W> {
    ghost use Rattle.dp_pcap.specs.Health.{fresh};
    ghost use Rattle.dp_pcap.specs.OfStd.{buffered_writer, buffered_sink_health, buffered_sink_offers};

    /// Wraps a writer.
    pub fn new(inner: Buffered<W>) -> OfBufWriter<W>
        ensures inner { buffered_writer result ≡ inner }
        ensures health { buffered_sink_health result ≡ fresh }
        ensures offers { buffered_sink_offers result ≡ [] }
    {
        OfBufWriter {
            sink: OfWrite::new(inner),
            offers: Offers::new(),
        }
    }

    /// The writer.
    pub fn get_ref(&self) -> &Buffered<W>
        ensures { result.now ≡ buffered_writer self.now }
    {
        &self.sink.inner
    }

    /// Writes out what the buffer holds, and flushes the inner writer. Counts no call, and does not change whether it is broken.
    ///
    /// # Errors
    ///
    /// The writer's.
    pub fn flush(&mut self) -> io::Result<()>
        ensures bytes { Keeps (writer_contents W.contents (buffered_writer self.old)) (writer_contents W.contents (buffered_writer self.new)) }
        ensures written { OnOk result (writer_buffer (buffered_writer self.new) ≡ []) }
        ensures health { buffered_sink_health self.new ≡ buffered_sink_health self.old }
        ensures offers { buffered_sink_offers self.new ≡ buffered_sink_offers self.old }
    {
        self.sink.inner.flush()
    }

    /// Returns the writer, without flushing it.
    pub fn into_inner(self) -> Buffered<W>
        ensures { result ≡ buffered_writer self }
    {
        let OfBufWriter { sink, offers: _ } = self;
        sink.into_inner()
    }
}

impl<W: Write + Drop> Sink for OfBufWriter<W> {
    ghost use Rattle.dp_pcap.specs.OfStd.{buffered_writer, buffered_sink_health, buffered_sink_offers};

    ghost is_broken = { λ d. d.sink.health.is_broken };

    ghost calls = { λ d. d.sink.health.calls };

    ghost failures = { λ d. d.sink.health.failures };

    ghost offers = { λ d. d.offers.pieces };

    ghost contents = { λ d. writer_contents W.contents d.sink.inner };

    /// It does not call the writer if it is broken.
    #[inline(always)]
    fn push(&mut self, bytes: &[u8]) -> Result<usize, Failed>
        ensures bound { IfOk result (λ n. n ≤ length bytes.now) }
        ensures some { IfOk result (λ n. 0 < length bytes.now → 0 < n) }
        ensures bytes { WriteAppends (writer_contents W.contents (buffered_writer self.old)) (writer_contents W.contents (buffered_writer self.new))
            result bytes.now }
        ensures failed { IsErr result ↔ IsTrue (buffered_sink_health self.new).is_broken }
        ensures stays { IsTrue (buffered_sink_health self.old).is_broken → IsTrue (buffered_sink_health self.new).is_broken }
        ensures counted { (buffered_sink_health self.new).calls ≡ (buffered_sink_health self.old).calls + 1 }
        ensures offered { buffered_sink_offers self.new ≡ buffered_sink_offers self.old ++ bytes.now ∷ [] }
        ensures failures { MatchResult result
            (λ _. (buffered_sink_health self.new).failures ≡ (buffered_sink_health self.old).failures)
            (λ _. (buffered_sink_health self.new).failures ≡ (buffered_sink_health self.old).failures + 1) }
        ensures untouched { IsTrue (buffered_sink_health self.old).is_broken → buffered_writer self.new ≡ buffered_writer self.old }
    {
        self.offers = self.offers.and(bytes);
        // The room is tested first, so a piece that fits cannot fail.
        let spare = self.sink.inner.room();
        if bytes.len() < spare {
            self.sink.push(bytes)
        } else {
            push_past(&mut self.sink, bytes, spare)
        }
    }

    /// True exactly if it is sound and its buffer has room left after both pieces.
    #[inline(always)]
    fn has_room(&self, head: usize, body: usize) -> bool
        ensures sound { IsTrue result → (buffered_sink_health self.now).is_broken ≡ false }
        ensures room { IsTrue result → length (writer_buffer (buffered_writer self.now)) + head + body < writer_capacity (buffered_writer self.now) }
        ensures exact { (buffered_sink_health self.now).is_broken ≡ false →
            length (writer_buffer (buffered_writer self.now)) + head + body < writer_capacity (buffered_writer self.now) → IsTrue result }
    {
        head.saturating_add(body) < self.sink.inner.room() && !self.sink.health.is_broken()
    }

    /// True exactly where `has_room` is. Nothing is written out then.
    #[inline(always)]
    fn push_both(&mut self, head: &[u8], body: &[u8]) -> bool
        requires { 0 < length head.now }
        ensures bytes { IsTrue result →
            Appends (writer_contents W.contents (buffered_writer self.old)) (writer_contents W.contents (buffered_writer self.new)) (head.now ++ body.now) }
        ensures offered { IsTrue result → OffersTwo (buffered_sink_offers self.old) (buffered_sink_offers self.new) head.now body.now }
        ensures counted { IsTrue result →
            (buffered_sink_health self.new).calls ≡ (buffered_sink_health self.old).calls + (if nat_lt 0 (length body.now) then 2 else 1) }
        ensures sound { IsTrue result → ((buffered_sink_health self.old).is_broken ≡ false) × ((buffered_sink_health self.new).is_broken ≡ false) }
        ensures failures { (buffered_sink_health self.new).failures ≡ (buffered_sink_health self.old).failures }
        ensures untouched { result ≡ false → self.new ≡ self.old }
        ensures buffered { IsTrue result → writer_buffer (buffered_writer self.new) ≡ writer_buffer (buffered_writer self.old) ++ (head.now ++ body.now) }
        ensures exact { (buffered_sink_health self.old).is_broken ≡ false →
            length (writer_buffer (buffered_writer self.old)) + length head.now + length body.now < writer_capacity (buffered_writer self.old)
            → IsTrue result }
    {
        if !self.has_room(head.len(), body.len()) {
            return false;
        }
        self.offers = both_offered(&self.offers, head, body);
        self.sink.health.call();
        if !body.is_empty() {
            self.sink.health.call();
        }
        self.sink.inner.take_both(head, body);
        true
    }
}

// The offers after those of two pieces; an empty body is not offered.
#[inline(always)]
fn both_offered(offers: &Offers, head: &[u8], body: &[u8]) -> Offers
    requires { 0 < length head.now }
    ensures { OffersTwo offers.now.pieces result.pieces head.now body.now }
{
    if body.is_empty() {
        return offers.and(head);
    }
    offers.and(head).and(body)
}

// Takes bytes for which the buffer has no room: as many as fill it, or all if it is full. So the inner writer gets whole buffers, and a file that
// is written from its start gets each at a multiple of its size.
#[cold]
#[inline(never)]
fn push_past<W: Write + Drop>(
    sink: &mut OfWrite<Buffered<W>>,
    bytes: &[u8],
    spare: usize,
) -> Result<usize, Failed>
    requires room { spare ≤ length bytes.now }
    ensures bound { IfOk result (λ n. n ≤ length bytes.now) }
    ensures fills { IfOk result (λ n. 0 < spare → n ≤ spare) }
    ensures some { IfOk result (λ n. 0 < length bytes.now → 0 < n) }
    ensures bytes { WriteAppends (writer_contents W.contents (writer_inside sink.old)) (writer_contents W.contents (writer_inside sink.new)) result bytes.now }
    ensures failed { IsErr result ↔ IsTrue ((sink_health sink.new).is_broken) }
    ensures stays { IsTrue ((sink_health sink.old).is_broken) → IsTrue ((sink_health sink.new).is_broken) }
    ensures counted { (sink_health sink.new).calls ≡ (sink_health sink.old).calls + 1 }
    ensures full { spare ≡ 0 → sink_offers sink.new ≡ sink_offers sink.old ++ bytes.now ∷ [] }
    ensures filled { 0 < spare → sink_offers sink.new ≡ sink_offers sink.old ++ take spare bytes.now ∷ [] }
    ensures failures { MatchResult result
        (λ _. (sink_health sink.new).failures ≡ (sink_health sink.old).failures)
        (λ _. (sink_health sink.new).failures ≡ (sink_health sink.old).failures + 1) }
    ensures untouched { IsTrue (sink_health sink.old).is_broken → writer_inside sink.new ≡ writer_inside sink.old }
{
    if spare == 0 {
        return sink.push(bytes);
    }
    sink.push(&bytes[..spare])
}
