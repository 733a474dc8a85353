//! A feed over a buffered reader of std.
ghost use Rattle.std.specs.Prelude.{◌≡◌};

use crate::{Failed, Feed, OfRead};
use std::io::{BufRead, BufReader, Read};

/// A buffered reader as a [`Feed`], like [`OfRead`]. What its buffer holds is available at once.
#[derive(Drop)]
pub struct OfBufReader<R> {
    feed: OfRead<BufReader<R>>,
}

impl<R: Read> OfBufReader<R> {
    ghost use Rattle.std.specs.Prelude.{◌≡◌, ◌-◌, ◌^◌, min};
    ghost use Rattle.dp_pcap.specs.Health.{fresh};
    ghost use Rattle.dp_pcap.specs.OfStd.{buffered_reader, buffered_feed_health, buffered_feed_truncated};

    /// Wraps a reader.
    pub fn new(inner: BufReader<R>) -> OfBufReader<R>
        ensures inner { buffered_reader result ≡ inner }
        ensures health { buffered_feed_health result ≡ fresh }
        ensures truncated { buffered_feed_truncated result ≡ 0 }
    {
        OfBufReader {
            feed: OfRead::new(inner),
        }
    }

    /// How many truncated records were read, up to 2^64 - 1: the capture has only the front of their packets.
    pub fn truncated(&self) -> u64
        ensures { result ≡ min (buffered_feed_truncated self.now) (2 ^ 64 - 1) }
    {
        self.feed.truncated()
    }

    /// The reader.
    pub fn get_ref(&self) -> &BufReader<R>
        ensures { result.now ≡ buffered_reader self.now }
    {
        &self.feed.inner
    }

    /// Returns the reader.
    pub fn into_inner(self) -> BufReader<R>
        ensures { result ≡ buffered_reader self }
    {
        let OfBufReader { feed } = self;
        feed.into_inner()
    }
}

impl<R: Read> Feed for OfBufReader<R> {
    ghost use Rattle.std.specs.Prelude.{◌≡◌, ◌+◌, ◌≤◌, ◌↔◌, Ok, false, [], if◌then◌else◌, length, IfOk, IsErr, IsTrue, MatchResult};
    ghost use Rattle.std.specs.Io.Buffered.{reader_remaining, reader_buffer, reader_inner};
    ghost use Rattle.std.specs.Io.KnownBytes.{ReadConsumes};
    ghost use Rattle.dp_pcap.specs.OfStd.{buffered_reader, buffered_feed_health, buffered_feed_truncated};

    ghost is_broken = { λ d. d.feed.health.is_broken };

    ghost calls = { λ d. d.feed.health.calls };

    ghost failures = { λ d. d.feed.health.failures };

    ghost remaining = { λ d. reader_remaining R.remaining d.feed.inner };

    ghost at_hand = { λ d. if d.feed.health.is_broken then [] else reader_buffer d.feed.inner };

    ghost truncated = { λ d. d.feed.truncated };

    #[inline(always)]
    fn held(&self) -> &[u8] {
        // None of these bytes are at the same place as all, so that a caller who needs no length makes no test.
        let held = self.feed.inner.buffer();
        if self.feed.health.is_broken() {
            return &held[..0];
        }
        held
    }

    #[inline(always)]
    fn pass(&mut self, n: usize) {
        self.feed.inner.consume(n);
    }

    fn note_truncated(&mut self) {
        self.feed.truncated.note();
    }

    /// It does not call the reader if it is broken, or if the buffer has as many bytes as are requested.
    #[inline(always)]
    fn pull(&mut self, buf: &mut [u8]) -> Result<usize, Failed>
        ensures bound { IfOk result (λ n. n ≤ length buf.new) }
        ensures bytes { ReadConsumes (reader_remaining R.remaining (buffered_reader self.old))
            (reader_remaining R.remaining (buffered_reader self.new))
            result buf.new }
        ensures failed { IsErr result ↔ IsTrue (buffered_feed_health self.new).is_broken }
        ensures stays { IsTrue (buffered_feed_health self.old).is_broken → IsTrue (buffered_feed_health self.new).is_broken }
        ensures counted { (buffered_feed_health self.new).calls ≡ (buffered_feed_health self.old).calls + 1 }
        ensures failures { MatchResult result
            (λ _. (buffered_feed_health self.new).failures ≡ (buffered_feed_health self.old).failures)
            (λ _. (buffered_feed_health self.new).failures ≡ (buffered_feed_health self.old).failures + 1) }
        ensures truncated { buffered_feed_truncated self.new ≡ buffered_feed_truncated self.old }
        ensures untouched { IsTrue (buffered_feed_health self.old).is_broken → buffered_reader self.new ≡ buffered_reader self.old }
        ensures buffered { (buffered_feed_health self.old).is_broken ≡ false → length buf.old ≤ length (reader_buffer (buffered_reader self.old)) →
            (result ≡ Ok (length buf.old)) × (reader_inner (buffered_reader self.new) ≡ reader_inner (buffered_reader self.old)) }
    {
        let held = self.feed.inner.buffer();
        if self.feed.health.is_broken() || held.len() < buf.len() {
            return self.feed.pull(buf);
        }
        buf.copy_from_slice(&held[..buf.len()]);
        self.feed.inner.consume(buf.len());
        self.feed.health.call();
        Ok(buf.len())
    }
}
