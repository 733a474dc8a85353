//! A feed over a reader of std.
ghost use Rattle.std.specs.Prelude.{◌≡◌};

use crate::truncated::Truncated;
use crate::{Failed, Feed, Health};
use std::io::Read;

/// A reader as a [`Feed`]. Its first error breaks it, even an interrupted read, and it is not called again.
#[derive(Drop)]
pub struct OfRead<R> {
    pub(crate) inner: R,
    pub(crate) health: Health,
    pub(crate) truncated: Truncated,
}

impl<R: Read> OfRead<R> {
    ghost use Rattle.std.specs.Prelude.{◌≡◌, ◌-◌, ◌^◌, min};
    ghost use Rattle.dp_pcap.specs.Health.{fresh};
    ghost use Rattle.dp_pcap.specs.OfStd.{reader_inside, feed_health, feed_truncated};

    /// Wraps a reader.
    pub fn new(inner: R) -> OfRead<R>
        ensures inner { reader_inside result ≡ inner }
        ensures health { feed_health result ≡ fresh }
        ensures truncated { feed_truncated result ≡ 0 }
    {
        OfRead {
            inner,
            health: Health::new(),
            truncated: Truncated::new(),
        }
    }

    /// How many truncated records were read, up to 2^64 - 1: the capture has only the front of their packets.
    pub fn truncated(&self) -> u64
        ensures { result ≡ min (feed_truncated self.now) (2 ^ 64 - 1) }
    {
        self.truncated.count()
    }

    /// Returns the reader.
    pub fn into_inner(self) -> R
        ensures { result ≡ reader_inside self }
    {
        let OfRead {
            inner,
            health: _,
            truncated: _,
        } = self;
        inner
    }
}

impl<R: Read> Feed for OfRead<R> {
    ghost use Rattle.std.specs.Prelude.{◌≡◌, ◌+◌, ◌≤◌, ◌↔◌, [], length, IfOk, IsErr, IsTrue, MatchResult};
    ghost use Rattle.std.specs.Io.KnownBytes.{ReadConsumes};
    ghost use Rattle.dp_pcap.specs.OfStd.{reader_inside, feed_health, feed_truncated};

    ghost is_broken = { λ d. d.health.is_broken };

    ghost calls = { λ d. d.health.calls };

    ghost failures = { λ d. d.health.failures };

    ghost remaining = { λ d. R.remaining d.inner };

    ghost at_hand = { λ d. [] };

    ghost truncated = { λ d. d.truncated };

    fn held(&self) -> &[u8] {
        &[]
    }

    fn pass(&mut self, _n: usize) {}

    fn note_truncated(&mut self) {
        self.truncated.note();
    }

    /// It does not call the reader if it is broken.
    fn pull(&mut self, buf: &mut [u8]) -> Result<usize, Failed>
        ensures bound { IfOk result (λ n. n ≤ length buf.new) }
        ensures bytes { ReadConsumes (R.remaining (reader_inside self.old)) (R.remaining (reader_inside self.new)) result buf.new }
        ensures failed { IsErr result ↔ IsTrue (feed_health self.new).is_broken }
        ensures stays { IsTrue (feed_health self.old).is_broken → IsTrue (feed_health self.new).is_broken }
        ensures counted { (feed_health self.new).calls ≡ (feed_health self.old).calls + 1 }
        ensures failures { MatchResult result
            (λ _. (feed_health self.new).failures ≡ (feed_health self.old).failures)
            (λ _. (feed_health self.new).failures ≡ (feed_health self.old).failures + 1) }
        ensures truncated { feed_truncated self.new ≡ feed_truncated self.old }
        ensures untouched { IsTrue (feed_health self.old).is_broken → reader_inside self.new ≡ reader_inside self.old }
    {
        self.health.call();
        if self.health.is_broken() {
            return Err(self.health.fail());
        }
        match self.inner.read(buf) {
            Ok(n) => Ok(n),
            Err(_) => Err(self.health.fail()),
        }
    }
}
