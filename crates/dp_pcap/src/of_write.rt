//! A sink over a writer of std.
ghost use Rattle.std.specs.Prelude.{◌≡◌, []};

use crate::{Failed, Health, Offers, Sink};
use std::io::Write;

/// A writer as a [`Sink`]. Its first error breaks it, as does a write that takes none of the bytes offered. It is not called again.
#[derive(Drop)]
pub struct OfWrite<W> {
    pub(crate) inner: W,
    pub(crate) health: Health,
    pub(crate) offers: Offers,
}

impl<W: Write> OfWrite<W> {
    ghost use Rattle.dp_pcap.specs.Health.{fresh};
    ghost use Rattle.dp_pcap.specs.OfStd.{writer_inside, sink_health, sink_offers};

    /// Wraps a writer.
    pub fn new(inner: W) -> OfWrite<W>
        ensures inner { writer_inside result ≡ inner }
        ensures health { sink_health result ≡ fresh }
        ensures offers { sink_offers result ≡ [] }
    {
        OfWrite {
            inner,
            health: Health::new(),
            offers: Offers::new(),
        }
    }

    /// Returns the writer, without flushing it.
    pub fn into_inner(self) -> W
        ensures { result ≡ writer_inside self }
    {
        let OfWrite {
            inner,
            health: _,
            offers: _,
        } = self;
        inner
    }
}

impl<W: Write> Sink for OfWrite<W> {
    ghost use Rattle.std.specs.Prelude.{◌≡◌, ◌+◌, ◌<◌, ◌≤◌, ◌↔◌, false, [], ◌∷◌, ◌++◌, length, IfOk, IsErr, IsTrue, MatchResult};
    ghost use Rattle.std.specs.Io.KnownBytes.{WriteAppends};
    ghost use Rattle.dp_pcap.specs.OfStd.{writer_inside, sink_health, sink_offers};

    ghost is_broken = { λ d. d.health.is_broken };

    ghost calls = { λ d. d.health.calls };

    ghost failures = { λ d. d.health.failures };

    ghost offers = { λ d. d.offers.pieces };

    ghost contents = { λ d. W.contents d.inner };

    /// It does not call the writer if it is broken.
    #[inline(always)]
    fn push(&mut self, bytes: &[u8]) -> Result<usize, Failed>
        ensures bound { IfOk result (λ n. n ≤ length bytes.now) }
        ensures some { IfOk result (λ n. 0 < length bytes.now → 0 < n) }
        ensures bytes { WriteAppends (W.contents (writer_inside self.old)) (W.contents (writer_inside self.new)) result bytes.now }
        ensures failed { IsErr result ↔ IsTrue (sink_health self.new).is_broken }
        ensures stays { IsTrue (sink_health self.old).is_broken → IsTrue (sink_health self.new).is_broken }
        ensures counted { (sink_health self.new).calls ≡ (sink_health self.old).calls + 1 }
        ensures offered { sink_offers self.new ≡ sink_offers self.old ++ bytes.now ∷ [] }
        ensures failures { MatchResult result
            (λ _. (sink_health self.new).failures ≡ (sink_health self.old).failures)
            (λ _. (sink_health self.new).failures ≡ (sink_health self.old).failures + 1) }
        ensures untouched { IsTrue (sink_health self.old).is_broken → writer_inside self.new ≡ writer_inside self.old }
    {
        self.health.call();
        self.offers = self.offers.and(bytes);
        if self.health.is_broken() {
            return Err(self.health.fail());
        }
        match self.inner.write(bytes) {
            Ok(n) if n > 0 || bytes.is_empty() => Ok(n),
            _ => Err(self.health.fail()),
        }
    }

    /// False: it has no buffer.
    #[inline(always)]
    fn has_room(&self, _head: usize, _body: usize) -> bool
        ensures sound { IsTrue result → (sink_health self.now).is_broken ≡ false }
        ensures never { result ≡ false }
    {
        false
    }
}
