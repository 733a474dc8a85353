//! A sink that fails after a number of bytes, for tests.
ghost use Rattle.std.specs.Prelude.{◌≡◌, ◌<◌, []};

use crate::{Failed, Health, Offers, Sink};

/// A sink that passes a few bytes in each call to another [`Sink`], and fails after a number of them.
#[derive(Drop)]
pub struct FailingSink<S> {
    inner: S,
    // The maximum number of bytes that one call passes on.
    most: usize,
    // How many bytes it still passes on.
    left: usize,
    health: Health,
    offers: Offers,
    ghost some: { 0 < most },
}

impl<S: Sink> FailingSink<S> {
    ghost use Rattle.dp_pcap.specs.Health.{fresh};
    ghost use Rattle.dp_pcap.specs.Failing.{sink_inside, bytes_a_call, bytes_to_take, sink_health, sink_offers};

    /// Makes a sink that passes at most `most` bytes in each call to `inner`, and fails after `left` bytes.
    pub fn new(inner: S, most: usize, left: usize) -> FailingSink<S>
        requires { 0 < most }
        ensures inner { sink_inside result ≡ inner }
        ensures most { bytes_a_call result ≡ most }
        ensures left { bytes_to_take result ≡ left }
        ensures health { sink_health result ≡ fresh }
        ensures offers { sink_offers result ≡ [] }
    {
        FailingSink {
            inner,
            most,
            left,
            health: Health::new(),
            offers: Offers::new(),
        }
    }

    /// Returns the inner sink.
    pub fn into_inner(self) -> S
        ensures { result ≡ sink_inside self }
    {
        let FailingSink {
            inner,
            most: _,
            left: _,
            health: _,
            offers: _,
        } = self;
        inner
    }
}

impl<S: Sink> Sink for FailingSink<S> {
    ghost use Rattle.std.specs.Prelude.{◌≡◌, ◌+◌, ◌<◌, ◌≤◌, ◌↔◌, ◌⊎◌, false, [], ◌∷◌, ◌++◌, length, min, take, IfOk, IsErr, IsTrue, OnErr, MatchResult};
    ghost use Rattle.std.specs.Io.KnownBytes.{WriteAppends};
    ghost use Rattle.dp_pcap.specs.Failing.{sink_inside, bytes_a_call, bytes_to_take, sink_health, sink_offers};

    ghost is_broken = { λ d. d.health.is_broken };

    ghost calls = { λ d. d.health.calls };

    ghost failures = { λ d. d.health.failures };

    ghost offers = { λ d. d.offers.pieces };

    ghost contents = { λ d. S.contents d.inner };

    /// Fails exactly if it is broken, if it may pass no more bytes on, or if the inner sink is broken. In the first two cases it does not call the
    /// inner sink, else once, with as many bytes as may pass.
    fn push(&mut self, bytes: &[u8]) -> Result<usize, Failed>
        ensures bound { IfOk result (λ n. n ≤ length bytes.now) }
        ensures some { IfOk result (λ n. 0 < length bytes.now → 0 < n) }
        ensures bytes { WriteAppends (S.contents (sink_inside self.old)) (S.contents (sink_inside self.new))
            result bytes.now }
        ensures failed { IsErr result ↔ IsTrue (sink_health self.new).is_broken }
        ensures stays { IsTrue (sink_health self.old).is_broken → IsTrue (sink_health self.new).is_broken }
        ensures counted { (sink_health self.new).calls ≡ (sink_health self.old).calls + 1 }
        ensures offered { sink_offers self.new ≡ sink_offers self.old ++ bytes.now ∷ [] }
        ensures failures { MatchResult result
            (λ _. (sink_health self.new).failures ≡ (sink_health self.old).failures)
            (λ _. (sink_health self.new).failures ≡ (sink_health self.old).failures + 1) }
        ensures most { IfOk result (λ n. n ≤ bytes_a_call self.old) }
        ensures same { bytes_a_call self.new ≡ bytes_a_call self.old }
        ensures left { IfOk result (λ n. bytes_to_take self.new + n ≡ bytes_to_take self.old) }
        ensures left_same { OnErr result (bytes_to_take self.new ≡ bytes_to_take self.old) }
        ensures untouched { (IsTrue (sink_health self.old).is_broken ⊎ (bytes_to_take self.old ≡ 0)) → sink_inside self.new ≡ sink_inside self.old }
        ensures once { (sink_health self.old).is_broken ≡ false → 0 < bytes_to_take self.old →
            S.offers (sink_inside self.new) ≡ S.offers (sink_inside self.old)
            ++ take (min (min (length bytes.now) (bytes_to_take self.old)) (bytes_a_call self.old)) bytes.now ∷ [] }
        ensures cause { OnErr result (IsTrue (sink_health self.old).is_broken
            ⊎ (bytes_to_take self.old ≡ 0) ⊎ IsTrue (S.is_broken (sink_inside self.new))) }
        ensures certain { (IsTrue (sink_health self.old).is_broken
            ⊎ (bytes_to_take self.old ≡ 0) ⊎ IsTrue (S.is_broken (sink_inside self.new))) → IsErr result }
    {
        self.health.call();
        self.offers = self.offers.and(bytes);
        if self.health.is_broken() || self.left == 0 {
            return Err(self.health.fail());
        }
        let most = bytes.len().min(self.left).min(self.most);
        match self.inner.push(&bytes[..most]) {
            Ok(n) => {
                self.left -= n;
                Ok(n)
            }
            Err(_) => Err(self.health.fail()),
        }
    }

    /// False: it has no buffer.
    fn has_room(&self, _head: usize, _body: usize) -> bool
        ensures sound { IsTrue result → (sink_health self.now).is_broken ≡ false }
        ensures never { result ≡ false }
    {
        false
    }
}
