//! A feed that fails after a number of bytes, for tests.
ghost use Rattle.std.specs.Prelude.{◌≡◌};

use crate::{Failed, Feed, Health};

/// A feed that gives the first bytes of another [`Feed`], then fails.
#[derive(Drop)]
pub struct FailingFeed<F> {
    inner: F,
    // How many bytes it still gives.
    left: usize,
    health: Health,
}

impl<F: Feed> FailingFeed<F> {
    ghost use Rattle.dp_pcap.specs.Health.{fresh};
    ghost use Rattle.dp_pcap.specs.Failing.{feed_inside, bytes_to_give, feed_health};

    /// Makes a feed that gives the first `left` bytes of `inner`, then fails.
    pub fn new(inner: F, left: usize) -> FailingFeed<F>
        ensures inner { feed_inside result ≡ inner }
        ensures left { bytes_to_give result ≡ left }
        ensures health { feed_health result ≡ fresh }
    {
        FailingFeed {
            inner,
            left,
            health: Health::new(),
        }
    }

    /// Returns the inner feed.
    pub fn into_inner(self) -> F
        ensures { result ≡ feed_inside self }
    {
        let FailingFeed {
            inner,
            left: _,
            health: _,
        } = self;
        inner
    }
}

impl<F: Feed> Feed for FailingFeed<F> {
    ghost use Rattle.std.specs.Prelude.{◌≡◌, ◌+◌, ◌<◌, ◌≤◌, ◌↔◌, ◌⊎◌, false, [], take, length, IfOk, IsErr, IsTrue, OnErr, MatchResult};
    ghost use Rattle.std.specs.Option.{option_map};
    ghost use Rattle.std.specs.Io.KnownBytes.{ReadConsumes};
    ghost use Rattle.dp_pcap.specs.Failing.{feed_inside, bytes_to_give, feed_health};

    ghost is_broken = { λ d. d.health.is_broken };

    ghost calls = { λ d. d.health.calls };

    ghost failures = { λ d. d.health.failures };

    ghost remaining = { λ d. option_map (take d.left) (F.remaining d.inner) };

    ghost at_hand = { λ d. [] };

    ghost truncated = { λ d. F.truncated d.inner };

    /// It buffers nothing, so each byte is read with a call.
    fn held(&self) -> &[u8] {
        &[]
    }

    fn pass(&mut self, _n: usize) {}

    fn note_truncated(&mut self) {
        self.inner.note_truncated();
    }

    /// Fails exactly if it is broken, if it may give no more bytes, or if the inner feed is broken. In the first two cases it does not call the inner
    /// feed, else once.
    fn pull(&mut self, buf: &mut [u8]) -> Result<usize, Failed>
        ensures bound { IfOk result (λ n. n ≤ length buf.new) }
        ensures bytes { ReadConsumes (option_map (take (bytes_to_give self.old)) (F.remaining (feed_inside self.old)))
            (option_map (take (bytes_to_give self.new)) (F.remaining (feed_inside self.new)))
            result buf.new }
        ensures failed { IsErr result ↔ IsTrue (feed_health self.new).is_broken }
        ensures stays { IsTrue (feed_health self.old).is_broken → IsTrue (feed_health self.new).is_broken }
        ensures counted { (feed_health self.new).calls ≡ (feed_health self.old).calls + 1 }
        ensures failures { MatchResult result
            (λ _. (feed_health self.new).failures ≡ (feed_health self.old).failures)
            (λ _. (feed_health self.new).failures ≡ (feed_health self.old).failures + 1) }
        ensures truncated { F.truncated (feed_inside self.new) ≡ F.truncated (feed_inside self.old) }
        ensures left { IfOk result (λ n. bytes_to_give self.new + n ≡ bytes_to_give self.old) }
        ensures left_same { OnErr result (bytes_to_give self.new ≡ bytes_to_give self.old) }
        ensures untouched { (IsTrue (feed_health self.old).is_broken ⊎ (bytes_to_give self.old ≡ 0)) → feed_inside self.new ≡ feed_inside self.old }
        ensures once { (feed_health self.old).is_broken ≡ false → 0 < bytes_to_give self.old →
            F.calls (feed_inside self.new) ≡ F.calls (feed_inside self.old) + 1 }
        ensures cause { OnErr result (IsTrue (feed_health self.old).is_broken
            ⊎ (bytes_to_give self.old ≡ 0) ⊎ IsTrue (F.is_broken (feed_inside self.new))) }
        ensures certain { (IsTrue (feed_health self.old).is_broken
            ⊎ (bytes_to_give self.old ≡ 0) ⊎ IsTrue (F.is_broken (feed_inside self.new))) → IsErr result }
    {
        self.health.call();
        if self.health.is_broken() || self.left == 0 {
            return Err(self.health.fail());
        }
        let most = buf.len().min(self.left);
        match self.inner.pull(&mut buf[..most]) {
            Ok(n) => {
                self.left -= n;
                Ok(n)
            }
            Err(_) => Err(self.health.fail()),
        }
    }
}
