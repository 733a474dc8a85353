//! The state of a device: whether it is sound, and how often it was called.
ghost use Rattle.std.specs.Prelude.{◌≡◌, true, false};
ghost use Rattle.dp_pcap.specs.Health.{fresh, called, failed};

use crate::{Failed, GhostCount};
use std::marker::Model;

/// Whether a device is broken and, for clauses only, how many calls it had and how many of them failed. At run time it is one `bool`.
#[derive(Drop)]
pub struct Health {
    is_broken: bool,
    calls: GhostCount,
    failures: GhostCount,
}

impl Model for Health {
    ghost use Rattle.dp_pcap.specs.Health.{State};

    ghost Value = { State };

    ghost view = { λ h. record {
      is_broken = h.is_broken;
      calls = h.calls.count;
      failures = h.failures.count;
    } };
}

impl Health {
    /// A sound device that was not called yet.
    pub fn new() -> Health
        ensures { result ≡ fresh }
    {
        Health {
            is_broken: false,
            calls: GhostCount::new(),
            failures: GhostCount::new(),
        }
    }

    /// Whether a call failed.
    pub fn is_broken(&self) -> bool
        ensures { result ≡ self.now.is_broken }
    {
        self.is_broken
    }

    /// Counts a call.
    pub fn call(&mut self)
        ensures { self.new ≡ called self.old }
    {
        self.calls = self.calls.one_more();
    }

    /// Counts the call as failed, and returns its error. The device is broken from now on.
    pub fn fail(&mut self) -> Failed
        ensures { self.new ≡ failed self.old }
    {
        self.failures = self.failures.one_more();
        self.is_broken = true;
        Failed
    }
}
