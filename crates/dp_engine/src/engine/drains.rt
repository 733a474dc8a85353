//! Drains and flushes: writing transmit lists to captures, and freeing what is left.
ghost use Rattle.std.specs.Prelude.{◌≡◌, ◌+◌, ◌<◌, ◌≤◌, [], false, length, flat_map, take, MatchResult, IfOk, IfErr, IsOk, IsErr, IsTrue};
ghost use Rattle.std.specs.Io.KnownBytes.{Appends};
ghost use Rattle.dp_model.specs.Machine.{live};
ghost use Rattle.dp_model.specs.Runs.{between, with_empty_outboxes, with_empty_rings, left_in_rings};
ghost use Rattle.dp_pcap.specs.declared.format.TheConstants.{NANOS_A_SECOND};
ghost use Rattle.dp_pcap.specs.Text.{record_text};
ghost use Rattle.dp_engine.specs.Drains.{Written, WrotePart, IsCalledFor};
ghost use Rattle.dp_engine.specs.Outcomes.{sent_of};
ghost use Rattle.dp_engine.specs.Engines.{drained, left_at, with_left, flushed};

use crate::compiled_programs::CompiledPrograms;
use crate::engine::{Engine, WriteFault};
use dp_model::Queue;
use dp_pcap::{Sink, Time, Unit};

impl<K: CompiledPrograms> Engine<K> {
    /// Writes the packets of the transmit list of `port`, which must exist, first to last as records of classic pcap 2.4, and frees them, even if the
    /// writer fails. The records have this time, in nanoseconds or, rounded down, in microseconds. Returns how many records were written.
    ///
    /// # Errors
    ///
    /// [`WriteFault`] if the writer failed, with how many records it took whole before.
    #[inline(always)]
    #[tactic(auto, using(std::proofs::lemmas::Grind::common_steps))]
    pub fn drain<W: Sink>(
        &mut self,
        port: u8,
        time: Time,
        unit: Unit,
        w: &mut W,
    ) -> Result<u32, WriteFault>
        requires exists { port < length self.old.setting.env.ports }
        requires nano { time.nano < NANOS_A_SECOND }
        ensures ok { IfOk result (λ sent. Written unit time port self.old.world (λ records. (sent ≡ length records)
            × Appends (W.contents w.old) (W.contents w.new) (flat_map (record_text unit) records))) }
        ensures err { IfErr result (λ fault. Written unit time port self.old.world
            (λ records. WrotePart (W.contents w.old) (W.contents w.new) unit records fault.sent)) }
        ensures broken { IsErr result → IsTrue (W.is_broken w.new) }
        ensures sound { IsOk result → W.is_broken w.old ≡ false → W.is_broken w.new ≡ false }
        ensures empty { self.new ≡ drained port (sent_of result) self.old }
        ensures counted { Written unit time port self.old.world (λ records.
            IsCalledFor (W.calls w.old) (W.calls w.new) unit (take (sent_of result + 1) records)) }
        ensures failures { MatchResult result (λ _. W.failures w.new ≡ W.failures w.old) (λ _. W.failures w.new ≡ W.failures w.old + 1) }
    {
        // Most lists are empty after most turns. This test is all that such a list costs.
        if self.machine.count(Queue::Tx(port)) == 0 {
            return Ok(0);
        }
        match self.machine.drain_list(port, time, unit, w) {
            Ok(sent) => {
                self.tallies[usize::from(port)].sent += u64::from(sent);
                Ok(sent)
            }
            Err(sent) => {
                self.tallies[usize::from(port)].sent += u64::from(sent);
                Err(WriteFault { sent })
            }
        }
    }

    // Frees the packets of a ring, and counts them as left.
    fn leave(&mut self, ring: u8)
        requires { ring < length self.old.setting.env.rings }
        ensures { self.new ≡ left_at ring self.old }
    {
        self.left[usize::from(ring)] += u64::from(self.machine.count(Queue::Ring(ring)));
        self.machine.clear(Queue::Ring(ring));
    }

    // Frees the packets of a transmit list.
    fn drop_sent(&mut self, port: u8)
        requires { port < length self.old.setting.env.ports }
        ensures { self.new ≡ drained port 0 self.old }
    {
        self.machine.clear(Queue::Tx(port));
    }

    // Frees the packets of all rings, and counts them ring by ring.
    fn flush_rings(&mut self)
        ensures { self.new ≡ record self.old { world = with_empty_rings self.old.world; left = with_left self.old.left (left_in_rings self.old.world) } }
    {
        let rings = self.context.env().rings().len();
        for ring in 0..rings as u8 {
            self.leave(ring);
        }
    }

    /// Frees the packets of all transmit lists. They are not written, and do not count as sent.
    pub fn flush_lists(&mut self)
        ensures { self.new ≡ record self.old { world = with_empty_outboxes self.old.world } }
    {
        let ports = self.context.env().ports().len();
        for port in 0..ports as u8 {
            self.drop_sent(port);
        }
    }

    /// Frees all packets in rings and transmit lists; those in rings count as left. Every buffer is free then.
    pub fn flush(&mut self)
        ensures empty { self.new ≡ flushed self.old }
        ensures free { live (between self.new.world) ≡ [] }
    {
        self.flush_rings();
        self.flush_lists();
    }
}
