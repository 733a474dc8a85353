//! The bytes of a region that are not lent, and the rights to give lent spans back. Neither exists when the program runs.
ghost use Rattle.std.specs.Prelude.{◌≡◌, ℕ, ◌+◌, ◌^◌, ◌<◌, ◌≤◌, true, List, [], length};
ghost use Rattle.dp_region.specs.Spans.{Span, listed, IsUnlent, with_span, without_span, Spaced, bytes_in, with_bytes};
ghost use Rattle.dp_region.specs.Ownership.{Home, ptr_at, ticket, cells_own, cells_shared};

use super::Run;
use std::marker::Model;
use std::slice;

// The bytes of `bytes` that lie in no span of `lent`.
pub(crate) struct Cells {
    ghost home: { Home },
    ghost bytes: { List ℕ },
    ghost lent: { List Span },
    ghost ok: { Spaced 0 (length bytes) lent × (length bytes < 2 ^ 63) },
}

impl Model for Cells {
    ghost also_owns = { λ c. cells_own c.home c.lent c.bytes };

    ghost also_shares = { λ c _ κ. cells_shared c.home c.lent c.bytes κ };
}

// The right to give one lent span back. There is exactly one for each.
pub(crate) struct Ticket {
    ghost home: { Home },
    ghost offset: { ℕ },
    ghost len: { ℕ },
}

impl Model for Ticket {
    ghost also_owns = { λ t. ticket t.home (t.offset, t.len) };
}

impl Cells {
    pub(crate) fn new(run: Run) -> Cells
        requires { length run.bytes < 2 ^ 63 }
        ensures { (run.start ≡ ptr_at result.home 0) × (result.bytes ≡ run.bytes) × (result.lent ≡ []) }
    {
        let Run {} = run;
        Cells {}
    }

    pub(crate) fn into_run(self) -> Run
        requires { self.lent ≡ [] }
        ensures { (result.start ≡ ptr_at self.home 0) × (result.bytes ≡ self.bytes) }
    {
        let Cells {} = self;
        Run {}
    }

    pub(crate) fn take(self, offset: usize, len: usize) -> (Cells, Run, Ticket)
        requires { (0 < len) × (offset + len ≤ length self.bytes) × IsUnlent self.lent offset len }
        ensures { (result.0.home ≡ self.home) × (result.0.bytes ≡ self.bytes)
            × (result.0.lent ≡ with_span (offset, len) self.lent)
            × (result.1.start ≡ ptr_at self.home offset)
            × (result.1.bytes ≡ bytes_in self.bytes offset len)
            × (result.2.home ≡ self.home) × (result.2.offset ≡ offset) × (result.2.len ≡ len) }
    {
        let Cells {} = self;
        (Cells {}, Run {}, Ticket {})
    }

    pub(crate) fn give(self, run: Run, ticket: Ticket) -> Cells
        requires { (ticket.home ≡ self.home) × (run.start ≡ ptr_at self.home ticket.offset)
            × (length run.bytes ≡ ticket.len) }
        ensures { (listed (ticket.offset, ticket.len) self.lent ≡ true) × (result.home ≡ self.home)
            × (result.bytes ≡ with_bytes self.bytes ticket.offset run.bytes)
            × (result.lent ≡ without_span (ticket.offset, ticket.len) self.lent) }
    {
        let Run {} = run;
        let Ticket {} = ticket;
        let Cells {} = self;
        Cells {}
    }

    pub(crate) fn view(&self, ptr: *const u8, offset: usize, len: usize) -> &[u8]
        requires { (ptr ≡ ptr_at self.now.home offset)
            × (offset + len ≤ length self.now.bytes) × IsUnlent self.now.lent offset len }
        ensures { result.now ≡ bytes_in self.now.bytes offset len }
    {
        let _ = offset;
        unsafe { slice::from_raw_parts(ptr, len) }
    }
}
