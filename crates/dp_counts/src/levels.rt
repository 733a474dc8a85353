//! How full rings and how empty pools were.

use dp_engine::View;
use dp_model::Entry;

/// How full rings were at the ends of node runs, and how many buffers were free after each allocation call.
#[derive(Clone, Copy)]
pub struct Levels {
    /// The greatest number of packets that waited in each ring; 0 if there is no such ring.
    pub waited: [u32; 8],
    /// The least number of buffers of each pool that were free; `u32::MAX` if there is no such pool, and before an allocation call.
    pub free: [u32; 8],
}

/// Tracks levels, and looks only when they can have changed: a pool has fewer free buffers only after an allocation call, and no packet leaves
/// a ring within a node run, so it is fullest at the end.
#[derive(Clone, Copy)]
pub(crate) struct Gauge {
    pub(crate) levels: Levels,
    /// How many allocation calls there were when the pools were last looked at; first a number that there never is.
    calls: u64,
}

impl Gauge {
    /// Nothing was seen yet.
    pub(crate) const NEW: Gauge = Gauge {
        levels: Levels {
            waited: [0; 8],
            free: [u32::MAX; 8],
        },
        calls: u64::MAX,
    };

    // Reads how many buffers of each pool are free.
    #[inline(never)]
    fn note_pools(&mut self, view: &View<'_>) {
        self.calls = view.calls();
        for k in 0..8u8 {
            let Some(free) = view.free(u32::from(k)) else {
                return;
            };
            let least = &mut self.levels.free[usize::from(k)];
            *least = free.min(*least);
        }
    }

    /// Looks after an instruction: if it was an allocation call, at the pools.
    #[inline(always)]
    pub(crate) fn note_step(&mut self, view: &View<'_>) {
        if view.calls() != self.calls {
            self.note_pools(view);
        }
    }

    /// Looks at the beginning of a node run of this node: there is a call for the record of a port.
    #[inline(always)]
    pub(crate) fn note_begin(&mut self, node: Entry, view: &View<'_>) {
        match node {
            Entry::Port(_) => self.note_pools(view),
            Entry::Ring(_) => self.note_step(view),
        }
    }

    /// Looks at the end of a node run, also at how full each ring is.
    #[inline(always)]
    pub(crate) fn note_end(&mut self, view: &View<'_>) {
        self.note_step(view);
        for k in 0..8u8 {
            let Some(waiting) = view.waiting(k) else {
                return;
            };
            let most = &mut self.levels.waited[usize::from(k)];
            *most = waiting.max(*most);
        }
    }
}
