//! What is known of a run, as documents of facts, which tools/views puts into words. A pool, a port and a ring are lists of numbers, of which tools/views
//! has the names.

use crate::reply::{Printing, StopText, status_of};
use crate::run::Ran;
use dp_console::{Document, Item, Text};
use dp_counts::{Counting, Levels, Refusals};
use dp_engine::{InputState, Report};
use dp_pipe::RunFault;
use std::alloc::Global;

/// What is known about a run that its report does not have.
#[derive(Clone, Copy)]
pub struct Notes {
    /// Whether a number could be raised in a pipeline file, and whether that of some could be by options.
    pub is_in_file: bool,
    pub is_in_options: bool,
    /// The size of the pipeline's region, and the bytes that it needs.
    pub region: u64,
    pub needed: u64,
    /// For each port, how many records were cut by the capture's snap length.
    pub truncated: [u64; 8],
}

impl Notes {
    /// Nothing is known.
    const NONE: Notes = Notes {
        is_in_file: false,
        is_in_options: false,
        region: 0,
        needed: 0,
        truncated: [0; 8],
    };

    /// Whether a run with this report lost something, or had too small a region to begin.
    pub(crate) fn are_of_loss(&self, report: &Report, refusals: Refusals) -> bool {
        let Refusals {
            lists,
            rings,
            pools,
        } = refusals;
        self.region < self.needed
            || report.cut > 0
            || self.truncated != [0; 8]
            || lists != [0; 8]
            || rings != [0; 8]
            || pools != [0; 8]
            || report.rings.as_slice().iter().any(|left| *left > 0)
            || report.ports.as_slice().iter().any(|port| {
                port.nobuf > 0 || port.oversize > 0 || matches!(port.state, InputState::Cut(_))
            })
    }
}

/// The levels of a run that was not counted.
const NO_LEVELS: Levels = Levels {
    waited: [0; 8],
    free: [0; 8],
};

/// Adds the fault at which a run stopped, or that it did not.
fn write_fault(answer: &Result<Report, RunFault>, to: &mut Document) {
    match answer {
        Ok(_) => to.item("fault", Item::Null),
        Err(fault) => {
            to.begin_object("fault");
            to.item("status", Item::Number(u64::from(status_of(answer))));
            to.shown("text", StopText(fault.cause));
            to.end_object();
        }
    }
}

impl Printing<'_, '_> {
    /// Adds the pools.
    fn write_pools(&self, report: &Report, refused: [u64; 8], least: [u32; 8], to: &mut Document) {
        to.begin_list("pools");
        for k in 0..8 {
            if let Some(pool) = report.pools.as_slice().get(k)
                && let Some(own) = self.env.pools().get(k)
            {
                let (least, room) = (u64::from(least[k]), u64::from(own.room));
                to.numbers("", &[pool.count, pool.free, least, refused[k], room]);
            }
        }
        to.end_list();
    }

    /// Adds the ports.
    fn write_ports(&self, report: &Report, full: [u64; 8], truncated: [u64; 8], to: &mut Document) {
        to.begin_list("ports");
        for k in 0..8 {
            if let Some(port) = report.ports.as_slice().get(k)
                && let Some(own) = self.env.ports().get(k)
            {
                let (input, cut_at) = match port.state {
                    InputState::Whole => (0, 0),
                    InputState::Cut(byte) => (1, byte),
                    InputState::Open => (2, 0),
                };
                let numbers = [
                    cut_at,
                    full[k],
                    input,
                    port.nobuf,
                    port.oversize,
                    u64::from(own.pool),
                    u64::from(own.queue),
                    port.received,
                    u64::from(own.segs),
                    port.sent,
                    truncated[k],
                ];
                to.numbers("", &numbers);
            }
        }
        to.end_list();
    }

    /// Adds the rings.
    fn write_rings(&self, report: &Report, full: [u64; 8], most: [u32; 8], to: &mut Document) {
        to.begin_list("rings");
        for k in 0..8 {
            if let Some(left) = report.rings.as_slice().get(k)
                && let Some(own) = self.env.rings().get(k)
            {
                let (count, most) = (u64::from(own.count), u64::from(most[k]));
                to.numbers("", &[count, full[k], *left, most]);
            }
        }
        to.end_list();
    }

    /// Says what is known of the run with this report as the document of this name, with the counts of its programs, if they are given.
    pub(crate) fn say_facts(
        &self,
        alloc: Global,
        view: &str,
        ran: &Ran,
        report: &Report,
        counting: Option<&Counting<'_>>,
        out: &mut Text,
    ) {
        let (mut to, wanted, refusals) = (Document::new(alloc), self.wanted, ran.refusals);
        let (mut levels, notes) = (NO_LEVELS, self.notes.unwrap_or(Notes::NONE));
        to.begin_object("");
        to.item("view", Item::Text(view));
        to.item("calls", Item::Number(report.calls));
        to.item("counts", Item::Bool(wanted.counts));
        to.item("cut", Item::Number(report.cut));
        to.item("drops", Item::Bool(wanted.drops));
        write_fault(&ran.flushed.answer, &mut to);
        to.item("in_file", Item::Bool(notes.is_in_file));
        to.item("in_options", Item::Bool(notes.is_in_options));
        to.item("lines", Item::Bool(wanted.lines));
        to.item("needed", Item::Number(notes.needed));
        if let Some(counting) = counting {
            levels = counting.counts.levels();
            counting.write(&mut to);
        }
        self.write_pools(report, refusals.pools, levels.free, &mut to);
        self.write_ports(report, refusals.lists, notes.truncated, &mut to);
        to.item("refused", Item::Number(report.refused));
        to.item("region", Item::Number(notes.region));
        self.write_rings(report, refusals.rings, levels.waited, &mut to);
        to.item("tables", Item::Number(u64::from(self.env.tables())));
        to.end_object();
        to.say_to(out);
    }
}
