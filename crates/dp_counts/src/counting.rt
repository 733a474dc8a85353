//! The counts of a run with the sources of its programs.

ghost use Rattle.std.specs.Prelude.{◌≡◌, IfOk, Some};
ghost use Rattle.dp_console.specs.Replies.{Says};
ghost use Rattle.dp_counts.specs.Counting.{HasNone};
ghost use Rattle.dp_counts.specs.Totals.{counts_text};
ghost use Rattle.dp_counts.specs.declared.levels.Levels.{Levels as HowFull};

use crate::counts::Counts;
use crate::listing::{say_pools, say_programs, say_rings, say_tables};
use crate::source::{NodeSource, ProgramText};
use dp_console::Text;
use dp_load::Pipeline;
use dp_model::Env;
use std::alloc::{AllocError, Global};

/// What is printed of the counts of a run.
#[derive(Clone, Copy)]
pub struct Wanted {
    /// The programs with the counts of each instruction, and the sums for each table, ring and pool.
    pub counts: bool,
    /// The counts by the lines of the sources.
    pub lines: bool,
    /// The places where packets ended without being sent.
    pub drops: bool,
}

impl Wanted {
    /// None of them.
    pub const NONE: Wanted = Wanted {
        counts: false,
        lines: false,
        drops: false,
    };
}

/// The counts of a run, and its programs.
#[derive(Drop)]
pub struct Counting<'a> {
    /// What was counted so far.
    pub counts: Counts,
    /// The sources, in the order of the nodes.
    pub sources: Vec<NodeSource<'a>>,
}

impl<'a> Counting<'a> {
    /// Makes the counts of a run of a pipeline, all zero. `programs` are the texts of its programs, in the order of its nodes.
    ///
    /// # Errors
    ///
    /// `AllocError` if memory is refused.
    pub fn of(
        alloc: Global,
        pipeline: &Pipeline,
        programs: &[ProgramText<'a>],
    ) -> Result<Counting<'a>, AllocError>
        ensures { IfOk result (λ counting. HasNone counting.counts) }
    {
        let mut counts = Counts::new(alloc)?;
        let mut sources = Vec::new(alloc);
        for k in 0..pipeline.nodes() {
            let node = pipeline.node(k);
            counts.add(node.entry(), node.program());
            if let Some(program) = programs.get(k) {
                sources.push(NodeSource::of(alloc, node.program(), *program)?)?;
            }
        }
        Ok(Counting { counts, sources })
    }

    /// Says the programs of a run with their counts, the sums for each table and each ring, and the least free buffers of each pool.
    #[tactic(auto, using(crate::proofs::Lines::says_both))]
    pub fn say(&self, env: &Env, out: &mut Text)
        ensures { (levels : HowFull) × Says out.old out.new
            (Some (counts_text self.now.counts levels env.now self.now.sources.items)) }
    {
        let (counts, sources) = (&self.counts, self.sources.as_slice());
        let levels = counts.levels();
        say_programs(counts, sources, out);
        say_tables(counts, env.tables(), sources, out);
        say_rings(counts, &levels, env.rings(), sources, out);
        say_pools(&levels, env.pools(), out);
    }
}
