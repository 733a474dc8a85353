//! Runs a pipeline from captures to captures.

ghost use Rattle.std.specs.Prelude.{◌≡◌, length};
ghost use Rattle.dp_pipe.specs.Devices.{kind};
ghost use Rattle.dp_engine.specs.Engines.{IsAscending};
ghost use Rattle.dp_runs.specs.Lines.{IsRunLine};
ghost use Rattle.dp_runs.specs.Watching.{IsRunUnder};

use crate::closing::{Flushed, problem_of, run_captures};
use crate::reply::{Printing, reply_of};
use dp_captures::{CaptureNames, CaptureProblem, Inlet, Outlet};
use dp_counts::{Counting, Losses, Refusals, Wanted};
use dp_engine::{CompiledPrograms, Nothing, Silent};
use dp_load::Pipeline;
use std::alloc::{AllocError, Global};
use std::io::Write;

/// What watches a run.
#[derive(Drop)]
pub enum Watcher<'a> {
    /// Nothing.
    Silent(Silent),
    /// What counts refusals.
    Losses(Losses),
    /// What counts instructions, and refusals.
    Counting(Counting<'a>),
}

impl<'a> Watcher<'a> {
    /// A watcher that counts what a run of a pipeline is refused.
    ///
    /// # Errors
    ///
    /// `AllocError` if memory is refused.
    pub fn of_losses(alloc: Global, pipeline: &Pipeline) -> Result<Watcher<'a>, AllocError> {
        let mut losses = Losses::new(alloc)?;
        for k in 0..pipeline.nodes() {
            let node = pipeline.node(k);
            losses.add(node.entry(), node.program());
        }
        Ok(Watcher::Losses(losses))
    }

    /// The counts, if instructions were counted.
    pub fn counting(&self) -> Option<&Counting<'a>> {
        match self {
            Watcher::Counting(counting) => Some(counting),
            _ => None,
        }
    }

    /// How often each was refused.
    fn refusals(&self) -> Refusals {
        match self {
            Watcher::Silent(_) => Refusals::NONE,
            Watcher::Losses(losses) => losses.refusals(),
            Watcher::Counting(counting) => counting.counts.refusals(),
        }
    }
}

/// A run that has ended.
#[derive(Drop)]
pub struct Ran {
    /// Its result after its captures were written out.
    pub flushed: Flushed,
    /// What was refused, if that was counted.
    pub refusals: Refusals,
}

/// Runs a pipeline from captures to captures, one input and one output for each port, with these allocation calls refused, under a watcher, and writes
/// out what the outputs hold back. Programs that are among `K` run as machine code; nothing else depends on `K`.
pub fn run_over<K: CompiledPrograms, I: Inlet, O: Outlet>(
    alloc: Global,
    pipeline: Pipeline,
    ins: &mut [I],
    outs: &mut [O],
    pattern: Vec<u64>,
    watcher: &mut Watcher<'_>,
) -> Ran
    requires readers { length ins.old ≡ length pipeline.env.ports }
    requires writers { length outs.old ≡ length pipeline.env.ports }
    requires pattern { IsAscending 0 pattern.items }
    ensures { IsRunUnder watcher.old watcher.new pipeline pattern.items (kind I.remaining I.calls I.is_broken I.failures) ins.old ins.new
        (kind O.contents O.calls O.is_broken O.failures) O.taken outs.old outs.new result.flushed }
{
    let flushed = match watcher {
        Watcher::Silent(it) => run_captures::<K, _, I, O>(alloc, pipeline, ins, outs, pattern, it),
        Watcher::Losses(it) => run_captures::<K, _, I, O>(alloc, pipeline, ins, outs, pattern, it),
        Watcher::Counting(it) => {
            let it = &mut it.counts;
            run_captures::<K, _, I, O>(alloc, pipeline, ins, outs, pattern, it)
        }
    };
    let refusals = watcher.refusals();
    Ran { flushed, refusals }
}

/// What is wrong with the capture at which a run stopped, if it stopped at one.
pub fn problem_of_run<'a, I: Inlet>(
    names: &'a [CaptureNames],
    ins: &[I],
    ran: &Ran,
) -> Option<CaptureProblem<'a>> {
    let fault = ran.flushed.answer.as_ref().err()?;
    problem_of(names, ins, fault.cause, ran.flushed.failure)
}

/// Runs a pipeline from captures to captures, one input and one output for each port, with these allocation calls refused. Prints its report, even of a
/// run that stopped, and why it stopped, if it did. Returns the exit status: 0 if all was forwarded and written out, 4 for lack of memory, and else 3.
pub fn run_line<I: Inlet, O: Outlet, P: Write, E: Write>(
    alloc: Global,
    pipeline: Pipeline,
    ins: &mut [I],
    outs: &mut [O],
    pattern: Vec<u64>,
    out: &mut P,
    err: &mut E,
) -> u8
    requires readers { length ins.old ≡ length pipeline.env.ports }
    requires writers { length outs.old ≡ length pipeline.env.ports }
    requires pattern { IsAscending 0 pattern.items }
    ensures { IsRunLine pipeline pattern.items (kind I.remaining I.calls I.is_broken I.failures) ins.old ins.new
        (kind O.contents O.calls O.is_broken O.failures) O.taken outs.old outs.new (P.contents out.old) (P.contents out.new) (E.contents err.old)
        (E.contents err.new) result }
{
    let (env, silent) = (pipeline.env().copy(), &mut Silent);
    let flushed = run_captures::<Nothing, _, I, O>(alloc, pipeline, ins, outs, pattern, silent);
    let refusals = Refusals::NONE;
    let ran = Ran { flushed, refusals };
    let printing = Printing {
        env: &env,
        counting: None,
        wanted: Wanted::NONE,
        totals: false,
        is_json: false,
        is_stdout_taken: false,
        problem: problem_of_run(&[], ins, &ran),
        notes: None,
    };
    let reply = reply_of(alloc, &ran, &printing);
    reply.print(out, err)
}
