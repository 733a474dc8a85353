//! Takes what a run needs before it reads anything: its memory, and an open engine.

ghost use Rattle.std.specs.Prelude.{◌≡◌, ◌<◌, ◌≤◌, [], length, IfOk, IfErr, OnOk, vec_len};
ghost use Rattle.dp_engine.specs.Needs.{bytes_needed};
ghost use Rattle.std.specs.Vec.{vec_capacity};
ghost use Rattle.dp_engine.specs.Engines.{IsAscending};
ghost use Rattle.dp_pipe.specs.Running.{IsFirst, IsUnopened};

use crate::forwarding::{InputProgress, RunCause};
use dp_engine::{CompiledPrograms, Engine, need};
use dp_load::Pipeline;
use dp_pcap::MAX_RECORD;
use dp_region::Region;
use std::alloc::Global;

/// Tests whether the region of a pipeline has as many bytes as its engine needs.
///
/// # Errors
///
/// [`RunCause::NoRoom`] if it has fewer.
fn ask_room(pipeline: &Pipeline) -> Result<(), RunCause>
    ensures room { OnOk result (bytes_needed pipeline.now.env ≤ pipeline.now.region) }
    ensures refused { IfErr result (λ cause. (cause ≡ RunCause.NoRoom) × (pipeline.now.region < bytes_needed pipeline.now.env)) }
{
    if u64::from(pipeline.region()) < need(pipeline.env()) {
        return Err(RunCause::NoRoom);
    }
    Ok(())
}

/// Opens the engine of a pipeline in a region of its own, with the pattern of allocation calls to refuse.
///
/// # Errors
///
/// [`RunCause::NoRoom`] exactly if the region is smaller than the engine needs, else [`RunCause::Memory`] if the region is
/// refused.
pub fn engine_of<K: CompiledPrograms>(
    alloc: Global,
    pipeline: Pipeline,
    pattern: Vec<u64>,
) -> Result<Engine<K>, RunCause>
    requires pattern { IsAscending 0 pattern.items }
    ensures engine { IfOk result (λ e. IsFirst pipeline pattern.items e) }
    ensures few { IfOk result (λ e. length e.setting.env.ports ≤ 8) }
    ensures err { IfErr result (IsUnopened pipeline) }
{
    ask_room(&pipeline)?;
    let Ok(region) = Region::new(alloc, pipeline.region()) else {
        return Err(RunCause::Memory);
    };
    let (env, tables, nodes) = pipeline.into_parts();
    match Engine::<K>::open(region, &env, tables, nodes) {
        Ok(mut engine) => {
            engine.refuse(pattern);
            Ok(engine)
        }
        Err(_) => unreachable!(),
    }
}

/// Opens the engine of a pipeline, with the pattern of calls to refuse, an empty list with room for its inputs, and a buffer for a record.
pub(crate) fn opened<K: CompiledPrograms>(
    alloc: Global,
    pipeline: Pipeline,
    pattern: Vec<u64>,
) -> Result<(Engine<K>, Vec<InputProgress>, Vec<u8>), RunCause>
    requires pattern { IsAscending 0 pattern.items }
    ensures engine { IfOk result (λ r. IsFirst pipeline pattern.items r.0) }
    ensures few { IfOk result (λ r. length r.0.setting.env.ports ≤ 8) }
    ensures none { IfOk result (λ r. (r.1.items ≡ []) × (vec_len r.1 ≡ 0)) }
    ensures room { IfOk result (λ r. 8 ≤ vec_capacity r.1) }
    ensures buf { IfOk result (λ r. MAX_RECORD ≤ length r.2.items) }
    ensures err { IfErr result (IsUnopened pipeline) }
{
    // This is tested before any memory is requested.
    ask_room(&pipeline)?;
    let Ok(inputs) = Vec::with_capacity(alloc, 8) else {
        return Err(RunCause::Memory);
    };
    let Ok(buf) = vec![in alloc; 0u8; MAX_RECORD] else {
        return Err(RunCause::Memory);
    };
    let engine = engine_of::<K>(alloc, pipeline, pattern)?;
    Ok((engine, inputs, buf))
}
