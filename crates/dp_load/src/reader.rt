//! Reads a whole pipeline file from its table, or finds the first part with a bad key.

ghost use Rattle.std.specs.Prelude.{map};
ghost use Rattle.toml.specs.View.{table_view};
ghost use Rattle.dp_load.specs.Setup as spec;
ghost use Rattle.dp_load.specs.Views as view;

use crate::error::{Part, PipeError};
use crate::keys::elements_at;
use crate::parts::{ArrayPart, region_in};
use crate::setup::Setup;
use std::alloc::Global;
use toml::{Table, Value};

/// Reads the parts of an array, or finds the first with a bad key.
fn parts_in<'a, P: ArrayPart<'a> + Drop>(
    alloc: Global,
    part: Part,
    elements: &'a [Value],
) -> Result<Vec<P>, PipeError>
    ensures { view.Gives (λ v. map P.meaning v.items) result (spec.each part P.read 0 (view.values elements.now)) }
{
    let mut parts = Vec::new(alloc);
    for (index, element) in elements.iter().enumerate() {
        match P::in_element(element) {
            Some(one) => parts.push(one)?,
            None => return Err(PipeError::BadKey { part, index }),
        }
    }
    Ok(parts)
}

/// Reads the setup from a file's table, or finds the first part with a bad key: the top, then pools, tables, rings and ports.
pub fn setup_in<'a>(alloc: Global, top: &'a Table) -> Result<Setup<'a>, PipeError>
    ensures { view.Gives view.setup result (spec.setup_in (table_view top.now)) }
{
    let Some(region) = region_in(top) else {
        return Err(PipeError::BadKey {
            part: Part::Top,
            index: 0,
        });
    };
    let pools = parts_in(alloc, Part::Pool, elements_at(top, "pool"))?;
    let tables = parts_in(alloc, Part::Table, elements_at(top, "table"))?;
    let rings = parts_in(alloc, Part::Ring, elements_at(top, "ring"))?;
    let ports = parts_in(alloc, Part::Port, elements_at(top, "port"))?;
    Ok(Setup {
        region,
        pools,
        tables,
        rings,
        ports,
    })
}
