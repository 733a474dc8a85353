//! Looks up routes for a node run.
ghost use Rattle.std.specs.Prelude.{◌≡◌, ◌%◌, ◌^◌, ◌<◌, Some, length, option_map, slice_get};
ghost use Rattle.dp_model.specs.Prefixes.{hop_for};
ghost use Rattle.dp_engine.specs.Steps.{routes_of};

use dp_lpm::Tables;

// The hop of a table for the address in the low 32 bits of a number.
pub(crate) fn hop_in(tables: &Tables, table: u8, n: u64) -> Option<u32>
    requires { table < length tables.now }
    ensures { option_map (λ routes. hop_for routes (n % 2 ^ 32)) (slice_get (routes_of tables.now) table) ≡ Some result }
{
    tables.lookup(table, (n % 4294967296) as u32)
}
