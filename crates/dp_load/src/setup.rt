//! The setup of a pipeline file, borrowed from its TOML table, and the limits of numbers that no other crate has.

ghost use Rattle.std.specs.Prelude.{◌≤◌};
ghost use Rattle.dp_lpm.specs.declared.limits.TheConstants.{MAX_GROUPS, MAX_RULES};

use dp_model::{PoolSpec, PortSpec, RingSpec};
use toml::Value;

/// The largest number of bytes in a fact.
pub(crate) const MAX_COUNT: u32 = 65_535;

/// The largest `share` or `segs` that the reader accepts; `Env::new` tests the real ranges.
pub(crate) const MAX_SMALL: u32 = 255;

/// The file names of a node.
#[derive(Clone, Copy)]
pub struct NodeFiles<'a> {
    pub node: &'a str,
    pub cert: Option<&'a str>,
}

/// A `[[table]]`: the most rules and groups, and the texts of its routes.
#[derive(Clone, Copy)]
pub struct TablePart<'a> {
    pub rules: u32,
    pub groups: u32,
    pub routes: &'a [Value],
    ghost rules_fit: { rules ≤ MAX_RULES },
    ghost groups_fit: { groups ≤ MAX_GROUPS },
}

/// What a `[[ring]]` says.
#[derive(Clone, Copy)]
pub struct RingPart<'a> {
    pub spec: RingSpec,
    pub files: NodeFiles<'a>,
}

/// What a `[[port]]` says.
#[derive(Clone, Copy)]
pub struct PortPart<'a> {
    pub spec: PortSpec,
    pub files: NodeFiles<'a>,
    pub input: &'a str,
    pub output: &'a str,
}

/// All parts of a file; the region is in bytes.
#[derive(Drop)]
pub struct Setup<'a> {
    pub region: u32,
    pub pools: Vec<PoolSpec>,
    pub tables: Vec<TablePart<'a>>,
    pub rings: Vec<RingPart<'a>>,
    pub ports: Vec<PortPart<'a>>,
}
