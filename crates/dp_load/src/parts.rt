//! Reads each kind of part of a pipeline file from its table.

ghost use Rattle.std.specs.Prelude.{◌≡◌, ◌≤◌, Option, option_and_then, option_map, IfSome};
ghost use Rattle.dp_model.specs.declared.env.PoolSpec.{PoolSpec};
ghost use Rattle.toml.specs.Data.{Members, as_table, get_member};
ghost use Rattle.toml.specs.View.{view as data_of, table_view};
ghost use Rattle.dp_load.specs.Setup as spec;
ghost use Rattle.dp_load.specs.Views as view;

use crate::keys::{
    elements_of, has_only, is_tables, is_texts, number_at, text_at, text_if_any, value_at,
};
use crate::setup::{MAX_COUNT, MAX_SMALL, NodeFiles, PortPart, RingPart, TablePart};
use dp_lpm::{MAX_GROUPS, MAX_RULES};
use dp_model::{Fact, PoolSpec, PortSpec, RingSpec};
use dp_region::{CACHE_LINE, MAX_REGION, MIN_REGION};
use toml::{Table, Value};

/// Reads a `[[pool]]`; none if a key or a value is wrong.
fn pool_in(table: &Table) -> Option<PoolSpec>
    ensures { result ≡ spec.pool_in (table_view table.now) }
{
    if !has_only(table, &["count", "cache", "room"]) {
        return None;
    }
    match (
        number_at(table, "count", u32::MAX),
        number_at(table, "cache", u32::MAX),
        number_at(table, "room", u32::MAX),
    ) {
        (Some(count), Some(cache), Some(room)) => Some(PoolSpec { count, cache, room }),
        _ => None,
    }
}

/// The maximum number of rules of a table of routes, at least 1.
fn rules_in(table: &Table) -> Option<u32>
    ensures number { result ≡ spec.rules_in (table_view table.now) }
    ensures most { IfSome result (λ n. n ≤ MAX_RULES) }
{
    match number_at(table, "rules", MAX_RULES) {
        Some(rules) if rules >= 1 => Some(rules),
        _ => None,
    }
}

/// The elements of the array of texts at a key.
fn texts_at<'a>(table: &'a Table, key: &str) -> Option<&'a [Value]>
    ensures { option_map (λ texts. view.values texts.now) result ≡ spec.texts_at key.now (table_view table.now) }
{
    match value_at(table, key) {
        Some(value) if is_texts(value) => Some(elements_of(value)),
        _ => None,
    }
}

/// Reads a `[[table]]`; none if a key or a value is wrong.
fn table_in(table: &Table) -> Option<TablePart<'_>>
    ensures { option_map view.table_part result ≡ spec.table_in (table_view table.now) }
{
    if !has_only(table, &["rules", "groups", "routes"]) {
        return None;
    }
    match (
        rules_in(table),
        number_at(table, "groups", MAX_GROUPS),
        texts_at(table, "routes"),
    ) {
        (Some(rules), Some(groups), Some(routes)) => Some(TablePart {
            rules,
            groups,
            routes,
        }),
        _ => None,
    }
}

/// Reads the file names of a node.
fn node_files_in(table: &Table) -> Option<NodeFiles<'_>>
    ensures { option_map view.node_files result ≡ spec.node_files_in (table_view table.now) }
{
    match (text_at(table, "node"), text_if_any(table, "cert")) {
        (Some(node), Some(cert)) => Some(NodeFiles { node, cert }),
        _ => None,
    }
}

/// Reads the fact that each packet of a ring satisfies.
fn fact_in(table: &Table) -> Option<Fact>
    ensures { result ≡ spec.fact_in (table_view table.now) }
{
    match (
        number_at(table, "share", MAX_SMALL),
        number_at(table, "head", MAX_COUNT),
        number_at(table, "tail", MAX_COUNT),
        number_at(table, "first", MAX_COUNT),
        number_at(table, "last", MAX_COUNT),
        number_at(table, "segs", MAX_SMALL),
    ) {
        (Some(share), Some(head), Some(tail), Some(first), Some(last), Some(segs)) => {
            Some(Fact::Held {
                share: share as u8,
                head: head as u16,
                tail: tail as u16,
                first: first as u16,
                last: last as u16,
                segs: segs as u8,
            })
        }
        _ => None,
    }
}

fn ring_spec_in(table: &Table) -> Option<RingSpec>
    ensures { result ≡ spec.ring_spec_in (table_view table.now) }
{
    match (number_at(table, "count", u32::MAX), fact_in(table)) {
        (Some(count), Some(fact)) => Some(RingSpec { count, fact }),
        _ => None,
    }
}

/// Reads a `[[ring]]`; none if a key or a value is wrong.
fn ring_in(table: &Table) -> Option<RingPart<'_>>
    ensures { option_map view.ring_part result ≡ spec.ring_in (table_view table.now) }
{
    let keys = [
        "count", "share", "head", "tail", "first", "last", "segs", "node", "cert",
    ];
    if !has_only(table, &keys) {
        return None;
    }
    match (ring_spec_in(table), node_files_in(table)) {
        (Some(spec), Some(files)) => Some(RingPart { spec, files }),
        _ => None,
    }
}

fn port_spec_in(table: &Table) -> Option<PortSpec>
    ensures { result ≡ spec.port_spec_in (table_view table.now) }
{
    match (
        number_at(table, "pool", u32::MAX),
        number_at(table, "segs", MAX_SMALL),
        number_at(table, "queue", u32::MAX),
    ) {
        (Some(pool), Some(segs), Some(queue)) => Some(PortSpec { pool, segs, queue }),
        _ => None,
    }
}

/// Reads a `[[port]]`; none if a key or a value is wrong.
fn port_in(table: &Table) -> Option<PortPart<'_>>
    ensures { option_map view.port_part result ≡ spec.port_in (table_view table.now) }
{
    let keys = ["pool", "segs", "queue", "node", "cert", "in", "out"];
    if !has_only(table, &keys) {
        return None;
    }
    match (
        port_spec_in(table),
        node_files_in(table),
        text_at(table, "in"),
        text_at(table, "out"),
    ) {
        (Some(spec), Some(files), Some(input), Some(output)) => Some(PortPart {
            spec,
            files,
            input,
            output,
        }),
        _ => None,
    }
}

/// Whether a key has an array of tables, or is missing.
fn has_tables(table: &Table, key: &str) -> bool
    ensures { result ≡ spec.is_tables (get_member key.now (table_view table.now)) }
{
    match value_at(table, key) {
        Some(value) => is_tables(value),
        None => true,
    }
}

/// Whether the top has only known keys, and arrays of tables at the keys that may have them.
fn is_top(top: &Table) -> bool
    ensures { result ≡ spec.is_top (table_view top.now) }
{
    has_only(top, &["region", "pool", "table", "ring", "port"])
        && has_tables(top, "pool")
        && has_tables(top, "table")
        && has_tables(top, "ring")
        && has_tables(top, "port")
}

/// Reads the size of the region in bytes, if no key at the top is bad.
pub fn region_in(top: &Table) -> Option<u32>
    ensures { result ≡ spec.region_in (table_view top.now) }
{
    if !is_top(top) {
        return None;
    }
    match number_at(top, "region", MAX_REGION) {
        Some(region) if region >= MIN_REGION && region % CACHE_LINE == 0 => Some(region),
        _ => None,
    }
}

/// A part that a file has an array of: a pool, a table, a ring or a port.
pub trait ArrayPart<'a>: Sized {
    // The part's specification value, and its parser.
    ghost Meaning: { Type 0 };

    ghost meaning: { Self → Meaning };

    ghost read: { Members → Option Meaning };

    /// Reads an element of the array as such a part; nothing if it has a bad key.
    fn in_element(element: &'a Value) -> Option<Self>
        ensures { option_map meaning result ≡ option_and_then read (as_table (data_of element.now)) };
}

impl<'a> ArrayPart<'a> for PoolSpec {
    ghost Meaning = { PoolSpec };

    ghost meaning = { λ pool. pool };

    ghost read = { spec.pool_in };

    fn in_element(element: &'a Value) -> Option<PoolSpec> {
        match element.as_table() {
            Some(table) => pool_in(table),
            None => None,
        }
    }
}

impl<'a> ArrayPart<'a> for TablePart<'a> {
    ghost Meaning = { spec.TablePart };

    ghost meaning = { view.table_part };

    ghost read = { spec.table_in };

    fn in_element(element: &'a Value) -> Option<TablePart<'a>> {
        match element.as_table() {
            Some(table) => table_in(table),
            None => None,
        }
    }
}

impl<'a> ArrayPart<'a> for RingPart<'a> {
    ghost Meaning = { spec.RingPart };

    ghost meaning = { view.ring_part };

    ghost read = { spec.ring_in };

    fn in_element(element: &'a Value) -> Option<RingPart<'a>> {
        match element.as_table() {
            Some(table) => ring_in(table),
            None => None,
        }
    }
}

impl<'a> ArrayPart<'a> for PortPart<'a> {
    ghost Meaning = { spec.PortPart };

    ghost meaning = { view.port_part };

    ghost read = { spec.port_in };

    fn in_element(element: &'a Value) -> Option<PortPart<'a>> {
        match element.as_table() {
            Some(table) => port_in(table),
            None => None,
        }
    }
}
