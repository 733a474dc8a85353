//! Reads the values at the keys of a TOML table.

ghost use Rattle.std.specs.Prelude.{◌≡◌, ◌≤◌, map, string_bytes, IfSome, option_map, option_and_then};
ghost use Rattle.std.specs.List.{list_all, list_any};
ghost use Rattle.std.specs.Map.{keys_of};
ghost use Rattle.std.specs.Str.{bytes_eq};
ghost use Rattle.toml.specs.Data.{as_integer, get_member};
ghost use Rattle.toml.specs.View.{view, table_view};
ghost use Rattle.dp_load.specs.Keys as spec;

use toml::{Table, Value};

/// Looks up the value at a key.
pub fn value_at<'a>(table: &'a Table, key: &str) -> Option<&'a Value>
    ensures { option_map (λ v. view v.now) result ≡ get_member key.now (table_view table.now) }
{
    table.get(key)
}

fn is_among(keys: &[&str], key: &str) -> bool
    ensures { result ≡ list_any (λ known. bytes_eq known.now key.now) keys.now }
{
    keys.iter().any(|known| *known == key)
}

fn are_among(table: &Table, keys: &[&str]) -> bool
    ensures { result ≡ list_all (λ key. list_any (λ known. bytes_eq known.now (string_bytes key)) keys.now) (keys_of table.now.entries) }
{
    table.keys().all(|key| is_among(keys, key.as_str()))
}

/// Whether each key of a table is in the list.
pub fn has_only(table: &Table, keys: &[&str]) -> bool
    ensures { result ≡ spec.has_only (map (λ known. known.now) keys.now) (table_view table.now) }
{
    are_among(table, keys)
}

fn integer_at(table: &Table, key: &str) -> Option<i64>
    ensures { result ≡ option_and_then as_integer (get_member key.now (table_view table.now)) }
{
    match value_at(table, key) {
        Some(value) => value.as_integer(),
        None => None,
    }
}

/// Reads the integer at a key, from 0 to `most`.
pub fn number_at(table: &Table, key: &str, most: u32) -> Option<u32>
    ensures number { result ≡ spec.number_at key.now most (table_view table.now) }
    ensures most { IfSome result (λ n. n ≤ most) }
{
    match integer_at(table, key) {
        Some(n) if 0 <= n && n <= i64::from(most) => Some(n as u32),
        _ => None,
    }
}

/// Reads the string at a key.
pub fn text_at<'a>(table: &'a Table, key: &str) -> Option<&'a str>
    ensures { option_map (λ s. s.now) result ≡ spec.text_at key.now (table_view table.now) }
{
    match value_at(table, key) {
        Some(value) => value.as_str(),
        None => None,
    }
}

/// Reads the string at an optional key; nothing if the value is not a string.
pub fn text_if_any<'a>(table: &'a Table, key: &str) -> Option<Option<&'a str>>
    ensures { option_map (option_map (λ s. s.now)) result ≡ spec.text_if_any (get_member key.now (table_view table.now)) }
{
    match value_at(table, key) {
        None => Some(None),
        Some(value) => match value.as_str() {
            Some(text) => Some(Some(text)),
            None => None,
        },
    }
}

/// The elements of a value; none if it is not an array.
pub fn elements_of(value: &Value) -> &[Value]
    ensures { map view result.now ≡ spec.elements_of (view value.now) }
{
    match value.as_array() {
        Some(elements) => elements.as_slice(),
        None => &[],
    }
}

/// The elements of the array at a key; none if there is no array.
pub fn elements_at<'a>(table: &'a Table, key: &str) -> &'a [Value]
    ensures { map view result.now ≡ spec.elements_at key.now (table_view table.now) }
{
    match value_at(table, key) {
        Some(value) => elements_of(value),
        None => &[],
    }
}

fn are_texts(values: &[Value]) -> bool
    ensures { result ≡ list_all (λ v. spec.is_text (view v)) values.now }
{
    values.iter().all(|value| value.is_str())
}

/// Whether a value is an array of texts.
pub fn is_texts(value: &Value) -> bool
    ensures { result ≡ spec.is_array_of spec.is_text (view value.now) }
{
    value.is_array() && are_texts(elements_of(value))
}

fn are_tables(values: &[Value]) -> bool
    ensures { result ≡ list_all (λ v. spec.is_table (view v)) values.now }
{
    values.iter().all(|value| value.is_table())
}

/// Whether a value is an array of tables.
pub fn is_tables(value: &Value) -> bool
    ensures { result ≡ spec.is_array_of spec.is_table (view value.now) }
{
    value.is_array() && are_tables(elements_of(value))
}
