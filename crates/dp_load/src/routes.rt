//! Parses routes, and adds them to tables.

ghost use Rattle.std.specs.Prelude.{◌≡◌, ◌≤◌, ◌<◌, ◌^◌, ◌==◌, length, position, IfSome, IfErr, OnOk, IsTrue};
ghost use Rattle.std.specs.Char.{is_ascii_digit};
ghost use Rattle.std.specs.List.{list_all};
ghost use Rattle.toml.specs.View.{view};
ghost use Rattle.dp_lpm.specs.Routes.{HasSmallHops};
ghost use Rattle.dp_load.specs.Routes as spec;
ghost use Rattle.dp_load.specs.Views.{values};

use crate::error::RouteError;
use dp_lpm::Lpm;
use toml::Value;

/// A route as a file has it: an address, the number of its bits that count, and the hop.
#[derive(Clone, Copy)]
pub struct Route {
    pub ip: u32,
    pub depth: u32,
    pub hop: u32,
}

fn are_digits(text: &[u8]) -> bool
    ensures { result ≡ list_all is_ascii_digit text.now }
{
    text.iter().all(|b| b.is_ascii_digit())
}

/// Parses decimal digits as a number.
fn decimal(digits: &[u8]) -> u32
    requires few { length digits.now ≤ 8 }
    requires digits { IsTrue (list_all is_ascii_digit digits.now) }
    ensures value { result ≡ spec.decimal_after 0 digits.now }
    ensures below { result < 10 ^ length digits.now }
{
    let mut value = 0;
    for digit in digits {
        value = value * 10 + u32::from(*digit - b'0');
    }
    value
}

/// Parses 1 to `most` decimal digits as a number.
fn number_in(most: usize, digits: &[u8]) -> Option<u32>
    requires { most ≤ 8 }
    ensures value { result ≡ spec.number_in most digits.now }
    ensures below { IfSome result (λ n. n < 10 ^ most) }
{
    if digits.len() >= 1 && digits.len() <= most && are_digits(digits) {
        Some(decimal(digits))
    } else {
        None
    }
}

/// Parses one byte of an address.
fn byte_in(digits: &[u8]) -> Option<u32>
    ensures value { result ≡ spec.byte_in digits.now }
    ensures most { IfSome result (λ n. n ≤ 255) }
{
    match number_in(3, digits) {
        Some(n) if n <= 255 => Some(n),
        _ => None,
    }
}

fn offset_of(byte: u8, text: &[u8]) -> Option<usize>
    ensures { result ≡ position (λ b. b == byte) text.now }
{
    text.iter().position(|b| *b == byte)
}

/// Splits a text at the first occurrence of a byte. Without one, the first part is the whole text and the second is empty.
fn cut(byte: u8, text: &[u8]) -> (&[u8], &[u8])
    ensures before { result.0.now ≡ spec.before byte text.now }
    ensures after { result.1.now ≡ spec.after byte text.now }
{
    match offset_of(byte, text) {
        None => (text, &[]),
        Some(at) => (&text[..at], &text[at + 1..]),
    }
}

/// Parses an address, `A.B.C.D`.
fn address_in(text: &[u8]) -> Option<u32>
    ensures { result ≡ spec.address_in text.now }
{
    let (a, rest) = cut(b'.', text);
    let (b, rest) = cut(b'.', rest);
    let (c, d) = cut(b'.', rest);
    match (byte_in(a), byte_in(b), byte_in(c), byte_in(d)) {
        (Some(a), Some(b), Some(c), Some(d)) => Some(((a * 256 + b) * 256 + c) * 256 + d),
        _ => None,
    }
}

/// Parses a route, `A.B.C.D/DEPTH HOP`.
pub fn route_in(text: &[u8]) -> Option<Route>
    ensures value { result ≡ spec.route_in text.now }
    ensures depth { IfSome result (λ route. route.depth ≤ 255) }
{
    let (prefix, hop) = cut(b' ', text);
    let (address, depth) = cut(b'/', prefix);
    match (address_in(address), number_in(2, depth), number_in(8, hop)) {
        (Some(ip), Some(depth), Some(hop)) => Some(Route { ip, depth, hop }),
        _ => None,
    }
}

/// Reads the route in a value of a file.
fn route_of(value: &Value) -> Option<Route>
    ensures value { result ≡ spec.route_of (view value.now) }
    ensures depth { IfSome result (λ route. route.depth ≤ 255) }
{
    match value.as_str() {
        Some(text) => route_in(text.as_bytes()),
        None => None,
    }
}

/// Adds a value to a table as a route.
fn add_route(table: &mut Lpm, value: &Value) -> Result<(), RouteError>
    ensures ok { OnOk result (spec.Takes table.old table.new (view value.now)) }
    ensures refused { IfErr result (λ cause. spec.refusal table.old (spec.route_of (view value.now)) ≡ Some cause) }
    ensures hops { HasSmallHops table.old → HasSmallHops table.new }
{
    let Some(route) = route_of(value) else {
        return Err(RouteError::Unreadable);
    };
    match table.add(route.ip, route.depth as u8, route.hop) {
        Ok(()) => Ok(()),
        Err(cause) => Err(RouteError::Refused(cause)),
    }
}

/// Adds values to a table as routes, in order, up to the first that is refused; returns its index, and why.
pub fn add_routes(table: &mut Lpm, routes: &[Value]) -> Result<(), (usize, RouteError)>
    ensures ok { OnOk result (spec.TakesAll table.old table.new (values routes.now)) }
    ensures refused { IfErr result (λ e. spec.IsFirstRefused table.old (values routes.now) e.0 e.1) }
    ensures hops { HasSmallHops table.old → HasSmallHops table.new }
{
    for (index, value) in routes.iter().enumerate() {
        if let Err(cause) = add_route(table, value) {
            return Err((index, cause));
        }
    }
    Ok(())
}
