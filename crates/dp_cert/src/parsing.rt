//! Parses one 153-byte row of a certificate.

ghost use Rattle.std.specs.Prelude.{◌≡◌, ◌≤◌, length};
ghost use Rattle.dp_cert.specs.Reading as spec;

use dp_model::{Fact, Row};

#[tactic(auto, unfolding(crate::specs::Reading::fact_in))]
fn fact_in(bytes: &[u8]) -> Fact
    requires { length bytes.now ≡ 11 }
    ensures { result ≡ spec.fact_in bytes.now }
{
    if bytes[0] == 0 {
        return Fact::Empty;
    }
    Fact::Held {
        share: bytes[1],
        head: u16::from_be_bytes([bytes[2], bytes[3]]),
        tail: u16::from_be_bytes([bytes[4], bytes[5]]),
        first: u16::from_be_bytes([bytes[6], bytes[7]]),
        last: u16::from_be_bytes([bytes[8], bytes[9]]),
        segs: bytes[10],
    }
}

#[tactic(auto, unfolding(crate::specs::Reading::bound_in))]
fn bound_in(bytes: &[u8]) -> u64
    requires { length bytes.now ≡ 8 }
    ensures { result ≡ spec.bound_in bytes.now }
{
    u64::from_be_bytes([
        bytes[0], bytes[1], bytes[2], bytes[3], bytes[4], bytes[5], bytes[6], bytes[7],
    ])
}

fn facts_in(bytes: &[u8]) -> [Fact; 8]
    requires { 88 ≤ length bytes.now }
    ensures { result ≡ spec.facts_in bytes.now }
{
    let mut facts = [Fact::Empty; 8];
    for i in 0..8 {
        let start = 11 * i;
        facts[i] = fact_in(&bytes[start..start + 11]);
    }
    facts
}

fn bounds_in(bytes: &[u8]) -> [u64; 8]
    requires { 64 ≤ length bytes.now }
    ensures { result ≡ spec.bounds_in bytes.now }
{
    let mut bounds = [0u64; 8];
    for i in 0..8 {
        let start = 8 * i;
        bounds[i] = bound_in(&bytes[start..start + 8]);
    }
    bounds
}

/// The row in 153 bytes, well formed or not.
#[tactic(auto, unfolding(crate::specs::Reading::row_in))]
pub fn row_in(bytes: &[u8]) -> Row
    requires { length bytes.now ≡ 153 }
    ensures { result ≡ spec.row_in bytes.now }
{
    Row {
        live: bytes[0] == 1,
        facts: facts_in(&bytes[1..]),
        bounds: bounds_in(&bytes[89..]),
    }
}
