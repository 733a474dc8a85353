//! Reads and writes big-endian numbers.

ghost use Rattle.std.specs.Prelude.{◌≡◌, ◌≤◌, ◌+◌, ◌∷◌, [], length, take};
ghost use Rattle.dp_model.specs.Arithmetic.{bytes_in, spelled, big_endian};
ghost use Rattle.dp_model.specs.Buffers.{overwritten};

use byteorder::{BigEndian, ByteOrder};
use dp_model::Width;

/// Reads the big-endian number in the first `width` bytes.
pub(crate) fn read_number(bytes: &[u8], width: Width) -> u64
    requires { bytes_in width ≤ length bytes.now }
    ensures { result ≡ spelled (take (bytes_in width) bytes.now) }
{
    match width {
        Width::One => u64::from(bytes[0]),
        Width::Two => u64::from(BigEndian::read_u16(bytes)),
        Width::Four => u64::from(BigEndian::read_u32(bytes)),
        Width::Eight => BigEndian::read_u64(bytes),
    }
}

// The eight bytes of a number.
#[inline(always)]
fn bytes_of_number(n: u64) -> [u8; 8]
    ensures bytes { result ≡ big_endian 8 n }
    ensures many { length result ≡ 8 }
{
    let mut bytes = [0; 8];
    BigEndian::write_u64(&mut bytes, n);
    bytes
}

// The two low bytes of a number, of which the compiler makes one store, as it does not of bytes out of eight.
#[inline(always)]
fn low_two(n: u64) -> [u8; 2]
    ensures bytes { result ≡ big_endian 2 n }
    ensures many { length result ≡ 2 }
{
    ((n % 0x1_0000) as u16).to_be_bytes()
}

// The four low bytes of a number, in the same way.
#[inline(always)]
fn low_four(n: u64) -> [u8; 4]
    ensures bytes { result ≡ big_endian 4 n }
    ensures many { length result ≡ 4 }
{
    ((n % 0x1_0000_0000) as u32).to_be_bytes()
}

// Writes two bytes, one store each: the compiler makes one of them, without a test whether the bytes overlap others.
#[inline(always)]
fn put_two(bytes: &mut [u8], at: usize, a: u8, b: u8)
    requires { at + 2 ≤ length bytes.old }
    ensures { bytes.new ≡ overwritten bytes.old at (a ∷ b ∷ []) }
{
    bytes[at] = a;
    bytes[at + 1] = b;
}

// Writes four bytes in the same way.
#[inline(always)]
fn put_four(bytes: &mut [u8], at: usize, a: u8, b: u8, c: u8, d: u8)
    requires { at + 4 ≤ length bytes.old }
    ensures { bytes.new ≡ overwritten bytes.old at (a ∷ b ∷ c ∷ d ∷ []) }
{
    put_two(bytes, at, a, b);
    put_two(bytes, at + 2, c, d);
}

/// Writes the low `width` bytes of a number, big-endian. Each width has its own branch, with a constant length, so the compiler makes one store
/// of it.
#[inline(always)]
pub(crate) fn write_number(bytes: &mut [u8], at: usize, width: Width, n: u64)
    requires { at + bytes_in width ≤ length bytes.old }
    ensures { bytes.new ≡ overwritten bytes.old at (big_endian (bytes_in width) n) }
{
    match width {
        Width::One => bytes[at] = bytes_of_number(n)[7],
        Width::Two => {
            let low = low_two(n);
            put_two(bytes, at, low[0], low[1]);
        }
        Width::Four => {
            let low = low_four(n);
            put_four(bytes, at, low[0], low[1], low[2], low[3]);
        }
        Width::Eight => bytes[at..at + 8].copy_from_slice(&bytes_of_number(n)),
    }
}
