//! Names of zones, and which texts are names.

ghost use Rattle.std.specs.Prelude.{◌≡◌, ◌&&◌, nat_le, true, false, IfSome, IfNone};
ghost use Rattle.std.specs.List.{list_all};
ghost use Rattle.dp_zone.specs.Names.{is_name, same_name};

use arrayvec::ArrayString;
use std::marker::Model;

/// The maximum number of characters of a zone's name, one fewer than DPDK's `RTE_MEMZONE_NAMESIZE`, which counts the final zero.
pub const MAX_NAME: usize = 31;

/// The name of a zone: 1 to `MAX_NAME` visible ASCII characters, without blanks.
#[derive(Drop)]
pub struct ZoneName {
    text: ArrayString<MAX_NAME>,
}

impl Model for ZoneName {
    ghost use Rattle.std.specs.Prelude.{List, ℕ, ◌≡◌, true};
    ghost use Rattle.dp_zone.specs.Names.{is_name};

    ghost Value = { List ℕ };

    ghost view = { λ n. n.text.bytes };

    ghost invariant = { λ n. is_name n.text.bytes ≡ true };
}

/// Whether all bytes are visible characters.
fn are_visible(bytes: &[u8]) -> bool
    ensures { result ≡ list_all (λ b. nat_le 33 b && nat_le b 126) bytes.now }
{
    bytes.iter().all(|b| *b >= 33 && *b <= 126)
}

/// Whether `text` is a name.
pub(crate) fn is_name(text: &str) -> bool
    ensures { result ≡ is_name text.now }
{
    !text.is_empty() && text.len() <= MAX_NAME && are_visible(text.as_bytes())
}

impl ZoneName {
    /// Makes a name of `text`, or returns `None` if it is not one.
    pub fn new(text: &str) -> Option<ZoneName>
        ensures some { IfSome result (λ n. (n ≡ text.now) × (is_name text.now ≡ true)) }
        ensures none { IfNone result (is_name text.now ≡ false) }
    {
        if !is_name(text) {
            return None;
        }
        let mut name = ArrayString::new();
        name.push_str(text);
        Some(ZoneName { text: name })
    }

    /// The text of the name.
    pub fn as_str(&self) -> &str
        ensures { result.now ≡ self.now }
    {
        self.text.as_str()
    }

    // A copy of the text.
    pub(crate) fn text(&self) -> ArrayString<MAX_NAME>
        ensures { result.bytes ≡ self.now }
    {
        self.text
    }

    /// Whether the name is `text`.
    pub fn is(&self, text: &str) -> bool
        ensures { result ≡ same_name self.now text.now }
    {
        self.as_str() == text
    }

    /// A copy of the name.
    pub fn copy(&self) -> ZoneName
        ensures { result ≡ self.now }
    {
        ZoneName { text: self.text }
    }
}
