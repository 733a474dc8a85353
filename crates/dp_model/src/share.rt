//! The share in a fact: what is known of the references to a packet's buffers.

ghost use Rattle.std.specs.Prelude.{◌≡◌, ◌<◌};
ghost use Rattle.dp_model.specs.Facts.{is_share, share_of_group};

/// Nothing is known of references.
pub const LOOSE: u8 = 0;

/// The first segment's buffer has one reference.
pub const HEAD_SOLE: u8 = 1;

/// Each segment's buffer has one reference.
pub const SOLE: u8 = 2;

/// In a row, the register belongs to sharing group 0. The shares of the other groups follow.
pub const FIRST_GROUP: u8 = 8;

/// The share of the registers of a group, which is named by its least register, 0 to 7.
pub fn share_of_group(group: u8) -> u8
    requires { group < 8 }
    ensures { result ≡ share_of_group group }
{
    FIRST_GROUP + group
}

/// Whether a fact of a row may have the share: it is loose, head sole, sole or a group's.
pub fn is_share(share: u8) -> bool
    ensures { result ≡ is_share share }
{
    share <= SOLE || (share >= FIRST_GROUP && share <= share_of_group(7))
}
