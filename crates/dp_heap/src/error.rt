//! Why a request for memory is refused.
ghost use Rattle.std.specs.Prelude.{◌≡◌};
ghost use Rattle.dp_heap.specs.Refusals.{number_of};

use std::error::Error;
use std::fmt;

/// Why `malloc` and `zmalloc` refuse a request. If several causes apply, the first is returned.
#[derive(Clone, Copy, Debug)]
pub enum HeapError {
    /// The requested size is 0.
    ZeroSize,
    /// The alignment is neither 0 nor a power of two.
    BadAlign,
    /// No free element has room for the block.
    NoRoom,
}

impl HeapError {
    /// The number of the cause, 1 to 3.
    pub fn number(self) -> u8
        ensures { result ≡ number_of self }
    {
        match self {
            HeapError::ZeroSize => 1,
            HeapError::BadAlign => 2,
            HeapError::NoRoom => 3,
        }
    }
}

impl fmt::Display for HeapError {
    fn fmt<W: fmt::Write>(&self, f: &mut fmt::Formatter<W>) -> fmt::Result {
        f.write_str(match self {
            HeapError::ZeroSize => "the size is 0",
            HeapError::BadAlign => "the alignment is neither 0 nor a power of two",
            HeapError::NoRoom => "no free element can hold the block",
        })
    }
}

impl Error for HeapError {}
