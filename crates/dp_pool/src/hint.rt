//! What the compiler may take for granted.
ghost use Rattle.std.specs.Prelude.{IsTrue};

/// Tells the compiler what is proved: it leaves out a test that leads to `proved(false)`, since no array without elements has an element. A test that
/// leads to `unreachable!()` alone stays.
#[inline(always)]
pub fn proved(holds: bool)
    requires { IsTrue holds }
    ensures { IsTrue holds }
{
    if !holds {
        let none: [&mut u8; 0] = [];
        *none[0] = 0;
    }
}
