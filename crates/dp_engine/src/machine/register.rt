//! A packet register: a handle, with a flag for whether it has a packet.
ghost use Rattle.std.specs.Prelude.{◌≡◌, ◌∷◌, Some, None, IsSome, is_some, replicate};
ghost use Rattle.std.specs.List.{AllByRecursion};

use std::marker::Model;

/// The handle of a packet, or nothing. A flag beside the handle says which. Only a cut and a view test it: the checker has made sure that a
/// register holds a packet wherever an instruction uses its handle.
#[derive(Drop)]
pub(crate) struct Register {
    handle: u32,
    is_held: bool,
}

impl Model for Register {
    ghost use Rattle.std.specs.Prelude.{Option, ℕ};
    ghost use Rattle.dp_engine.specs.Handles.{register_of};

    ghost Value = { Option ℕ };

    ghost view = { λ r. register_of r.handle r.is_held };
}

impl Register {
    /// An empty register.
    pub(crate) fn empty() -> Register
        ensures { result ≡ None }
    {
        Register {
            handle: 0,
            is_held: false,
        }
    }

    /// Puts the packet of a handle into it. Its two fields are written apart, and not the bytes that are in none.
    #[inline(always)]
    pub(crate) fn put(&mut self, handle: u32)
        ensures { self.new ≡ Some handle }
    {
        self.handle = handle;
        self.is_held = true;
    }

    /// Whether it holds a packet.
    pub(crate) fn is_held(&self) -> bool
        ensures { result ≡ is_some self.now }
    {
        self.is_held
    }

    /// The handle of the packet that it holds.
    pub(crate) fn handle(&self) -> u32
        requires { IsSome self.now }
        ensures { self.now ≡ Some result }
    {
        self.handle
    }
}

/// Eight empty registers.
pub(crate) fn no_packets() -> [Register; 8]
    ensures { result ≡ replicate 8 None }
{
    [
        Register::empty(),
        Register::empty(),
        Register::empty(),
        Register::empty(),
        Register::empty(),
        Register::empty(),
        Register::empty(),
        Register::empty(),
    ]
}

/// Puts a packet into the first of eight empty registers. The others are not written.
#[inline(always)]
pub(crate) fn set_first(registers: &mut [Register; 8], handle: u32)
    requires { AllByRecursion (λ o. o ≡ None) registers.old }
    ensures { registers.new ≡ Some handle ∷ replicate 7 None }
{
    registers[0].put(handle);
}
