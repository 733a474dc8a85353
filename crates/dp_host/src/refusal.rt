//! Why a call is refused. A refused call changes nothing.
ghost use Rattle.std.specs.Prelude.{◌≡◌};

/// Why a call is refused.
#[derive(Clone, Copy)]
pub enum Refusal {
    /// The pipeline was not loaded.
    NotOpen = 16,
    /// The engine was closed.
    Closed = 17,
    /// There is no such port.
    NoPort = 18,
    /// There is no such pool.
    NoPool = 19,
    /// There is no such ring.
    NoRing = 20,
    /// The frame has more than 262,144 bytes.
    TooLong = 21,
    /// The engine has taken 2^40 turns.
    NoTurns = 22,
    /// The batch is smaller than one turn may need.
    BatchTooSmall = 23,
    /// There is no such table.
    NoTable = 24,
    /// The depth is not from 1 to 32.
    BadDepth = 25,
    /// The hop is above 16,777,215.
    BadHop = 26,
    /// The table has as many routes as it was made for.
    RulesFull = 27,
    /// The route is deeper than 24 bits, and no group is left for it.
    GroupsFull = 28,
    /// The table has no such route.
    NoRule = 29,
    /// No route of the table is for the address.
    NoRoute = 30,
    /// The text is not a program.
    NoProgram = 31,
    /// Memory was refused.
    NoMemory = 32,
}

impl Refusal {
    ghost use Rattle.dp_host.specs.Hosts.{refusal_number};

    /// The number of the refusal, from 16: that of its variant.
    pub fn number(self) -> u32
        ensures { result ≡ refusal_number self }
    {
        self as u32
    }
}
