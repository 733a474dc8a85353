//! Changes of routes between turns.
use dp_lpm::LpmError;

/// Why a route is not changed.
#[derive(Clone, Copy)]
pub enum RouteFault {
    /// There is no table of this number.
    NoTable,
    /// The table refuses the change.
    Refused(LpmError),
}
