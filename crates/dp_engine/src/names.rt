//! The names of an engine's zones.

ghost use Rattle.std.specs.Prelude.{◌≡◌, ◌<◌, codes};
ghost use Rattle.dp_mbuf.specs.declared.limits.TheConstants.{MAX_POOLS};
ghost use Rattle.dp_engine.specs.Names.{numbered, pool_name, ring_name};

/// Whether a ring is the transmit list of a port.
#[derive(Clone, Copy)]
pub(crate) enum ListKind {
    Port,
    Ring,
}

// The name of the zone of a port's transmit list.
fn port_name(k: usize) -> &'static str
    requires { k < 8 }
    ensures { result.now ≡ numbered (codes "port") k }
{
    match k {
        0 => "port0",
        1 => "port1",
        2 => "port2",
        3 => "port3",
        4 => "port4",
        5 => "port5",
        6 => "port6",
        _ => "port7",
    }
}

// The name of the zone of a ring.
fn loose_name(k: usize) -> &'static str
    requires { k < 8 }
    ensures { result.now ≡ numbered (codes "ring") k }
{
    match k {
        0 => "ring0",
        1 => "ring1",
        2 => "ring2",
        3 => "ring3",
        4 => "ring4",
        5 => "ring5",
        6 => "ring6",
        _ => "ring7",
    }
}

/// The name of the zone of the `k`-th ring of a kind.
pub(crate) fn ring_name(kind: ListKind, k: usize) -> &'static str
    requires { k < 8 }
    ensures { result.now ≡ ring_name kind k }
{
    match kind {
        ListKind::Port => port_name(k),
        ListKind::Ring => loose_name(k),
    }
}

/// The name of the `k`-th pool; the names of its zones begin with it.
pub(crate) fn pool_name(k: usize) -> &'static str
    requires { k < MAX_POOLS }
    ensures { result.now ≡ pool_name k }
{
    match k {
        0 => "pool0",
        1 => "pool1",
        2 => "pool2",
        3 => "pool3",
        4 => "pool4",
        5 => "pool5",
        6 => "pool6",
        _ => "pool7",
    }
}
