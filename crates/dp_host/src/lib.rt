//! The engine for a caller in C, in the caller's own memory, of `dpv_size` bytes. `dpv_begin` makes an engine there, and the other calls
//! take a pointer to it; calls on one engine must not overlap. `include/dpv.h` declares these functions.
//!
//! Who owns what: the memory is the caller's; the engine in it owns its region until `dpv_close`. Frames and batches are the caller's, and no
//! call keeps a pointer to them.
//!
//! What to call: `dpv_cost` for what a program can cost, with no engine; `dpv_begin`, once; `dpv_why`, which has the reason if there is no
//! engine; `dpv_pass_into` for each frame, with a batch of the size that `dpv_batch_size` returns, or `dpv_burst_into` for some frames of one
//! port; `dpv_route_add`, `dpv_route_delete` and `dpv_route_lookup` for routes, between two passes; `dpv_port`, `dpv_pool` and `dpv_ring` for
//! counts; `dpv_close` at the end. The inline functions of `include/dpv.h` are C, and not in this crate.
//!
//! What not to do: the memory may not move or be freed between `dpv_begin` and `dpv_close`, two calls may not run at once, and a call must
//! get memory that `dpv_begin` has filled. Everything else is tested, and a call that is refused changes nothing.
#![tactic(auto)]

mod bursts;
mod costs;
mod host;
mod numbers;
mod packed;
mod refusal;
mod running;

ghost use Rattle.std.specs.Prelude.{◌≡◌, ◌%◌, ℕ};
ghost use Rattle.std.specs.Align.{type_align};
ghost use Rattle.std.specs.Borrow.{full_share};
ghost use Rattle.std.specs.Mem.{type_size};
ghost use Rattle.std.specs.Ptr.{lies_at, room_at};
ghost use types.Logic.{sem};
ghost use Rattle.dp_host.specs.contracts.host.Host.{the_row};
ghost use Rattle.dp_host.specs.declared.refusal.Refusal.TheVariants as refusal;
ghost use Rattle.dp_host.specs.Bursts.{BurstAnswers};
ghost use Rattle.dp_host.specs.Hosts.{AddAnswers, DeleteAnswers, LookupAnswers, SetsOrRefuses, CloseAnswers, IsPoolStats, IsPortStats, IsRingStats};
ghost use Rattle.dp_host.specs.Costs.{CostAnswers};
ghost use Rattle.dp_host.specs.Hosts.{IsRoom, NoPool, NoPort, NoRing, Opens, PassAnswers};

use crate::host::Host;
use crate::numbers::{
    BurstFrame, CostStats, Explanation, Hop, PoolStats, PortStats, RingStats, Room, Route, Totals,
};
use dp_engine::SentRecord;
use std::alloc::Global;

/// Returns the number of bytes that an engine takes in its caller's memory, besides its region. They begin at a multiple of 16.
#[unsafe(no_mangle)]
pub extern "C" fn dpv_size() -> usize
    ensures size { result ≡ type_size the_row }
    ensures alignment { 16 % type_align the_row ≡ 0 }
{
    std::mem::size_of::<Host>()
}

/// Sets `out` to what a node run of the program in a text can cost; no engine is needed. Returns 0, or a refusal as `enum dpv_answer` of
/// include/dpv.h numbers it.
#[unsafe(no_mangle)]
pub extern "C" fn dpv_cost(alloc: Global, text: &[u8], out: &mut CostStats) -> u32
    ensures { CostAnswers text.now out.old out.new result }
{
    costs::program_cost(alloc, text, out)
}

/// Opens the engine of a pipeline's text and its packed files. If it fails, `dpv_why` explains why.
#[unsafe(no_mangle)]
pub unsafe extern "C" fn dpv_begin(alloc: Global, at: *mut u8, toml: &[u8], packed: &[u8])
    requires* { sem 𝓛 (room_at the_row at) }
    ensures* { ∃ₛ (λ (h : Host). sem 𝓛 (lies_at the_row full_share at h) ∗ ⌜ Opens toml.now packed.now h.running h.missing h.explanation ⌝) }
{
    (at as *mut Host).write(host::opened(alloc, toml, packed))
}

/// Passes in one frame, received on `port` at `time`, and returns all frames sent for it: `records` says where in `bytes` each one is.
/// Returns 0 if the frame was received, 1 if too few buffers were free, 2 if it is too large for its port, or a refusal of `enum dpv_answer`.
#[unsafe(no_mangle)]
pub unsafe extern "C" fn dpv_pass_into(
    at: *mut u8,
    port: u32,
    time: u64,
    frame: &[u8],
    records: &mut [SentRecord],
    bytes: &mut [u8],
    filled: &mut Room,
) -> u32
    ghost h: { Host }
    requires* { sem 𝓛 (lies_at the_row full_share at h) }
    ensures* { ∃ₛ (λ (h' : Host). sem 𝓛 (lies_at the_row full_share at h') ∗ ⌜ PassAnswers h.running h.missing h'.running port time frame.now
        (record { records = records.old; bytes = bytes.old }) (record { records = records.new; bytes = bytes.new }) filled.new result
        × (h'.missing ≡ h.missing) × (h'.explanation ≡ h.explanation) ⌝) }
{
    host::passed(
        &mut *(at as *mut Host),
        port,
        time,
        frame,
        records,
        bytes,
        filled,
    )
}

/// Passes in the frames of one port, in order: for each what `dpv_pass_into` does, with its time, into what those before it left of the
/// arrays. Each frame gets its answer, and says which of the records are its; `filled` is that of all of them.
#[unsafe(no_mangle)]
pub unsafe extern "C" fn dpv_burst_into(
    at: *mut u8,
    port: u32,
    frames: &mut [BurstFrame<'_>],
    records: &mut [SentRecord],
    bytes: &mut [u8],
    filled: &mut Room,
)
    ghost h: { Host }
    requires* { sem 𝓛 (lies_at the_row full_share at h) }
    ensures* { ∃ₛ (λ (h' : Host). sem 𝓛 (lies_at the_row full_share at h') ∗ ⌜ BurstAnswers h.running h.missing h'.running port frames.old frames.new
        (record { records = records.old; bytes = bytes.old }) (record { records = records.new; bytes = bytes.new }) filled.new
        × (h'.missing ≡ h.missing) × (h'.explanation ≡ h.explanation) ⌝) }
{
    bursts::burst(
        &mut *(at as *mut Host),
        port,
        frames,
        records,
        bytes,
        filled,
    )
}

/// Sets `size` to a batch with room for whatever the ports send for one frame. Returns 0, or a refusal as `enum dpv_answer` of include/dpv.h numbers it.
#[unsafe(no_mangle)]
pub unsafe extern "C" fn dpv_batch_size(at: *mut u8, size: &mut Room) -> u32
    ghost h: { Host }
    requires* { sem 𝓛 (lies_at the_row full_share at h) }
    ensures* { ∃ₛ (λ (h' : Host). sem 𝓛 (lies_at the_row full_share at h') ∗ ⌜ (h' ≡ h)
        × SetsOrRefuses IsRoom (λ e. ⊥) refusal.NotOpen h.running h.missing size.old size.new result ⌝) }
{
    host::batch_size(&mut *(at as *mut Host), size)
}

/// Sets `explanation` to why the pipeline was not loaded; cause 0 if it was. Returns 0.
#[unsafe(no_mangle)]
pub unsafe extern "C" fn dpv_why(at: *mut u8, explanation: &mut Explanation) -> u32
    ghost h: { Host }
    requires* { sem 𝓛 (lies_at the_row full_share at h) }
    ensures* { ∃ₛ (λ (h' : Host). sem 𝓛 (lies_at the_row full_share at h') ∗ ⌜ (h' ≡ h) × (explanation.new ≡ h.explanation) × (result ≡ 0) ⌝) }
{
    host::explanation(&mut *(at as *mut Host), explanation)
}

/// Sets `out` to the counts of a port so far. Returns 0, or a refusal as `enum dpv_answer` of include/dpv.h numbers it.
#[unsafe(no_mangle)]
pub unsafe extern "C" fn dpv_port(at: *mut u8, which: u32, out: &mut PortStats) -> u32
    ghost h: { Host }
    requires* { sem 𝓛 (lies_at the_row full_share at h) }
    ensures* { ∃ₛ (λ (h' : Host). sem 𝓛 (lies_at the_row full_share at h') ∗ ⌜ (h' ≡ h)
        × SetsOrRefuses (IsPortStats which) (NoPort which) refusal.NoPort h.running h.missing out.old out.new result ⌝) }
{
    host::port_stats(&mut *(at as *mut Host), which, out)
}

/// Sets `out` to the counts of a pool so far. Returns 0, or a refusal as `enum dpv_answer` of include/dpv.h numbers it.
#[unsafe(no_mangle)]
pub unsafe extern "C" fn dpv_pool(at: *mut u8, which: u32, out: &mut PoolStats) -> u32
    ghost h: { Host }
    requires* { sem 𝓛 (lies_at the_row full_share at h) }
    ensures* { ∃ₛ (λ (h' : Host). sem 𝓛 (lies_at the_row full_share at h') ∗ ⌜ (h' ≡ h)
        × SetsOrRefuses (IsPoolStats which) (NoPool which) refusal.NoPool h.running h.missing out.old out.new result ⌝) }
{
    host::pool_stats(&mut *(at as *mut Host), which, out)
}

/// Sets `out` to the number of packets in a ring. Returns 0, or a refusal as `enum dpv_answer` of include/dpv.h numbers it.
#[unsafe(no_mangle)]
pub unsafe extern "C" fn dpv_ring(at: *mut u8, which: u32, out: &mut RingStats) -> u32
    ghost h: { Host }
    requires* { sem 𝓛 (lies_at the_row full_share at h) }
    ensures* { ∃ₛ (λ (h' : Host). sem 𝓛 (lies_at the_row full_share at h') ∗ ⌜ (h' ≡ h)
        × SetsOrRefuses (IsRingStats which) (NoRing which) refusal.NoRing h.running h.missing out.old out.new result ⌝) }
{
    host::ring_stats(&mut *(at as *mut Host), which, out)
}

/// Adds a route to a table, or replaces the hop of its route of this prefix and depth. Returns 0, or a refusal as `enum dpv_answer` of
/// include/dpv.h numbers it.
#[unsafe(no_mangle)]
pub unsafe extern "C" fn dpv_route_add(at: *mut u8, route: &mut Route) -> u32
    ghost h: { Host }
    requires* { sem 𝓛 (lies_at the_row full_share at h) }
    ensures* { ∃ₛ (λ (h' : Host). sem 𝓛 (lies_at the_row full_share at h') ∗ ⌜ AddAnswers route.old h.running h.missing h'.running result
        × (h'.missing ≡ h.missing) × (h'.explanation ≡ h.explanation) × (route.new ≡ route.old) ⌝) }
{
    host::route_added(&mut *(at as *mut Host), route)
}

/// Deletes a route of a table. Returns 0, or a refusal as `enum dpv_answer` of include/dpv.h numbers it.
#[unsafe(no_mangle)]
pub unsafe extern "C" fn dpv_route_delete(at: *mut u8, route: &mut Route) -> u32
    ghost h: { Host }
    requires* { sem 𝓛 (lies_at the_row full_share at h) }
    ensures* { ∃ₛ (λ (h' : Host). sem 𝓛 (lies_at the_row full_share at h') ∗ ⌜ DeleteAnswers route.old h.running h.missing h'.running result
        × (h'.missing ≡ h.missing) × (h'.explanation ≡ h.explanation) × (route.new ≡ route.old) ⌝) }
{
    host::route_deleted(&mut *(at as *mut Host), route)
}

/// Sets `out` to the hop of a table for an address: that which a program would find now. Returns 0, or a refusal as `enum dpv_answer` of
/// include/dpv.h numbers it.
#[unsafe(no_mangle)]
pub unsafe extern "C" fn dpv_route_lookup(at: *mut u8, table: u32, ip: u32, out: &mut Hop) -> u32
    ghost h: { Host }
    requires* { sem 𝓛 (lies_at the_row full_share at h) }
    ensures* { ∃ₛ (λ (h' : Host). sem 𝓛 (lies_at the_row full_share at h') ∗ ⌜ (h' ≡ h)
        × LookupAnswers table ip h.running h.missing out.old out.new result ⌝) }
{
    host::route_found(&mut *(at as *mut Host), table, ip, out)
}

/// Ends the engine: frees every buffer and the region. Returns 0, or a refusal as `enum dpv_answer` of include/dpv.h numbers it.
#[unsafe(no_mangle)]
pub unsafe extern "C" fn dpv_close(at: *mut u8, totals: &mut Totals) -> u32
    ghost h: { Host }
    requires* { sem 𝓛 (lies_at the_row full_share at h) }
    ensures* { ∃ₛ (λ (h' : Host). sem 𝓛 (lies_at the_row full_share at h') ∗ ⌜ CloseAnswers h.running h.missing h'.running h'.missing
        totals.old totals.new result × (h'.explanation ≡ h.explanation) ⌝) }
{
    host::closed(&mut *(at as *mut Host), totals)
}
