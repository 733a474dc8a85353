//! Mempools: objects of one size, reached by index, with a cache (DPDK Programmer's Guide, "Mempool Library").
//!
//! Who owns what: a `Pool` owns the zone of its objects and that of its queue. An object is in or out. While it is out, its bytes belong to
//! the holder of its index. The pool writes nothing into objects, so their bytes do not change while they are in.
//!
//! What to call: `Pool::make`, then `get` and `put` (or the bulk calls), `object` and `object_mut` for the bytes. `unmake` ends the pool,
//! even if objects are out.
//!
//! What not to do: a `Pool` cannot be dropped, and `unmake` must get the heap in which it was made. An index may be put only while it is
//! out: the caller proves that, and nothing tests it at run time. `is_out` searches the whole queue, and is for tests.
//!
//! The cache works as DPDK's does: a get takes its last index, and first fills it from the queue if it is empty; a put appends to it, and
//! at one and a half times its size moves the excess to the queue. `get` and `put` take constant time, apart from these moves.
#![tactic(auto)]

mod error;
mod hint;
mod indexes;
mod making;
mod pool;

pub use error::PoolError;
pub use hint::proved;
pub use making::{MAX_CACHE, MAX_OBJECT, MAX_OBJECTS};
pub use pool::Pool;
