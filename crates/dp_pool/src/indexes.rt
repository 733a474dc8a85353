//! The indexes of a pool's objects: a queue of those that are in, with a cache before it.

ghost use Rattle.std.specs.Prelude.{◌≡◌, ℕ, ◌+◌, ◌-◌, ◌*◌, ◌/◌, ◌<◌, ◌≤◌, ◌++◌, ◌∷◌, [], length, take, drop, min, not, true, false, IsNone, IfSome};
ghost use Rattle.std.specs.Prelude.{MatchOption, Some, slice_get, slice_set, count_by, replicate, ◌==◌, ◌↔◌, IsTrue};
ghost use Rattle.std.specs.List.{list_any};
ghost use Rattle.dp_pool.specs.Once.{upto};
ghost use Rattle.dp_pool.specs.Pools.{max_objects, max_cache, is_out_in};
ghost use Rattle.dp_ring.specs.Rings.{room_in, with_more, without_first};
ghost use Rattle.dp_pool.specs.Queues.{max_in_cache, in_count, taken, back, cached_after_get, cached_after_put, AreHanded, AreOut, all_returned};

use crate::hint::proved;
use arrayvec::ArrayVec;
use dp_ring::Ring;
use std::marker::Model;

/// The maximum number of indexes in a cache at once. A cache for 512 (`MAX_CACHE`) is cut back to 512 when it reaches one and a half times that, as DPDK
/// flushes one.
const MAX_IN_CACHE: usize = 768;

// What the cache's slots hold before indexes are read into them.
const BLANKS: [u32; MAX_IN_CACHE] = [0; MAX_IN_CACHE];

/// The indexes from 0 up to a number, each in or out. Those that are in are in the queue or in the cache.
pub(crate) struct Indexes {
    queue: Ring,
    cached: ArrayVec<u32, MAX_IN_CACHE>,
    // The number of indexes that the cache is for.
    cache: u32,
    // The number of indexes, in and out.
    count: u32,
}

impl Model for Indexes {
    ghost use Rattle.std.specs.Prelude.{◌≡◌, ◌-◌, ◌<◌, ◌≤◌, ◌++◌, length};
    ghost use Rattle.dp_pool.specs.Pools.{max_objects, max_cache};
    ghost use Rattle.dp_pool.specs.Queues.{max_in_cache, IndexView, index_code};
    ghost use Rattle.dp_pool.specs.Once.{absent, AreOnce};

    ghost Value = { IndexView };

    ghost coded = { index_code };

    ghost view = { λ v. record {
      cache = v.cache;
      cached = length v.cached.items;
      out = absent v.count (v.cached.items ++ v.queue.entries);
      name = v.queue.name;
      home = v.queue.home;
      offset = v.queue.offset;
      len = v.queue.len;
    } };

    ghost invariant = { λ v. AreOnce v.count (v.cached.items ++ v.queue.entries) × (v.count < v.queue.count) × (v.cache ≤ max_cache)
        × (length v.cached.items ≤ max_in_cache - 1) × (v.cache ≡ 0 → length v.cached.items ≡ 0) × (v.count ≤ max_objects) };
}

// Moves the first indexes of the queue to the end of the cache, in one read.
#[inline(never)]
fn move_in(queue: &mut Ring, cached: &mut ArrayVec<u32, MAX_IN_CACHE>, number: u32)
    requires there { number ≤ length queue.old.entries }
    requires room { length cached.old.items + number ≤ max_in_cache }
    ensures cached { cached.new.items ≡ cached.old.items ++ take number queue.old.entries }
    ensures queue { queue.new ≡ without_first queue.old number }
{
    let held = cached.len();
    extend(cached, &BLANKS[..number as usize]);
    queue.dequeue_bulk(&mut cached.as_mut_slice()[held..]);
}

// Moves all but the first `keep` indexes of the cache to the end of the queue.
#[inline(never)]
fn move_out(queue: &mut Ring, cached: &mut ArrayVec<u32, MAX_IN_CACHE>, keep: usize)
    requires some { keep ≤ length cached.old.items }
    requires room { length cached.old.items ≤ keep + room_in queue.old }
    ensures cached { cached.new.items ≡ take keep cached.old.items }
    ensures queue { queue.new ≡ with_more queue.old (drop keep cached.old.items) }
{
    queue.enqueue_burst(&cached.as_slice()[keep..]);
    cached.truncate(keep);
}

// Appends indexes to the cache.
#[inline(always)]
fn extend(cached: &mut ArrayVec<u32, MAX_IN_CACHE>, indexes: &[u32])
    requires { length cached.old.items + length indexes.now ≤ max_in_cache }
    ensures { cached.new.items ≡ cached.old.items ++ indexes.now }
{
    let _ = cached.try_extend_from_slice(indexes);
}

// Puts all indexes below `count` into an empty queue, in order.
fn fill(queue: &mut Ring, count: u32)
    requires empty { queue.old.entries ≡ [] }
    requires room { count < queue.old.count }
    ensures { queue.new ≡ record queue.old { entries = upto count } }
{
    for index in 0..count {
        queue.enqueue(index);
    }
}

// Whether an index is in the list.
fn is_one_of(indexes: &[u32], index: u32) -> bool
    ensures { result ≡ list_any (λ x. x == index) indexes.now }
{
    indexes.iter().any(|x| *x == index)
}

impl Indexes {
    /// Puts all indexes below `count` into an empty queue that has room for one more.
    pub(crate) fn over(queue: Ring, count: u32, cache: u32) -> Indexes
        requires empty { queue.entries ≡ [] }
        requires room { count < queue.count }
        requires limits { (count ≤ max_objects) × (cache ≤ max_cache) }
        ensures { result ≡ record {
          cache = cache;
          cached = 0;
          out = replicate count false;
          name = queue.name;
          home = queue.home;
          offset = queue.offset;
          len = queue.len;
        } }
    {
        let mut queue = queue;
        fill(&mut queue, count);
        Indexes {
            queue,
            cached: ArrayVec::new(),
            cache,
            count,
        }
    }

    /// Returns the queue. The contract does not say what its entries are.
    pub(crate) fn into_queue(self) -> Ring
        ensures { (result.name ≡ self.name) × (result.home ≡ self.home) × (result.offset ≡ self.offset) × (result.len ≡ self.len) }
    {
        let Indexes {
            queue,
            cached: _,
            cache: _,
            count: _,
        } = self;
        queue
    }

    /// Whether an index is out; false if there is no such index.
    pub(crate) fn is_out(&self, index: u32) -> bool
        ensures { result ≡ is_out_in self.now.out index }
    {
        if index >= self.count {
            return false;
        }
        !is_one_of(self.cached.as_slice(), index) && !self.queue.contains(index)
    }

    /// The number of indexes that are in.
    pub(crate) fn available(&self) -> u32
        ensures { result ≡ in_count self.now.out }
    {
        self.cached.len() as u32 + self.queue.count()
    }

    /// The number of indexes in the cache.
    pub(crate) fn cached(&self) -> u32
        ensures value { result ≡ self.now.cached }
        ensures there { result ≤ in_count self.now.out }
    {
        self.cached.len() as u32
    }

    // Takes the first index of the queue.
    fn next_queued(&mut self) -> u32
        requires cache { self.old.cache ≡ 0 }
        requires some { 0 < in_count self.old.out }
        ensures was_in { slice_get self.old.out result ≡ Some false }
        ensures out { self.new ≡ record self.old { out = taken result self.old.out } }
    {
        let Some(index) = self.queue.dequeue() else {
            proved(false);
            unreachable!();
        };
        index
    }

    // Takes the last index of the cache.
    #[inline(always)]
    fn next_cached(&mut self) -> u32
        requires { 0 < self.old.cached }
        ensures was_in { slice_get self.old.out result ≡ Some false }
        ensures out { self.new ≡ record self.old { out = taken result self.old.out; cached = self.old.cached - 1 } }
    {
        let Some(index) = self.cached.pop() else {
            proved(false);
            unreachable!();
        };
        index
    }

    // Fills an empty cache from the queue.
    fn refill(&mut self)
        requires { self.old.cached ≡ 0 }
        ensures { self.new ≡ record self.old { cached = min self.old.cache (in_count self.old.out) } }
    {
        let number = self.cache.min(self.queue.count());
        move_in(&mut self.queue, &mut self.cached, number);
    }

    // Takes an index when the cache is empty: fills the cache first, unless its size is 0.
    fn get_refilled(&mut self) -> Option<u32>
        requires { self.old.cached ≡ 0 }
        ensures { MatchOption result ((in_count self.old.out ≡ 0) × (self.new ≡ self.old)) (λ i. (slice_get self.old.out i ≡ Some false)
            × (self.new ≡ record self.old { out = taken i self.old.out; cached = cached_after_get self.old.cache self.old.cached (in_count self.old.out) })) }
    {
        if self.available() == 0 {
            return None;
        }
        if self.cache == 0 {
            return Some(self.next_queued());
        }
        self.refill();
        Some(self.next_cached())
    }

    // Whether the cache has an index; if so, its size is not 0.
    #[inline(always)]
    fn has_cached(&self) -> bool
        ensures some { result ≡ true → (0 < self.now.cached) × (0 < self.now.cache) }
        ensures none { result ≡ false → self.now.cached ≡ 0 }
    {
        !self.cached.is_empty()
    }

    /// Takes an index that is in the list, or returns `None` if none is.
    #[inline(always)]
    pub(crate) fn get(&mut self) -> Option<u32>
        ensures { MatchOption result ((in_count self.old.out ≡ 0) × (self.new ≡ self.old)) (λ i. (slice_get self.old.out i ≡ Some false)
            × (self.new ≡ record self.old { out = taken i self.old.out; cached = cached_after_get self.old.cache self.old.cached (in_count self.old.out) })) }
    {
        if self.has_cached() {
            return Some(self.next_cached());
        }
        self.get_refilled()
    }

    /// Takes the last indexes of the cache, in order.
    #[inline(always)]
    pub(crate) fn take_cached(&mut self, indexes: &mut [u32])
        requires { length indexes.old ≤ self.old.cached }
        ensures handed { AreHanded self.old indexes.new self.new }
        ensures len { length indexes.new ≡ length indexes.old }
    {
        let left = self.cached.len() - indexes.len();
        indexes.copy_from_slice(&self.cached.as_slice()[left..]);
        self.cached.truncate(left);
    }

    // Appends an index to the queue.
    fn put_queued(&mut self, index: u32)
        requires { slice_get self.old.out index ≡ Some true }
        ensures { self.new ≡ record self.old { out = back index self.old.out } }
    {
        proved(self.queue.enqueue(index));
    }

    // Appends an index to the cache. A cache that reaches one and a half times its size is cut back to its size.
    #[inline(always)]
    fn put_cached(&mut self, index: u32)
        requires out { slice_get self.old.out index ≡ Some true }
        requires cache { 0 < self.old.cache }
        ensures { self.new ≡ record self.old { out = back index self.old.out; cached = cached_after_put self.old.cache self.old.cached } }
    {
        self.cached.push(index);
        if self.cached.len() as u32 >= 3 * self.cache / 2 {
            move_out(&mut self.queue, &mut self.cached, self.cache as usize);
        }
    }

    /// Puts an index back that is out.
    #[inline(always)]
    pub(crate) fn put(&mut self, index: u32)
        requires { slice_get self.old.out index ≡ Some true }
        ensures { self.new ≡ record self.old { out = back index self.old.out; cached = cached_after_put self.old.cache self.old.cached } }
    {
        if self.cache == 0 {
            self.put_queued(index);
        } else {
            self.put_cached(index);
        }
    }

    // Whether `number` indexes fit into the cache without moving any to the queue.
    #[inline(always)]
    fn has_room(&self, number: usize) -> bool
        ensures { IsTrue result ↔ ((0 < self.now.cache) × (self.now.cached + number < 3 * self.now.cache / 2)) }
    {
        let least = 3 * self.cache as usize / 2;
        number < least && self.cached.len() < least - number
    }

    // Appends indexes to the cache, which has room for all of them.
    #[inline(always)]
    fn put_all_cached(&mut self, indexes: &[u32])
        requires out { AreOut self.old.out indexes.now }
        requires cache { 0 < self.old.cache }
        requires room { self.old.cached + length indexes.now < 3 * self.old.cache / 2 }
        ensures { self.new ≡ all_returned self.old indexes.now }
    {
        extend(&mut self.cached, indexes);
    }

    // Puts indexes back, one after another.
    fn put_each(&mut self, indexes: &[u32])
        requires { AreOut self.old.out indexes.now }
        ensures { self.new ≡ all_returned self.old indexes.now }
    {
        for index in indexes {
            self.put(*index);
        }
    }

    /// Puts back indexes that are out; the same as one `put` for each.
    #[inline(always)]
    pub(crate) fn put_all(&mut self, indexes: &[u32])
        requires { AreOut self.old.out indexes.now }
        ensures { self.new ≡ all_returned self.old indexes.now }
    {
        if self.has_room(indexes.len()) {
            self.put_all_cached(indexes);
        } else {
            self.put_each(indexes);
        }
    }
}
