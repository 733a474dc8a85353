//! Benchmarks of a heap's blocks.
ghost use Rattle.std.specs.Prelude.{◌≡◌, ◌≤◌};

use dp_heap::Heap;

// The size of a block, in bytes.
const SIZE: u32 = 64;

// Takes a block and frees it, `rounds` times; returns how many succeeded.
fn pairs(heap: &mut Heap, rounds: u32) -> u32
    ensures served { result ≤ rounds }
    ensures same { heap.new ≡ heap.old }
{
    let mut served = 0;
    for _ in 0..rounds {
        if let Ok(block) = heap.malloc(SIZE, 0) {
            heap.free(block);
            served += 1;
        }
    }
    served
}

/// The same with `others` other blocks out.
pub fn pairs_beside(heap: &mut Heap, others: u32, rounds: u32) -> u32
    ensures served { result ≤ rounds }
    ensures same { heap.new ≡ heap.old }
{
    if others == 0 {
        return pairs(heap, rounds);
    }
    match heap.malloc(SIZE, 0) {
        Ok(block) => {
            let served = pairs_beside(heap, others - 1, rounds);
            heap.free(block);
            served
        }
        Err(_) => 0,
    }
}
