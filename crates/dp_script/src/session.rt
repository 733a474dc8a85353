//! Runs a heap script: a heap, and the blocks that the script holds of it.

ghost use Rattle.std.specs.Prelude.{◌≡◌, [], All, IfSome, length};
ghost use Rattle.dp_heap.specs.Elements.{count_of, is_busy};
ghost use Rattle.dp_region.specs.Region.{IsRegionSize};

use dp_console::{Document, FAULT, Item, Reply, Text};
use dp_heap::{Heap, HeapError, State};
use dp_region::{Block, CACHE_LINE, MAX_REGION, MIN_REGION, Region};
use std::alloc::Global;
use std::io::Write;

/// A block that a script holds, by the number of its allocation.
struct Held {
    number: u32,
    block: Block,
}

/// A heap and the blocks that a script holds of it, in the order of their numbers.
struct Session {
    heap: Heap,
    held: Vec<Held>,
    /// How many blocks were allocated.
    taken: u32,
    ghost ours: { All (λ h. h.block.home ≡ heap.home) held.items },
    ghost counted: { count_of is_busy heap.elements ≡ length held.items },
}

/// Parses a word as a number: decimal digits, at most 4,294,967,295.
fn number(word: &str) -> Option<u32> {
    if word.starts_with('+') {
        return None;
    }
    word.parse().ok()
}

/// Cuts a line into its word, how many numbers follow it, and these; a number that does not follow is 0.
fn cut(line: &[u8]) -> Option<(&str, u8, u32, u32)> {
    let text = str::from_utf8(line).ok()?;
    let Some((word, rest)) = text.split_once(' ') else {
        return Some((text, 0, 0, 0));
    };
    match rest.split_once(' ') {
        Some((first, second)) => Some((word, 2, number(first)?, number(second)?)),
        None => Some((word, 1, number(rest)?, 0)),
    }
}

/// The size of the region that a line `region N` asks for, if a region may have it.
fn region_size(line: &[u8]) -> Option<u32>
    ensures { IfSome result IsRegionSize }
{
    match cut(line)? {
        ("region", 1, size @ MIN_REGION..=MAX_REGION, _) if size % CACHE_LINE == 0 => Some(size),
        _ => None,
    }
}

/// Says which block was allocated, and the element in which it lies.
fn say_block(heap: &Heap, number: u32, offset: u32, out: &mut Text) {
    for element in heap.iter() {
        let (start, size) = (element.offset, element.size);
        if offset >= start && offset - start < size {
            let numbers = [number, offset, start, size];
            return out.say_numbers("$ data $ element $ + $\n", &numbers);
        }
    }
}

impl Session {
    /// Frees the blocks, and closes the heap.
    fn end(self) {
        let Session {
            mut heap,
            mut held,
            taken: _,
        } = self;
        while let Some(Held { number: _, block }) = held.pop() {
            heap.free(block);
        }
        held.destroy_empty();
        heap.close().close();
    }

    /// Allocates a block of this size and alignment, zeroed if asked for, and holds it under the next number.
    fn take(&mut self, size: u32, align: u32, zeros: bool, out: &mut Text) {
        let made = if zeros {
            self.heap.zmalloc(size, align)
        } else {
            self.heap.malloc(size, align)
        };
        match made {
            Ok(block) => {
                let offset = block.offset();
                self.taken = self.taken.saturating_add(1);
                let number = self.taken;
                match self.held.push(Held { number, block }) {
                    Ok(()) => say_block(&self.heap, number, offset, out),
                    Err(full) => {
                        let Held { number: _, block } = full.value;
                        self.heap.free(block);
                        out.has_failed = true;
                    }
                }
            }
            Err(error) => out.say(match error {
                HeapError::ZeroSize => "refused 1 ZeroSize\n",
                HeapError::BadAlign => "refused 2 BadAlign\n",
                HeapError::NoRoom => "refused 3 NoRoom\n",
            }),
        }
    }

    /// Frees the block of this number, if it is held.
    fn free(&mut self, number: u32, out: &mut Text) -> Option<()> {
        let index = self.held.iter().position(|held| held.number == number)?;
        let Held { number: _, block } = self.held.remove(index);
        self.heap.free(block);
        out.say(format_args!("freed {number}\n"));
        Some(())
    }

    /// Says all elements.
    fn list(&self, out: &mut Text) {
        for element in self.heap.iter() {
            let (offset, size, pad) = (element.offset, element.size, element.pad);
            match element.state {
                State::Free => out.say_numbers("FREE $ + $\n", &[offset, size]),
                State::Busy => out.say_numbers("BUSY $ + $ pad $\n", &[offset, size, pad]),
            }
        }
    }

    /// Says the sums over the elements.
    fn stats(&self, out: &mut Text) {
        let it = self.heap.stats();
        let numbers = [it.free_count, it.free_bytes, it.busy_count, it.busy_bytes];
        out.say_numbers("free $ bytes $ busy $ bytes $\n", &numbers);
    }

    /// Runs a line, if it is a command that may come here: no second region, and none that frees a block that is not held.
    fn run(&mut self, line: &[u8], out: &mut Text) -> Option<()> {
        let (word, count, first, second) = cut(line)?;
        match (word, count) {
            ("list", 0) => self.list(out),
            ("stats", 0) => self.stats(out),
            ("free", 1) => return self.free(first, out),
            ("malloc" | "zmalloc", 2) => self.take(first, second, word == "zmalloc", out),
            _ => return None,
        }
        Some(())
    }
}

/// Runs the lines of a script that are not empty; returns the number of the one at fault, if one is.
fn run_script(alloc: Global, script: &[u8], out: &mut Text) -> Option<usize> {
    let mut lines = script.split(|b| *b == b'\n').enumerate();
    let (first, line) = lines.find(|(_, line)| !line.is_empty())?;
    let Some(size) = region_size(line) else {
        return Some(first.saturating_add(1));
    };
    let Ok(region) = Region::new(alloc, size) else {
        out.has_failed = true;
        return None;
    };
    let mut session = Session {
        heap: Heap::new(region),
        held: Vec::new(alloc),
        taken: 0,
    };
    let mut fault = None;
    for (k, line) in lines {
        if fault.is_none() && !line.is_empty() && session.run(line, out).is_none() {
            fault = Some(k.saturating_add(1));
        }
    }
    session.end();
    fault
}

/// What a heap script says, with its status; and the number of the line at fault, if one is.
fn reply_of(alloc: Global, script: &[u8]) -> (Reply, Option<usize>) {
    let mut reply = Reply::new(alloc);
    let fault = run_script(alloc, script, &mut reply.out);
    if let Some(number) = fault {
        reply.status = FAULT;
        reply
            .err
            .say(format_args!("fault: line {number} bad command\n"));
    }
    (reply, fault)
}

/// Runs a heap script, and prints on two writers what it says. Returns the exit status: 0; 3 if a line is at fault, which is reported after what the
/// lines before it print, or if a text could not be written; 4 for lack of memory.
pub fn mem_line<P: Write, E: Write>(alloc: Global, script: &[u8], out: &mut P, err: &mut E) -> u8 {
    let (reply, _fault) = reply_of(alloc, script);
    reply.print(out, err)
}

/// Runs a heap script, the text of this file. The status is 0; or 3 if a line is at fault, which is reported, after what the lines before it print; then
/// follow the facts of that line. If memory is refused, the reply is not whole.
pub fn mem_reply(alloc: Global, file: &str, script: &[u8]) -> Reply {
    let (mut reply, fault) = reply_of(alloc, script);
    if let Some(number) = fault {
        let mut to = Document::new(alloc);
        to.begin_object("");
        to.item("view", Item::Text("script"));
        to.item("file", Item::Text(file));
        to.item("line", Item::Number(number as u64));
        to.item("text", Item::Text(str::from_utf8(script).unwrap_or("")));
        to.end_object();
        to.say_to(&mut reply.err);
    }
    reply
}
