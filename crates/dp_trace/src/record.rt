//! A record of a trace as a document.

use dp_console::{Document, Item, Text};
use dp_engine::{Outcome, PacketShape, Turn, View, Way};
use dp_load::{NodeName, Pipeline};
use dp_model::{Entry, Instr, MAX_SEGMENTS, NumberRegister, PacketRegister, Width};
use dp_pcap::Time;
use std::alloc::{AllocError, Global};

/// The maximum number of bytes of a segment that are shown, and those of a record, if not all: its headers are no longer.
const SHOWN: usize = 16;

const HEADERS: usize = 128;

/// A packet as far as it is compared: its shape, the sum of the references to the buffers of its segments, and the first bytes of its first segment,
/// followed by zeros.
type Look = (PacketShape, u32, [u8; SHOWN]);

/// A record, from its arrival to the end of its turn.
#[derive(Drop)]
pub struct Record {
    alloc: Global,
    /// The programs: those of ports, which are so many, come first, and then those of rings.
    programs: Vec<Vec<Instr>>,
    ports: usize,
    /// The program of the node that runs.
    place: usize,
    /// Whether all of its bytes are shown.
    is_long: bool,
    /// The machine after the event before: the numbers in registers, the numbers of packets in rings and in transmit lists, the number of
    /// allocation calls; and the packets in registers.
    values: [u64; 25],
    packets: [Option<Look>; 8],
    document: Document,
    /// Whether memory was refused.
    has_failed: bool,
}

/// The packet in a register, if there is one.
fn look_at(view: &View<'_>, p: PacketRegister) -> Option<Look> {
    let shape = view.packet(p)?;
    let (mut refs, mut head) = (0u32, [0; SHOWN]);
    for (to, from) in head.iter_mut().zip(view.segment(p, 0)?.bytes) {
        *to = *from;
    }
    for index in 0..shape.segments {
        refs = refs.saturating_add(view.segment(p, index)?.refs);
    }
    Some((shape, refs, head))
}

/// Bytes of a packet to which an instruction writes: its register, their offset, and how many of the eight they are.
#[derive(Clone, Copy)]
struct Stored(PacketRegister, usize, usize, [u8; 8]);

/// The bytes to which an instruction writes, as they are now, if it is a store.
fn stored_by(view: &View<'_>, instr: Instr) -> Option<Stored> {
    match instr {
        Instr::Store {
            packet,
            offset,
            width,
            ..
        } => bytes_at(view, packet, u64::from(offset), width),
        Instr::StoreX {
            packet,
            index,
            offset,
            width,
            ..
        } => {
            let first = view.number(index).wrapping_add(u64::from(offset));
            bytes_at(view, packet, first, width)
        }
        _ => None,
    }
}

/// The bytes of a packet's first segment at an offset, if it has that many.
fn bytes_at(view: &View<'_>, p: PacketRegister, offset: u64, width: Width) -> Option<Stored> {
    let (offset, count) = (offset as usize, usize::from(width.bytes()));
    let mut bytes = [0; 8];
    let rest = view.segment(p, 0)?.bytes.get(offset..)?;
    for (to, from) in bytes.iter_mut().zip(rest) {
        *to = *from;
    }
    Some(Stored(p, offset, count, bytes))
}

impl Record {
    /// The programs of a pipeline, and no record yet. All bytes of records are shown, or those that headers may have.
    ///
    /// # Errors
    ///
    /// `AllocError` if memory is refused.
    pub fn new(alloc: Global, pipeline: &Pipeline, is_long: bool) -> Result<Record, AllocError> {
        let mut programs = Vec::new(alloc);
        for k in 0..pipeline.nodes() {
            programs.push(Vec::from_slice(alloc, pipeline.node(k).program().instrs())?)?;
        }
        Ok(Record {
            alloc,
            programs,
            ports: pipeline.ports(),
            place: 0,
            is_long,
            values: [0; 25],
            packets: [None; 8],
            document: Document::new(alloc),
            has_failed: false,
        })
    }

    /// Adds numbers.
    fn write(&mut self, numbers: &[u64]) {
        for number in numbers {
            self.document.item("", Item::Number(*number));
        }
    }

    /// Adds bytes, in hexadecimal digits.
    fn write_bytes(&mut self, name: &str, bytes: &[u8]) {
        match hex::encode(self.alloc, bytes) {
            Ok(digits) => self.document.item(name, Item::Text(digits.as_str())),
            Err(AllocError) => self.has_failed = true,
        }
    }

    /// A record with this number comes.
    pub fn come(&mut self, number: u32, port: u8, time: Time, len: usize) {
        let (seconds, nanos) = (u64::from(time.sec), u64::from(time.nano));
        self.document = Document::new(self.alloc);
        self.document.begin_object("");
        self.document.item("view", Item::Text("record"));
        self.document.begin_list("arrival");
        self.write(&[
            u64::from(number),
            u64::from(port),
            seconds,
            nanos,
            len as u64,
        ]);
        self.document.end_list();
        self.document.begin_list("events");
        // What was in transmit lists was sent.
        for value in &mut self.values[16..24] {
            *value = 0;
        }
    }

    /// The instruction at a label of the program that runs.
    fn instr(&self, label: Option<u16>) -> Option<Instr> {
        let program = self.programs.get(self.place)?;
        program.get(usize::from(label?)).copied()
    }

    /// Adds where the instruction at a label writes to a packet, and the bytes that are there now, if it is a store.
    fn write_stored(&mut self, name: &str, label: Option<u16>, view: &View<'_>) {
        let stored = match self.instr(label) {
            Some(instr) => stored_by(view, instr),
            None => None,
        };
        if let Some(stored) = stored {
            let (register, at, bytes) = (stored.0.number(), stored.1, stored.3);
            self.document.begin_list(name);
            self.write(&[u64::from(register), at as u64]);
            self.write_bytes("", bytes.get(..stored.2).unwrap_or(&[]));
            self.document.end_list();
        }
    }

    /// Adds a register's packet: the register, and if there is one its length, its rooms, and for each segment length, references and first bytes.
    fn write_packet(&mut self, p: PacketRegister, look: Option<Look>, view: &View<'_>) {
        self.document.begin_list("");
        self.write(&[u64::from(p.number())]);
        if let Some((shape, ..)) = look {
            let (headroom, tailroom) = (u64::from(shape.headroom), u64::from(shape.tailroom));
            self.write(&[u64::from(shape.length), headroom, tailroom]);
            for index in 0..shape.segments {
                if let Some(segment) = view.segment(p, index) {
                    let bytes = segment.bytes;
                    self.write(&[bytes.len() as u64, u64::from(segment.refs)]);
                    self.write_bytes("", bytes.get(..SHOWN).unwrap_or(bytes));
                }
            }
        }
        self.document.end_list();
    }

    /// Adds the packets in registers that changed since the event before.
    fn write_packets(&mut self, view: &View<'_>) {
        self.document.begin_list("packets");
        for k in 0..8u8 {
            let p = PacketRegister::new(k);
            let look = look_at(view, p);
            if look != self.packets[usize::from(k)] {
                self.packets[usize::from(k)] = look;
                self.write_packet(p, look, view);
            }
        }
        self.document.end_list();
    }

    /// Adds the place and the value of each number that changed since the event before.
    fn write_values(&mut self, view: &View<'_>) {
        let mut values = [view.calls(); 25];
        for k in 0..8u8 {
            let place = usize::from(k);
            values[place] = view.number(NumberRegister::new(k));
            values[place + 8] = u64::from(view.waiting(k).unwrap_or(0));
            values[place + 16] = u64::from(view.queued(k).unwrap_or(0));
        }
        self.document.begin_list("values");
        for k in 0..25usize {
            if values[k] != self.values[k] {
                self.write(&[k as u64, values[k]]);
            }
        }
        self.document.end_list();
        self.values = values;
    }

    /// A node run begins: its registers are empty until its packet comes.
    pub fn begin(&mut self, node: Entry, view: &View<'_>) {
        for value in &mut self.values[..8] {
            *value = 0;
        }
        self.packets = [None; 8];
        self.document.begin_object("");
        self.place = match node {
            Entry::Port(port) => {
                self.write_received(view);
                usize::from(port)
            }
            Entry::Ring(ring) => self.ports.saturating_add(usize::from(ring)),
        };
        self.write_stored("next", Some(0), view);
        self.document.shown("node", NodeName(node));
        self.write_packets(view);
        self.write_values(view);
        self.document.end_object();
    }

    /// Adds the bytes of the received record.
    fn write_received(&mut self, view: &View<'_>) {
        let mut received = Vec::new(self.alloc);
        for index in 0..MAX_SEGMENTS {
            if let Some(segment) = view.segment(PacketRegister::new(0), u32::from(index)) {
                self.has_failed |= received.extend_from_slice(segment.bytes).is_err();
            }
        }
        let bytes = received.as_slice();
        let headers = bytes.get(..HEADERS).unwrap_or(bytes);
        self.write_bytes("bytes", if self.is_long { bytes } else { headers });
    }

    /// The instruction at a label ran.
    pub fn see(&mut self, label: u16, way: Way, view: &View<'_>) {
        let (led, next) = match way {
            Way::On => ("on", label.checked_add(1)),
            Way::To(to) => ("to", Some(to)),
            Way::Out => ("out", None),
            Way::Cut => ("cut", None),
        };
        self.document.begin_object("");
        self.document.item("label", Item::Number(u64::from(label)));
        self.write_stored("next", next, view);
        self.write_packets(view);
        self.write_stored("stored", Some(label), view);
        self.write_values(view);
        self.document.item("way", Item::Text(led));
        self.document.end_object();
    }

    /// The turn is over. Returns the line of the record.
    pub fn end(&mut self, turn: Turn, view: &View<'_>) -> Text {
        let outcome = match turn.outcome {
            Outcome::Got => "received",
            Outcome::NoBuffer => "nobuf",
            Outcome::Oversize => "oversize",
        };
        self.document.end_list();
        self.document.item("outcome", Item::Text(outcome));
        self.document.begin_list("turn");
        self.write(&[
            u64::from(turn.runs),
            u64::from(turn.cuts),
            u64::from(turn.steps),
        ]);
        self.document.end_list();
        self.write_values(view);
        self.document.end_object();
        let mut line = Text::new(self.alloc);
        line.has_failed = self.has_failed;
        std::mem::replace(&mut self.document, Document::new(self.alloc)).say_to(&mut line);
        line
    }
}
