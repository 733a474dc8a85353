//! What a command says on both streams, and its exit status.

ghost use Rattle.std.specs.Prelude.{◌≡◌, ◌⊎◌, [], false, true, IfSome, IsTrue, Some};
ghost use Rattle.dp_console.specs.Replies.{IsPrinted, IsWhole, IsWritten, Says};

use std::alloc::Global;
use std::fmt::Display;
use std::io::Write;

/// The exit status of a command that is done, and of help that was asked for.
pub const DONE: u8 = 0;

/// The exit status if a program is refused, or has no certificate.
pub const REFUSED: u8 = 1;

/// The exit status for wrong words.
pub const USAGE: u8 = 2;

/// The exit status for a fault, and for a text that could not be written.
pub const FAULT: u8 = 3;

/// The exit status for lack of memory.
pub const MEMORY: u8 = 4;

/// What is printed in place of a document for which memory was refused.
const NO_MEMORY: &str = "{\"fault\":{\"status\":4,\"text\":\"fault: memory\"}}\n";

/// A text that grows. Once memory is refused for it, it is no longer whole.
#[derive(Drop)]
pub struct Text {
    pub bytes: Vec<u8>,
    pub has_failed: bool,
}

impl Text {
    /// The empty text.
    pub fn new(alloc: Global) -> Text
        ensures empty { result.bytes.items ≡ [] }
        ensures whole { result.has_failed ≡ false }
    {
        Text {
            bytes: Vec::new(alloc),
            has_failed: false,
        }
    }

    /// Adds what is displayed.
    pub fn say<T: Display + Drop>(&mut self, text: T)
        ensures { Says self.old self.new (T.output text) }
    {
        self.has_failed |= write!(self.bytes, "{text}").is_err();
    }

    /// Adds bytes. Returns whether the text is still whole.
    pub fn add(&mut self, bytes: &[u8]) -> bool
        ensures { IsTrue result → Says self.old self.new (Some bytes.now) }
    {
        self.has_failed |= self.bytes.extend_from_slice(bytes).is_err();
        !self.has_failed
    }

    /// Adds words, with these numbers in place of each `$`.
    pub fn say_numbers<N: Display + Drop + Copy>(&mut self, words: &str, numbers: &[N]) {
        for (k, piece) in words.split('$').enumerate() {
            if k > 0
                && let Some(number) = numbers.get(k - 1)
            {
                self.say(*number);
            }
            self.say(piece);
        }
    }

    /// The text as far as it has grown; empty if its bytes are no UTF-8.
    pub fn words(&self) -> &str {
        str::from_utf8(self.bytes.as_slice()).unwrap_or("")
    }
}

/// What a command says on both streams, and its exit status.
#[derive(Drop)]
pub struct Reply {
    pub status: u8,
    pub out: Text,
    pub err: Text,
    /// Whether `out` is a JSON document. Then lack of memory is a document, too.
    pub is_json: bool,
}

impl Reply {
    /// A reply that says nothing yet.
    pub fn new(alloc: Global) -> Reply
        ensures status { result.status ≡ 0 }
        ensures out { result.out.bytes.items ≡ [] }
        ensures err { result.err.bytes.items ≡ [] }
        ensures whole { IsWhole result }
    {
        Reply {
            status: DONE,
            out: Text::new(alloc),
            err: Text::new(alloc),
            is_json: false,
        }
    }

    /// Whether there was memory for both texts.
    pub fn is_whole(&self) -> bool
        ensures whole { result ≡ true → IsWhole self.now }
        ensures cut { result ≡ false → (self.now.out.has_failed ≡ true) ⊎ (self.now.err.has_failed ≡ true) }
    {
        !(self.out.has_failed || self.err.has_failed)
    }

    /// Prints it on two writers. Returns its status; 4 if memory was refused for it, which is printed in its place; or `None` if a text could not be
    /// written.
    pub(crate) fn write<O: Write, E: Write>(&self, out: &mut O, err: &mut E) -> Option<u8>
        ensures { IfSome result (IsWritten self.now (O.contents out.old) (O.contents out.new) (E.contents err.old) (E.contents err.new)) }
    {
        let (printed, reported, status) = if self.is_whole() {
            let printed = out.write_all(self.out.bytes.as_slice()).is_ok();
            let reported = err.write_all(self.err.bytes.as_slice()).is_ok();
            (printed, reported, self.status)
        } else {
            let document = if self.is_json { NO_MEMORY } else { "" };
            let printed = out.write_all(document.as_bytes()).is_ok();
            (printed, err.write_all(b"fault: memory\n").is_ok(), MEMORY)
        };
        if printed && reported {
            Some(status)
        } else {
            None
        }
    }

    /// Prints it on two writers, and returns the exit status: its own; 4 if memory was refused for it, which is printed in its place; or 3 if a text
    /// could not be written.
    pub fn print<O: Write, E: Write>(&self, out: &mut O, err: &mut E) -> u8
        ensures { IsPrinted self.now (O.contents out.old) (O.contents out.new) (E.contents err.old) (E.contents err.new) result }
    {
        self.write(out, err).unwrap_or(FAULT)
    }
}
