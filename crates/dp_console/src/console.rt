//! The console, which alone writes what commands say.

ghost use Rattle.std.specs.Prelude.{◌≡◌};
ghost use Rattle.std.specs.Fmt.{with_newline};
ghost use Rattle.dp_console.specs.Replies.{EndsWith, Prints};

use crate::reply::{FAULT, Reply};
use std::fmt::Display;
use std::io::Write;

/// Standard output and standard error. All that a command prints goes through here.
#[derive(Drop)]
pub struct Console<O, E> {
    pub out: O,
    pub err: E,
    /// Whether a write failed, on either stream.
    pub has_failed: bool,
}

impl<O: Write, E: Write> Console<O, E> {
    /// A console over these two streams.
    pub fn new(out: O, err: E) -> Console<O, E>
        ensures out { result.out ≡ out }
        ensures err { result.err ≡ err }
    {
        Console {
            out,
            err,
            has_failed: false,
        }
    }

    /// Prints a line on standard error. Returns whether it was written.
    pub fn report_line<T: Display + Drop>(&mut self, text: T) -> bool
        ensures printed { Prints result self.old.has_failed self.new.has_failed (E.contents self.old.err) (E.contents self.new.err)
            (with_newline (T.output text)) }
        ensures out { self.new.out ≡ self.old.out }
    {
        let written = writeln!(self.err, "{text}").is_ok();
        self.has_failed |= !written;
        written
    }

    /// Prints a reply, and returns the exit status: the reply's; 4 if memory was refused for it, which is reported; or 3 if a text could not be
    /// written, now or before.
    pub fn end(&mut self, reply: &Reply) -> u8
        ensures { EndsWith reply.now self.old.has_failed self.new.has_failed (O.contents self.old.out) (O.contents self.new.out)
            (E.contents self.old.err) (E.contents self.new.err) result }
    {
        let status = reply.write(&mut self.out, &mut self.err);
        self.has_failed |= status.is_none();
        match status {
            Some(status) if !self.has_failed => status,
            _ => FAULT,
        }
    }
}
