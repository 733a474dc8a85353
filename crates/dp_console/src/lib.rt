//! What a command says, the console that prints it, and JSON documents.
//!
//! A command builds a [`Reply`]: two [`Text`]s and a status. Adding to a `Text` cannot fail; a text for which memory was refused remembers it. Only a
//! [`Console`] writes, and it remembers a write that failed: [`Console::end`] prints a reply and returns the exit status. What streams, such as
//! progress, writes to its streams itself, or prints a line by [`Console::report_line`].
//!
//! A [`Document`] grows member by member, in the order of their names; it remembers a failure, as a `Text` does.
#![tactic(auto)]

mod console;
mod document;
mod reply;

pub use console::Console;
pub use document::{Document, Item};
pub use reply::{DONE, FAULT, MEMORY, REFUSED, Reply, Text, USAGE};
