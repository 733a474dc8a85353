//! JSON documents, written member by member.

use crate::reply::Text;
use std::alloc::Global;
use std::fmt::Display;

/// The largest number that is printed as one, 2^53: a float of 64 bits holds each number up to it.
const MAX_NUMBER: u64 = 9_007_199_254_740_992;

/// A value of a member.
#[derive(Clone, Copy)]
pub enum Item<'a> {
    Null,
    Bool(bool),
    /// A number; above 2^53 a string of its digits.
    Number(u64),
    Text(&'a str),
}

/// A JSON document that grows on one line. Its members come in the order of their names, and the elements of a list have the name `""`. Adding to it
/// cannot fail; a document for which memory was refused remembers it.
#[derive(Drop)]
pub struct Document {
    alloc: Global,
    text: Text,
    /// Whether a comma stands before what comes next.
    has_more: bool,
}

/// Adds a string in quotes. A quote, a backslash and a control character are escaped, since JSON has none of them in a string.
fn say_quoted(text: &str, out: &mut Text) {
    out.say("\"");
    for character in text.chars() {
        match character {
            '"' => out.say("\\\""),
            '\\' => out.say("\\\\"),
            '\0'..='\u{1f}' => out.say(format_args!("\\u{:04x}", u32::from(character))),
            _ => out.say(character),
        }
    }
    out.say("\"");
}

impl Document {
    /// An empty document.
    pub fn new(alloc: Global) -> Document {
        Document {
            alloc,
            text: Text::new(alloc),
            has_more: false,
        }
    }

    /// Begins a value: what stands before it, and its bracket, if it has one.
    fn begin(&mut self, name: &str, bracket: &str) {
        if self.has_more {
            self.text.say(",");
        }
        if !name.is_empty() {
            self.text.say(format_args!("\"{name}\":"));
        }
        self.text.say(bracket);
        self.has_more = bracket.is_empty();
    }

    /// Ends a value.
    fn end(&mut self, bracket: &str) {
        self.text.say(bracket);
        self.has_more = true;
    }

    /// Begins an object.
    pub fn begin_object(&mut self, name: &str) {
        self.begin(name, "{");
    }

    /// Ends an object.
    pub fn end_object(&mut self) {
        self.end("}");
    }

    /// Begins a list.
    pub fn begin_list(&mut self, name: &str) {
        self.begin(name, "[");
    }

    /// Ends a list.
    pub fn end_list(&mut self) {
        self.end("]");
    }

    /// Adds a value.
    pub fn item(&mut self, name: &str, item: Item<'_>) {
        self.begin(name, "");
        let out = &mut self.text;
        match item {
            Item::Null => out.say("null"),
            Item::Bool(value) => out.say(value),
            Item::Number(number) if number > MAX_NUMBER => out.say(format_args!("\"{number}\"")),
            Item::Number(number) => out.say(number),
            Item::Text(text) => say_quoted(text, out),
        }
    }

    /// Adds a string: what is displayed, which has UTF-8 alone.
    pub fn shown<T: Display + Drop>(&mut self, name: &str, value: T) {
        let mut text = Text::new(self.alloc);
        text.say(value);
        self.text.has_failed |= text.has_failed;
        self.item(name, Item::Text(text.words()));
    }

    /// Adds a list of numbers.
    pub fn numbers(&mut self, name: &str, all: &[u64]) {
        self.begin_list(name);
        for number in all {
            self.item("", Item::Number(*number));
        }
        self.end_list();
    }

    /// Adds values.
    pub fn items(&mut self, all: &[(&str, Item<'_>)]) {
        for (name, item) in all {
            self.item(name, *item);
        }
    }

    /// Adds an object of these members.
    pub fn object(&mut self, name: &str, members: &[(&str, Item<'_>)]) {
        self.begin_object(name);
        self.items(members);
        self.end_object();
    }

    /// Adds the document to a text, as one line.
    pub fn say_to(self, out: &mut Text) {
        out.has_failed |= self.text.has_failed;
        out.add(self.text.bytes.as_slice());
        out.add(b"\n");
    }
}
