//! The numbers and texts of causes.

ghost use Rattle.std.specs.Prelude.{◌≡◌, ◌++◌, codes};
ghost use Rattle.std.specs.Fmt.{decimal};
ghost use Rattle.dp_load.specs.Causes.{number_of, number_of_route, part_text, piece_text, node_text, text_of};

use crate::error::{Part, PipeError, RouteError};
use dp_model::Entry;
use std::error::Error;
use std::fmt;

impl PipeError {
    /// The number of the cause, 1 to 9; 0 for memory.
    pub fn number(self) -> u8
        ensures { result ≡ number_of self }
    {
        match self {
            PipeError::Memory => 0,
            PipeError::NotToml => 1,
            PipeError::BadKey { .. } => 2,
            PipeError::BadEnv(_) => 3,
            PipeError::BadTable { .. } => 4,
            PipeError::File(_) => 5,
            PipeError::Asm(_, _) => 6,
            PipeError::BadCert(_, _) => 7,
            PipeError::NotInferred { .. } => 8,
            PipeError::Refused { .. } => 9,
        }
    }
}

impl RouteError {
    /// The number of the cause: that of the table's refusal, or 6 for a route that cannot be read.
    pub fn number(self) -> u8
        ensures { result ≡ number_of_route self }
    {
        match self {
            RouteError::Refused(error) => error.number(),
            RouteError::Unreadable => 6,
        }
    }
}

impl Part {
    /// Its name in texts.
    fn word(self) -> &'static str
        ensures { result.now ≡ part_text self }
    {
        match self {
            Part::Top => "top",
            Part::Pool => "pool",
            Part::Table => "table",
            Part::Ring => "ring",
            Part::Port => "port",
        }
    }
}

impl fmt::Display for Part {
    ghost use Rattle.std.specs.Prelude.{Some};
    ghost use Rattle.dp_load.specs.Causes.{part_text};

    ghost output = { λ part. Some (part_text part) };

    fn fmt<W: fmt::Write>(&self, f: &mut fmt::Formatter<W>) -> fmt::Result {
        f.write_str(self.word())
    }
}

/// A word of a text, and the number that follows it, if one does.
#[derive(Clone, Copy)]
struct Piece(&'static str, Option<usize>);

/// A piece without a text.
const NOTHING: Piece = Piece("", None);

impl fmt::Display for Piece {
    ghost use Rattle.std.specs.Prelude.{Some};
    ghost use Rattle.dp_load.specs.Causes.{piece_text};

    ghost output = { λ piece. Some (piece_text piece) };

    fn fmt<W: fmt::Write>(&self, f: &mut fmt::Formatter<W>) -> fmt::Result {
        match self.1 {
            Some(number) => write!(f, "{}{number}", self.0),
            None => f.write_str(self.0),
        }
    }
}

/// A word, and a small number.
fn numbered(word: &'static str, number: u8) -> Piece
    ensures { piece_text result ≡ word.now ++ decimal number }
{
    Piece(word, Some(usize::from(number)))
}

/// The name of a node as a piece.
fn node_piece(node: Entry) -> Piece
    ensures { piece_text result ≡ node_text node }
{
    match node {
        Entry::Port(index) => numbered("port ", index),
        Entry::Ring(index) => numbered("ring ", index),
    }
}

/// The name of a node in texts, as `port 0` or `ring 3`.
#[derive(Clone, Copy)]
pub struct NodeName(pub Entry);

impl fmt::Display for NodeName {
    ghost use Rattle.std.specs.Prelude.{Some};
    ghost use Rattle.dp_load.specs.Causes.{node_text};

    ghost output = { λ name. Some (node_text name.0) };

    fn fmt<W: fmt::Write>(&self, f: &mut fmt::Formatter<W>) -> fmt::Result {
        write!(f, "{}", node_piece(self.0))
    }
}

/// A text of one word.
fn word_alone(word: &'static str) -> (&'static str, Piece, Piece, Piece)
    ensures { result.0.now ++ (piece_text result.1 ++ (piece_text result.2 ++ piece_text result.3)) ≡ word.now }
{
    (word, NOTHING, NOTHING, NOTHING)
}

/// The text of a fault in a node's file.
fn fault_in(
    name: &'static str,
    node: Entry,
    line: usize,
    cause: u8,
) -> (&'static str, Piece, Piece, Piece)
    ensures { result.0.now ++ (piece_text result.1 ++ (piece_text result.2 ++ piece_text result.3))
        ≡ name.now ++ (node_text node ++ (codes " line " ++ (decimal line ++ (codes " cause " ++ decimal cause)))) }
{
    (
        name,
        node_piece(node),
        Piece(" line ", Some(line)),
        numbered(" cause ", cause),
    )
}

/// The text of the verdict on a node.
fn verdict_on(
    node: Entry,
    verdict: &'static str,
    label: u16,
    rule: u8,
) -> (&'static str, Piece, Piece, Piece)
    ensures { result.0.now ++ (piece_text result.1 ++ (piece_text result.2 ++ piece_text result.3))
        ≡ node_text node ++ (verdict.now ++ (decimal label ++ (codes " by J" ++ decimal rule))) }
{
    (
        "",
        node_piece(node),
        Piece(verdict, Some(usize::from(label))),
        numbered(" by J", rule),
    )
}

/// The text of an error: a word and three pieces. A table of texts, each with its own `write!`, takes longer to prove.
fn pieces_of(error: PipeError) -> (&'static str, Piece, Piece, Piece)
    ensures { result.0.now ++ (piece_text result.1 ++ (piece_text result.2 ++ piece_text result.3)) ≡ text_of error }
{
    match error {
        PipeError::Memory => word_alone("memory"),
        PipeError::NotToml => word_alone("1 NotToml"),
        PipeError::BadKey { part, index } => (
            "2 BadKey ",
            Piece(part.word(), None),
            Piece(" ", Some(index)),
            NOTHING,
        ),
        PipeError::BadEnv(error) => (
            "3 BadEnv ",
            numbered("", error.number()),
            numbered(" ", error.index()),
            NOTHING,
        ),
        PipeError::BadTable {
            table,
            route,
            cause,
        } => (
            "4 BadTable ",
            Piece("", Some(table)),
            Piece(" ", Some(route)),
            numbered(" ", cause.number()),
        ),
        PipeError::File(node) => ("5 File ", node_piece(node), NOTHING, NOTHING),
        PipeError::Asm(node, fault) => {
            fault_in("6 Asm ", node, fault.line, fault.cause.number())
        }
        PipeError::BadCert(node, fault) => {
            fault_in("7 BadCert ", node, fault.line, fault.cause.number())
        }
        PipeError::NotInferred { node, label, rule } => {
            verdict_on(node, " not inferred at ", label, rule)
        }
        PipeError::Refused { node, label, rule } => verdict_on(node, " refused at ", label, rule),
    }
}

/// Prints causes 1 to 7 as a number, a name, the place and the reason; 8 and 9 as the verdict on the node.
impl fmt::Display for PipeError {
    ghost use Rattle.std.specs.Prelude.{Some};
    ghost use Rattle.dp_load.specs.Causes.{text_of};

    ghost output = { λ error. Some (text_of error) };

    fn fmt<W: fmt::Write>(&self, f: &mut fmt::Formatter<W>) -> fmt::Result {
        let (word, first, second, last) = pieces_of(*self);
        write!(f, "{word}{first}{second}{last}")
    }
}

impl fmt::Debug for PipeError {
    fn fmt<W: fmt::Write>(&self, f: &mut fmt::Formatter<W>) -> fmt::Result {
        write!(f, "{self}")
    }
}

impl Error for PipeError {}
