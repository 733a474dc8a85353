//! Captures that words give ports in place of those that a pipeline names.

ghost use Rattle.std.specs.Prelude.{◌≡◌, ◌≢◌, ◌==◌, ◌∷◌, [], Some, None, find, map, nat_le, option_map, IfErr, IfOk};
ghost use Rattle.std.specs.List.{list_any};
ghost use Rattle.std.specs.Result.{result_ok};
ghost use Rattle.dp_captures.specs.Words as spec;
ghost use Rattle.dp_captures.specs.Words.{row_of};

use std::alloc::{AllocError, Global};
use std::fmt;

/// Where a capture is: in a file, at standard input or output, or nowhere: no records come in, or what is sent is dropped.
#[derive(Clone, Copy)]
pub enum Place {
    File,
    Stream,
    Nowhere,
}

/// The capture that a word gives a port.
#[derive(Clone, Copy)]
pub struct Replaced<'a> {
    /// The whole word, as `1=out.pcap`.
    pub word: &'a str,
    /// The port whose capture it replaces.
    pub port: u8,
    /// Where the capture is.
    pub place: Place,
    /// Its name: `-` for a stream, and nothing for one that is nowhere.
    pub name: &'a str,
}

/// Whether captures are read or written.
#[derive(Clone, Copy)]
pub enum Direction {
    In,
    Out,
}

/// The syntax of a word: PORT=NAME, or PORT, whose capture is nowhere.
#[derive(Clone, Copy)]
pub enum WordForm {
    Named,
    Bare,
}

/// Why words are rejected.
#[derive(Clone, Copy)]
pub enum WordProblem<'a> {
    /// Memory was refused.
    Memory,
    /// This word does not have its form.
    Unread(&'a str, WordForm),
    /// The first of these captures cannot be given together with the second, of an earlier word.
    Clash(Direction, Replaced<'a>, Replaced<'a>),
}

/// Parses a word as a port: one digit from 0 to 7.
fn port_digit(word: &str) -> Option<u8>
    ensures { result ≡ spec.port_digit word.now }
{
    match word.as_bytes() {
        [digit @ b'0'..=b'7'] => Some(digit - b'0'),
        _ => None,
    }
}

/// The capture of this name that a word gives a port: `-` names a standard stream, anything else a file.
fn capture_named<'a>(word: &'a str, port: u8, name: &'a str) -> Replaced<'a>
    ensures { row_of result ≡ spec.capture_named word.now port name.now }
{
    let place = if name == "-" {
        Place::Stream
    } else {
        Place::File
    };
    Replaced {
        word,
        port,
        place,
        name,
    }
}

/// The capture that a word of this form gives a port.
pub fn given_by(form: WordForm, word: &str) -> Option<Replaced<'_>>
    ensures { option_map row_of result ≡ spec.given_by form word.now }
{
    match form {
        WordForm::Named => {
            let (port, name) = word.split_once('=')?;
            let port = port_digit(port)?;
            if name.is_empty() {
                return None;
            }
            Some(capture_named(word, port, name))
        }
        WordForm::Bare => {
            let port = port_digit(word)?;
            Some(Replaced {
                word,
                port,
                place: Place::Nowhere,
                name: "",
            })
        }
    }
}

/// Whether a capture is a standard stream.
fn is_stream(place: Place) -> bool
    ensures { result ≡ spec.is_stream place }
{
    matches!(place, Place::Stream)
}

/// Whether two captures cannot be given together.
fn clashes(other: &Replaced<'_>, one: Replaced<'_>) -> bool
    ensures { result ≡ spec.clashes (row_of other.now) (row_of one.entry) }
{
    other.port == one.port || (is_stream(other.place) && is_stream(one.place))
}

/// The capture that a word gives besides earlier ones.
fn added<'a>(
    direction: Direction,
    form: WordForm,
    word: &'a str,
    earlier: &[Replaced<'a>],
) -> Result<Replaced<'a>, WordProblem<'a>>
    ensures { option_map row_of (result_ok result) ≡ spec.added form (map row_of earlier.now) word.now }
{
    let Some(one) = given_by(form, word) else {
        return Err(WordProblem::Unread(word, form));
    };
    for other in earlier {
        if clashes(other, one) {
            return Err(WordProblem::Clash(direction, one, *other));
        }
    }
    Ok(one)
}

/// The captures that words give after earlier ones, with those.
fn add_words<'a>(
    direction: Direction,
    form: WordForm,
    words: &[&'a str],
    earlier: Vec<Replaced<'a>>,
) -> Result<Vec<Replaced<'a>>, WordProblem<'a>>
    ensures given { IfOk result (λ given. Some (map row_of given.items) ≡ spec.rows_from form (map row_of earlier.entry.items)
        (map (λ word. word.now) words.now)) }
    ensures none { IfErr result (λ fault. fault ≢ WordProblem.Memory → spec.rows_from form (map row_of earlier.entry.items) (map (λ word. word.now) words.now)
        ≡ None) }
{
    let mut given = earlier;
    for word in words {
        let one = match added(direction, form, word, given.as_slice()) {
            Ok(one) => one,
            Err(problem) => return Err(problem),
        };
        if given.push(one).is_err() {
            return Err(WordProblem::Memory);
        }
    }
    Ok(given)
}

/// The captures that words PORT=NAME and words PORT give.
///
/// # Errors
///
/// The first word that does not have its form, or whose capture cannot be given together with an earlier one; or that memory was refused.
pub fn captures_of<'a>(
    alloc: Global,
    direction: Direction,
    named: &[&'a str],
    bare: &[&'a str],
) -> Result<Vec<Replaced<'a>>, WordProblem<'a>>
    ensures given { IfOk result (λ given. Some (map row_of given.items) ≡ spec.rows_of (map (λ word. word.now) named.now) (map (λ word. word.now) bare.now)) }
    ensures none { IfErr result (λ fault. fault ≢ WordProblem.Memory → spec.rows_of (map (λ word. word.now) named.now) (map (λ word. word.now) bare.now)
        ≡ None) }
{
    let given = add_words(direction, WordForm::Named, named, Vec::new(alloc))?;
    add_words(direction, WordForm::Bare, bare, given)
}

impl fmt::Display for WordProblem<'_> {
    fn fmt<W: fmt::Write>(&self, f: &mut fmt::Formatter<W>) -> fmt::Result {
        match *self {
            WordProblem::Memory => f.write_str("fault: memory"),
            WordProblem::Unread(word, form) => {
                let wanted = match form {
                    WordForm::Named =>
                        "PORT=NAME: PORT a digit from 0 to 7, NAME a capture, or - for the standard stream",
                    WordForm::Bare => "a port: a digit from 0 to 7",
                };
                write!(f, "error: '{word}' is not {wanted}")
            }
            WordProblem::Clash(direction, one, other) => {
                let (word, earlier, port) = (one.word, other.word, one.port);
                if other.port == port {
                    let (another, words) = match direction {
                        Direction::In => ("another input", "--in or --no-in"),
                        Direction::Out => ("another output", "--out or --no-out"),
                    };
                    return write!(
                        f,
                        "error: '{word}' gives port {port} {another} than '{earlier}': one {words} for each port"
                    );
                }
                let both = match direction {
                    Direction::In => "read standard input",
                    Direction::Out => "write standard output",
                };
                write!(
                    f,
                    "error: '{earlier}' and '{word}' both {both}: one port alone can"
                )
            }
        }
    }
}

/// The capture of a port: the one that is given, or else the file of this name.
pub fn capture_at<'a>(given: &[Replaced<'a>], port: usize, name: &'a str) -> (Place, &'a str)
    ensures { (result.0, result.1.now) ≡ spec.capture_at given.now port name.now }
{
    for one in given {
        if usize::from(one.port) == port {
            return (one.place, one.name);
        }
    }
    (Place::File, name)
}

/// The first port of these captures that a pipeline with this number of ports does not have.
fn missing_in(given: &[Replaced<'_>], ports: usize) -> Option<u8>
    ensures { result ≡ spec.missing_in ports given.now }
{
    for one in given {
        if ports <= usize::from(one.port) {
            return Some(one.port);
        }
    }
    None
}

/// The captures that words give the ports of a pipeline: those that are read, and those that are written.
#[derive(Drop)]
pub struct Replacements<'a> {
    pub inputs: Vec<Replaced<'a>>,
    pub outputs: Vec<Replaced<'a>>,
}

impl<'a> Replacements<'a> {
    /// None: each port has the captures that the pipeline names.
    pub fn none(alloc: Global) -> Replacements<'a>
        ensures inputs { result.inputs.items ≡ [] }
        ensures outputs { result.outputs.items ≡ [] }
    {
        Replacements {
            inputs: Vec::new(alloc),
            outputs: Vec::new(alloc),
        }
    }

    /// The captures of a pipeline with one port: what these two words name.
    ///
    /// # Errors
    ///
    /// `AllocError` if there is no memory for them.
    pub fn of_one(
        alloc: Global,
        input: &'a str,
        output: &'a str,
    ) -> Result<Replacements<'a>, AllocError>
        ensures inputs { IfOk result (λ given. map row_of given.inputs.items ≡ spec.only input.now ∷ []) }
        ensures outputs { IfOk result (λ given. map row_of given.outputs.items ≡ spec.only output.now ∷ []) }
    {
        let inputs = Vec::from_slice(alloc, &[capture_named(input, 0, input)])?;
        let outputs = Vec::from_slice(alloc, &[capture_named(output, 0, output)])?;
        Ok(Replacements { inputs, outputs })
    }

    /// The first of these ports that a pipeline with this number of ports does not have.
    pub fn missing(&self, ports: usize) -> Option<u8>
        ensures { result ≡ spec.missing ports self.now.inputs.items self.now.outputs.items }
    {
        let missing = missing_in(self.inputs.as_slice(), ports);
        missing.or(missing_in(self.outputs.as_slice(), ports))
    }

    /// Whether one of the outputs is standard output.
    pub fn take_stdout(&self) -> bool
        ensures { result ≡ list_any (λ one. spec.is_stream one.place) self.now.outputs.items }
    {
        for one in &self.outputs {
            if is_stream(one.place) {
                return true;
            }
        }
        false
    }
}
