//! The table of forms: for each instruction its word, its fields, and the kind of each operand.

ghost use Rattle.std.specs.Prelude.{◌≡◌, map};
ghost use Rattle.dp_model.specs.Needs.{label_of};
ghost use Rattle.dp_model.specs.Rules.{uses};
ghost use Rattle.dp_lang.specs.Fields.{fielded_statement};
ghost use Rattle.dp_lang.specs.Forms.{word_of, kinds_of, form_of, forms, spelled};
ghost use Rattle.dp_lang.specs.Views.{label_in, listed, numbered, seen_in, seen_of, used_in};

use crate::argument::{Arguments, Named, Numbered};
use crate::field::{
    byte_at, count_at, number_at, packet_at, register_at, register_or_constant_at, width_at,
};
use dp_model::Instr;

/// The kind of an operand.
#[derive(Clone, Copy)]
pub enum OperandKind {
    /// A packet register.
    Packet,
    /// A number register.
    Register,
    /// A number in this range.
    Number { least: u64, most: u64 },
    /// A width: 1, 2, 4 or 8.
    Width,
    /// A number register or a constant.
    RegisterOrConstant,
    /// The name of a label.
    Label,
}

/// The largest count of bytes, and the largest offset.
pub const MAX_COUNT: u64 = 65_535;

/// A count of bytes, or an offset in a packet.
pub(crate) const COUNT: OperandKind = OperandKind::Number {
    least: 0,
    most: MAX_COUNT,
};

/// Any number of 64 bits.
pub(crate) const CONSTANT: OperandKind = OperandKind::Number {
    least: 0,
    most: u64::MAX,
};

/// The index of a pool.
pub(crate) const POOL: OperandKind = OperandKind::Number { least: 0, most: 7 };

/// The index of a table of routes.
pub(crate) const TABLE: OperandKind = OperandKind::Number { least: 0, most: 3 };

/// The index of a ring.
pub(crate) const RING: OperandKind = OperandKind::Number { least: 0, most: 7 };

/// How many bits to shift by.
pub(crate) const SHIFT: OperandKind = OperandKind::Number { least: 0, most: 63 };

/// Any number of 64 bits but 0.
pub(crate) const POSITIVE: OperandKind = OperandKind::Number {
    least: 1,
    most: u64::MAX,
};

/// The form of an instruction.
#[derive(Clone, Copy)]
pub enum Form {
    Alloc,
    Free,
    Clone,
    Prepend,
    Adj,
    Append,
    Trim,
    Chain,
    IfHead,
    IfTail,
    IfLen,
    IfLast,
    Load,
    Store,
    LoadX,
    StoreX,
    Set,
    Mov,
    Add,
    Sub,
    And,
    Or,
    Xor,
    Shl,
    Shr,
    Jmp,
    Jeq,
    Jlt,
    Lookup,
    Tx,
    Enq,
    Exit,
}

/// The table itself, handed to the macro that is named: each row has the word of an instruction, and its fields in the order of the text, each with
/// its kind and range.
macro_rules! forms {
    ($use:ident $($given:tt)*) => {
        $use! { $($given)*;
            Alloc "alloc" { into: Target, pool: Small(POOL), refused: Label };
            Free "free" { packet: Packet };
            Clone "clone" { into: Target, from: Packet, pool: Small(POOL), refused: Label };
            Prepend "prepend" { packet: Packet, count: Count(COUNT) };
            Adj "adj" { packet: Packet, count: Count(COUNT) };
            Append "append" { packet: Packet, count: Count(COUNT) };
            Trim "trim" { packet: Packet, count: Count(COUNT) };
            Chain "chain" { front: Packet, back: Packet };
            IfHead "ifhead" { packet: Packet, least: Count(COUNT), less: Label };
            IfTail "iftail" { packet: Packet, least: Count(COUNT), less: Label };
            IfLen "iflen" { packet: Packet, least: Count(COUNT), less: Label };
            IfLast "iflast" { packet: Packet, least: Count(COUNT), less: Label };
            Load "load" { into: Register, packet: Packet, offset: Count(COUNT), width: Width };
            Store "store" { packet: Packet, offset: Count(COUNT), width: Width, from: Register };
            LoadX "loadx" { into: Register, packet: Packet, index: Register, offset: Count(COUNT), width: Width };
            StoreX "storex" { packet: Packet, index: Register, offset: Count(COUNT), width: Width, from: Register };
            Set "set" { into: Register, value: Constant(CONSTANT) };
            Mov "mov" { into: Register, from: Register };
            Add "add" { into: Register, by: RegisterOrConstant };
            Sub "sub" { into: Register, by: RegisterOrConstant };
            And "and" { into: Register, by: RegisterOrConstant };
            Or "or" { into: Register, by: RegisterOrConstant };
            Xor "xor" { into: Register, by: RegisterOrConstant };
            Shl "shl" { into: Register, by: Small(SHIFT) };
            Shr "shr" { into: Register, by: Small(SHIFT) };
            Jmp "jmp" { to: Label };
            Jeq "jeq" { left: Register, right: RegisterOrConstant, equal: Label };
            Jlt "jlt" { left: Register, right: Constant(POSITIVE), below: Label };
            Lookup "lookup" { into: Register, table: Small(TABLE), address: Register, missed: Label };
            Tx "tx" { packet: Packet, port: Register, full: Label };
            Enq "enq" { packet: Packet, ring: Small(RING), full: Label };
            Exit "exit" {};
        }
    };
}

/// Expands to the list of all forms, in the order of the table.
macro_rules! list {
    (; $($name:ident $word:literal $fields:tt;)+) => { &[$(Form::$name),+] };
}

/// Expands to a match from a form to its word.
macro_rules! word {
    ($form:expr ; $($name:ident $word:literal $fields:tt;)+) => {
        match $form { $(Form::$name => $word,)+ }
    };
}

/// Expands to the kind of a field.
macro_rules! kind {
    (Target) => { OperandKind::Packet };
    ($kind:ident) => { OperandKind::$kind };
    ($kind:ident $range:ident) => { $range };
}

/// Expands to a match from a form to the kinds of its operands, in order.
macro_rules! kinds {
    ($form:expr ; $($name:ident $word:literal { $($field:ident: $kind:ident $(($range:ident))?),* };)+) => {
        match $form { $(Form::$name => &[$(kind!($kind $($range)?)),*],)+ }
    };
}

/// Expands to a match from an instruction to its form.
macro_rules! form {
    ($instr:expr ; $($name:ident $word:literal $fields:tt;)+) => {
        match $instr { $(Instr::$name { .. } => Form::$name,)+ }
    };
}

/// Expands to a list of operands, in the variant of that length.
macro_rules! arguments {
    () => { Arguments::Zero };
    ($a:expr) => { Arguments::One([$a]) };
    ($a:expr, $b:expr) => { Arguments::Two([$a, $b]) };
    ($a:expr, $b:expr, $c:expr) => { Arguments::Three([$a, $b, $c]) };
    ($a:expr, $b:expr, $c:expr, $d:expr) => { Arguments::Four([$a, $b, $c, $d]) };
    ($a:expr, $b:expr, $c:expr, $d:expr, $e:expr) => { Arguments::Five([$a, $b, $c, $d, $e]) };
}

/// Expands to a match from an instruction to its operands.
macro_rules! row {
    ($instr:expr ; $($name:ident $word:literal { $($field:ident: $kind:ident $(($range:ident))?),* };)+) => {
        match $instr { $(Instr::$name { $($field),* } => arguments!($(Numbered::$kind($field)),*),)+ }
    };
}

/// Expands to the code that reads a field from the operand of a text at a place; a label becomes the number that is given for it.
macro_rules! read {
    (Target $given:expr, $place:literal, $label:expr) => { packet_at($given, $place) };
    (Packet $given:expr, $place:literal, $label:expr) => { packet_at($given, $place) };
    (Register $given:expr, $place:literal, $label:expr) => { register_at($given, $place) };
    (Small $given:expr, $place:literal, $label:expr) => { byte_at($given, $place) };
    (Count $given:expr, $place:literal, $label:expr) => { count_at($given, $place) };
    (Constant $given:expr, $place:literal, $label:expr) => { number_at($given, $place) };
    (Width $given:expr, $place:literal, $label:expr) => { width_at($given, $place) };
    (RegisterOrConstant $given:expr, $place:literal, $label:expr) => { register_or_constant_at($given, $place) };
    (Label $given:expr, $place:literal, $label:expr) => { $label };
}

/// Expands to an instruction, each field read from the operand at its index.
macro_rules! filled {
    ($name:ident $given:expr, $label:expr, [$($place:literal)*] { $($done:tt)* }) => { Instr::$name { $($done)* } };
    ($name:ident $given:expr, $label:expr, [$place:literal $($places:literal)*] { $($done:tt)* } $field:ident $kind:ident $($more:ident)*) => {
        filled!($name $given, $label, [$($places)*] { $($done)* $field: read!($kind $given, $place, $label), } $($more)*)
    };
}

/// Expands to a match from a form to its instruction, read from the operands of a text and the number of its label.
macro_rules! built {
    ($form:expr, $given:expr, $label:expr ; $($name:ident $word:literal { $($field:ident: $kind:ident $(($range:ident))?),* };)+) => {
        match $form { $(Form::$name => filled!($name $given, $label, [0 1 2 3 4] {} $($field $kind)*),)+ }
    };
}

/// All forms, in the order of the table.
pub fn all_forms() -> &'static [Form]
    ensures { result.now ≡ forms }
{
    forms!(list)
}

impl Form {
    /// The word that begins its instructions.
    pub fn word(self) -> &'static str
        ensures { result.now ≡ word_of self }
    {
        forms!(word self)
    }

    /// The kinds of its operands, in order.
    pub fn kinds(self) -> &'static [OperandKind]
        ensures { result.now ≡ kinds_of self }
    {
        forms!(kinds self)
    }

    /// The form with this word.
    #[tactic(auto, unfolding(crate::specs::Forms::form_of))]
    pub fn of_word(word: &[u8]) -> Option<Form>
        ensures { result ≡ form_of word.now }
    {
        all_forms()
            .iter()
            .copied()
            .find(|form| form.word().as_bytes() == word)
    }
}

/// The form of an instruction.
pub fn form_of(instr: &Instr) -> Form
    ensures { result ≡ (spelled instr.now).form }
{
    let instr = *instr;
    forms!(form instr)
}

/// The operands of an instruction, each with its role.
fn row_of(instr: &Instr) -> Arguments
    ensures { seen_in (listed result) ≡ seen_of instr.now }
{
    let instr = *instr;
    forms!(row instr)
}

/// The operands of an instruction.
pub fn arguments_of(instr: &Instr) -> Arguments
    ensures spelled { map numbered (listed result) ≡ (spelled instr.now).arguments }
    ensures used { used_in (listed result) ≡ uses instr.now }
    ensures label { label_in (listed result) ≡ label_of instr.now }
{
    row_of(instr)
}

/// Makes the instruction of a form from its operands and the number of its label.
pub fn built(form: Form, given: &[Named], label: u16) -> Instr
    ensures { spelled result ≡ fielded_statement form given.now label }
{
    forms!(built form, given, label)
}
