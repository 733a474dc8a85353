//! `Statement`: an instruction as the text has it.

ghost use Rattle.std.specs.Prelude.{◌≡◌, true, map};
ghost use Rattle.dp_lang.specs.Forms.{kinds_of};
ghost use Rattle.dp_lang.specs.Kinds.{all_of};
ghost use Rattle.dp_lang.specs.Views.{argument};

use crate::argument::Named;
use crate::form::Form;

/// An instruction as the text has it, with its line.
#[derive(Drop)]
pub struct Statement<'a> {
    pub line: usize,
    pub form: Form,
    pub arguments: Vec<Named<'a>>,
    ghost fits: { all_of (kinds_of form) (map argument arguments.items) ≡ true },
}
