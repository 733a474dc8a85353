//! Laws of rows for inference, as contracts of functions that do nothing.

ghost use Rattle.std.specs.Prelude.{ℕ, IsTrue};
ghost use Rattle.dp_model.specs.declared.row.Row.{Row};
ghost use Rattle.dp_model.specs.declared.instr.Instr.{Instr};
ghost use Rattle.dp_model.specs.Environments.{Environment};
ghost use Rattle.dp_model.specs.Rows.{entails, leads, is_well_formed_row};
ghost use Rattle.dp_model.specs.declared.rule.Rule.{Rule};
ghost use Rattle.dp_model.specs.Rules.{Question, targets_fit, holds_at};
ghost use Rattle.dp_infer.specs.Laws.{LeadsEntail, HaveLeastRow};

/// Two rows that entail a third have a strongest row that both entail.
pub fn rows_have_a_least_common_row()
    ensures { (a b upper : Row) → IsTrue (is_well_formed_row upper) → IsTrue (entails a upper) → IsTrue (entails b upper) → HaveLeastRow a b upper }
{}

/// The row after an instruction keeps entailment, if the instruction's target is empty.
pub fn rows_after_keep_entailment()
    ensures { (env : Environment) (label : ℕ) (i : Instr) (a b : Row) → IsTrue (is_well_formed_row a) → IsTrue (is_well_formed_row b) → IsTrue (entails a b)
        → IsTrue (targets_fit b i) → LeadsEntail (leads env label a i) (leads env label b i) }
{}

/// A rule that holds of a row holds of every row that entails it, if the instruction's target is empty.
pub fn rules_hold_of_entailing_rows()
    ensures { (question : Question) (label : ℕ) (i : Instr) (a b : Row) (rule : Rule) → IsTrue (is_well_formed_row a) → IsTrue (is_well_formed_row b) →
        IsTrue (entails a b)
        → IsTrue (targets_fit b i) → IsTrue (holds_at question label i b rule) → IsTrue (holds_at question label i a rule) }
{}
