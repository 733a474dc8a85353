//! A law of checks, as a contract of a function that does nothing.

ghost use Rattle.std.specs.Prelude.{◌↔◌, ℕ, List};
ghost use Rattle.dp_model.specs.declared.env.Entry.{Entry};
ghost use Rattle.dp_model.specs.declared.instr.Instr.{Instr};
ghost use Rattle.dp_model.specs.Environments.{Environment};
ghost use Rattle.dp_model.specs.declared.rule.Rule.{Rule};
ghost use Rattle.dp_model.specs.Rules.{IsAccepted, IsRefused};
ghost use Rattle.dp_cert.specs.Spelling.{Certificate, raised};
ghost use Rattle.dp_check.specs.Faults.{question};

/// `check` returns the same for a certificate and for its `Cert::raise`: accepted, or refused at the same label by the same rule.
pub fn raised_certificates_get_the_same_answer()
    ensures accepted { (program : List Instr) (cert : Certificate) (env : Environment) (entry : Entry) →
        (IsAccepted (question program cert env entry)) ↔ (IsAccepted (question program (raised cert) env entry)) }
    ensures refused { (program : List Instr) (cert : Certificate) (env : Environment) (entry : Entry) (label : ℕ) (rule : Rule) →
        (IsRefused (question program cert env entry) label rule) ↔ (IsRefused (question program (raised cert) env entry) label rule) }
{}
