//! The inferrer of certificates: finds what is known before each instruction of a program. For a forward program, in which each named label comes
//! after its instruction, the result is exact: it finds a certificate wherever one exists. For loops it weakens rows until they are stable, which is
//! a heuristic.
//!
//! Who owns what: `infer` and `attempt` borrow the program, and the certificate is the caller's. `infer_checked` takes the program, and does not give
//! it back if there is no certificate.
//!
//! What to call: `infer_checked` to have the program checked with what is found, `infer` for the certificate alone, `attempt` for the certificate
//! with which to explain a refusal.
//!
//! What not to assume: the result of `infer` is checked, and nobody has to trust it; that of `attempt` may be one with which the program is refused.
//! `NoCert` of a program with a backward jump does not say that there is no certificate. No caller may depend on the rows with which loops end.
#![tactic(auto)]

mod inferring;
mod join;
mod laws;
mod widening;

pub use inferring::{InferError, attempt, infer, infer_checked};
pub use laws::{
    rows_after_keep_entailment, rows_have_a_least_common_row, rules_hold_of_entailing_rows,
};
