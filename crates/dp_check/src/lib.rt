//! The checker of node programs: decides whether a program and its certificate pass the rules J1 to J11, which docs/reference/certificate.md of the
//! repository describes. Nothing here takes memory, and each instruction is visited once.
//!
//! Who owns what: `check` takes the program and the certificate; `Checked` owns both, with a copy of the environment, and `Refused` gives both back.
//! Only `check` makes a `Checked`, and only a `Checked` reaches an engine, so the engine need not test what the rules establish.
//!
//! What to call: `check`; `diagnose`, which says why a program is refused; `fault_of`, which decides without taking the program.
//!
//! What not to do: do not use a `Checked` in another environment or at another entry than its own (`env`, `entry`). `leads_of` and `entails` are
//! parts of the rules, public for the inferrer; they decide nothing.
//!
//! Where each rule is: `diagnosis.rt` has J1 and J2 and goes through the labels, `rules.rt` applies J3 to J11 to one label, `requirements.rt` tests
//! what an instruction needs for J3 to J10, by the table `needs` of dp_model for J4 to J7, and `transfer.rt` has where it leads and which facts hold
//! there. The definitions are in dp_model, `specs/Rules.antt`, `specs/Needs.antt` and `specs/Rows.antt`.
#![tactic(auto)]

mod bounds;
mod checked;
mod diagnosis;
mod difference;
mod entailing;
mod groups;
mod laws;
mod packet_facts;
mod reason;
mod requirements;
mod rules;
mod transfer;

pub use checked::{Checked, Fault, Refused, check, fault_of};
pub use diagnosis::{Diagnosis, diagnose};
pub use dp_model::Measure;
pub use entailing::{entails, fact_entails};
pub use groups::{reshared, shares_group};
pub use laws::raised_certificates_get_the_same_answer;
pub use packet_facts::owns_head;
pub use reason::{Gap, Reason};
pub use transfer::{Leads, leads_of};
