//! The verdicts on the nodes of a pipeline, or on one program: accepted, refused with the reason, or without a certificate.
//!
//! [`check_text`] loads a pipeline, and [`explain`] judges each node by itself ([`judge`]). Both give a [`Report`]: a [`Finding`] for each node, and
//! the fault that ended the command, if one did. [`reply_of`] says it as text or as a JSON document. [`say_costs`] adds what accepted programs can
//! cost. [`infer`] and [`infer_one`] give the certificate of a program. All texts are [`Sources`](dp_sources::Sources), and a reply is printed by its
//! caller. [`load_line`], [`check_line`] and [`infer_line`] do the same over any files and any two writers.
#![tactic(auto)]

mod costs;
mod inferring;
mod judging;
mod lines;
mod reasons;
mod report;

pub use costs::say_costs;
pub use inferring::{infer, infer_one};
pub use judging::{Judged, check_text, explain, judge, misread, unloaded};
pub use lines::{check_line, infer_line, load_line};
pub use report::{Finding, RefusedAt, Report, Verdict, Why, failed, no_node, reply_of};
