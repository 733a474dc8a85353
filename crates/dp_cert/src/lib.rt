//! Certificates: a row for each instruction of a program, with `decode` from text and `encode` back. docs/reference/certificate.md of the repository
//! describes the text.
//!
//! Who owns what: a `Cert` owns its rows, each of which is well formed. `decode` keeps no part of the text.
//!
//! What to call: `decode` with the number of the program's instructions, `encode` for the one text of a certificate, `Cert::new` for rows that were
//! inferred, `raise` for the same rows in version 2.
//!
//! What not to do: a `Cert` need not fit a program. A row may say anything that is well formed; dp_check decides whether a program is accepted with
//! it. `Cert::new` requires well-formed rows, and tests nothing.
#![tactic(auto)]

mod cert;
mod decoding;
mod encoding;
mod error;
mod laws;
mod parsing;

pub use cert::{Cert, Version};
pub use decoding::decode;
pub use encoding::encode;
pub use error::{Cause, CertError, Fault};
pub use laws::{certificates_have_one_spelling, encoded_certificates_are_read_again};
