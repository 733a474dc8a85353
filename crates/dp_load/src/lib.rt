//! Loads pipeline files with the node programs that they name.
//!
//! Who owns what: a `Pipeline` owns its environment, tables and checked programs; only `load` and `load_single` make one, so every program in it is accepted.
//!
//! What to call: `load`, or `survey_of`, which reads the file alone.
//!
//! What not to do: do not expect a name of a file to be one on disk; a `Files` answers it.
#![tactic(auto)]

mod causes;
mod config;
mod error;
mod file_names;
mod files;
mod keys;
mod listed;
mod loading;
mod nodes;
mod parts;
mod pipeline;
mod reader;
mod routes;
mod setup;
mod single;
mod surveying;

pub use causes::NodeName;
pub use error::{FetchFault, Part, PipeError, RouteError};
pub use files::{Files, MAX_FILE};
pub use listed::{Listed, NamedBytes};
pub use loading::load;
pub use nodes::{How, bytes_of, cert_of};
pub use pipeline::Pipeline;
pub use single::{SingleFiles, load_single};
pub use surveying::{Survey, survey_of};
