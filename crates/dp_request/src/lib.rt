//! A command of `dpv` before it decides: its words, its host, and the files that it reads.
//!
//! [`command`] is the command line as `clap` reads it. A [`Request`] is a command with its words. [`read_pipeline`] reads a pipeline file with the routes
//! that the words give, and [`load_pipeline`] loads it. What fails here fails with the reply that ends the command early. The commands are in dp_cli.
//!
//! What not to assume: the shapes of the commands, and the words of replies, are tested, not proved.
#![tactic(auto)]

mod command_line;
mod operands;
mod reading;

pub use command_line::command;
pub use operands::{node_named, number_in, numbers_in, port_in};
pub use reading::{
    About, Given, Loaded, Request, load_pipeline, node_in, read_about, read_file, read_nodes,
    read_pipeline,
};
