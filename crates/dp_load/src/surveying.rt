//! The nodes that a pipeline file names, before any of their files is opened.

ghost use Rattle.std.specs.Prelude.{◌≡◌, option_map, option_and_then, string_bytes, IfOk, IfErr};
ghost use Rattle.dp_load.specs.Config.{IsConfigOf, IsFaultOf};
ghost use Rattle.dp_load.specs.Surveys.{files_at};
ghost use Rattle.dp_load.specs.Views.{node_names};

use crate::config::{Config, configure};
use crate::error::PipeError;
use crate::file_names::NodeNames;
use dp_model::{Entry, Env};
use std::alloc::Global;

/// A pipeline file alone: its environment, and the names of its nodes' files.
#[derive(Drop)]
pub struct Survey {
    config: Config,
}

impl Survey {
    /// The environment of its programs.
    pub fn env(&self) -> &Env
        ensures { result.now ≡ self.now.config.env }
    {
        &self.config.env
    }

    /// The file names of a node.
    fn names(&self, node: Entry) -> Option<&NodeNames>
        ensures { option_map (λ names. node_names names.now) result ≡ files_at self.now.config node }
    {
        match node {
            Entry::Port(port) => match self.config.ports.get(usize::from(port)) {
                Some(port) => Some(&port.files),
                None => None,
            },
            Entry::Ring(ring) => self.config.rings.get(usize::from(ring)),
        }
    }

    /// The name of a node's program file, if the pipeline has the node.
    pub fn program(&self, node: Entry) -> Option<&str>
        ensures { option_map (λ name. name.now) result ≡ option_map (λ files. files.node) (files_at self.now.config node) }
    {
        match self.names(node) {
            Some(names) => Some(names.node.as_str()),
            None => None,
        }
    }

    /// The name of a node's certificate file, if one is named.
    pub fn cert(&self, node: Entry) -> Option<&str>
        ensures { option_map (λ name. name.now) result ≡ option_and_then (λ files. files.cert) (files_at self.now.config node) }
    {
        match &self.names(node)?.cert {
            Some(name) => Some(name.as_str()),
            None => None,
        }
    }
}

/// Reads a pipeline's text alone.
///
/// # Errors
///
/// [`PipeError::Memory`], or the first of `NotToml`, `BadKey`, `BadEnv` and `BadTable` that applies.
pub fn survey_of(alloc: Global, text: &[u8]) -> Result<Survey, PipeError>
    ensures ok { IfOk result (λ survey. IsConfigOf text.now survey.config) }
    ensures err { IfErr result (IsFaultOf text.now) }
{
    Ok(Survey {
        config: configure(alloc, text)?,
    })
}
