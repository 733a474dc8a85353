//! The file names in a pipeline file.

/// The files of a node: its program, and its certificate if one is named.
#[derive(Drop)]
pub(crate) struct NodeNames {
    /// The program file.
    pub node: String,
    /// The certificate file.
    pub cert: Option<String>,
}

/// The files of a port: those of its node, and its captures.
#[derive(Drop)]
pub(crate) struct PortNames {
    /// Its node's files.
    pub files: NodeNames,
    /// The capture that the port reads.
    pub input: String,
    /// The capture that the port writes.
    pub output: String,
}
