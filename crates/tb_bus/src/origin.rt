//! The program, the commands, and the limit of the log with which a bus starts.
use tb_body::Program;
use tb_terms::Texts;

/// The program, the commands, and the limit of the log with which a bus starts. They never change.
#[derive(Drop)]
pub struct Origin {
    /// The loaded script: its bodies, its kinds of tools, and the processes with which it starts.
    pub program: Program,
    /// The commands that start the first lanes, from lane 1 on.
    pub connects: Texts,
    /// The greatest number of entries in the log.
    pub limit: u32,
}
