//! The trees of scripts and of their definitions.

use crate::{Calls, Proc};
use tb_terms::{Ident, Items, Name, Sort, Text};

/// A parameter of a process.
#[derive(Drop)]
pub struct Formal {
    /// The name of the parameter.
    pub name: Ident,
    /// The type of the parameter.
    pub sort: Sort,
    /// Whether it is a result parameter, which is written with a `?`.
    pub result: bool,
    /// The position of the name.
    pub token: usize,
    /// The position of the innermost name of the type.
    pub sort_token: usize,
}

/// Parameters in order.
pub type Formals = Items<Formal>;

/// The definition of a process.
#[derive(Drop)]
pub struct ProcDef {
    /// The name of the process.
    pub name: Ident,
    /// The parameters, in order.
    pub formals: Formals,
    /// The process that a call runs.
    pub body: Proc,
    /// The position of the word `process`.
    pub token: usize,
}

/// Definitions of processes, in the order of the script.
pub type ProcDefs = Items<ProcDef>;

/// The declaration of a tool.
#[derive(Drop)]
pub struct ToolDef {
    /// The name of the tool.
    pub name: Name,
    /// The command that starts the tool, if it is given.
    pub command: Option<Text>,
    /// The position of the word `tool`.
    pub token: usize,
}

/// Declarations of tools, in the order of the script.
pub type ToolDefs = Items<ToolDef>;

/// A script: its definitions, and the processes with which it starts. Each `token` is the position of the construct's first token
/// in the script's tokens, counted from 0.
#[derive(Drop)]
pub struct Script {
    /// The definitions of processes.
    pub procs: ProcDefs,
    /// The declarations of tools.
    pub tools: ToolDefs,
    /// The calls of the processes with which the script starts.
    pub roots: Calls,
}
