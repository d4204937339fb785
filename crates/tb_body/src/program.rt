//! Programs: the bodies of the processes, the tools, and the processes at the start.
ghost use Rattle.std.specs.Prelude.{◌≡◌, IsTrue, IfSome, is_some};
ghost use Rattle.tb_body.specs.Programs.{is_program_in_range};

use crate::Bodies;
use crate::in_program::is_program_in_range;
use tb_terms::{Items, Name, Terms, Text};

/// A process that exists from the start.
#[derive(Drop)]
pub struct Root {
    /// The position of the body, from 0.
    pub process: u32,
    /// The values of the parameters.
    pub actuals: Terms,
}

/// A sequence of roots. The first root has process number 1.
pub type Roots = Items<Root>;

/// A kind of tool. A script can start a tool of this kind only if the kind has a command.
#[derive(Drop)]
pub struct Tool {
    /// The name of the kind.
    pub name: Name,
    /// The command that starts a tool of this kind.
    pub command: Option<Text>,
}

/// A sequence of tool kinds.
pub type Tools = Items<Tool>;

/// A loaded script: the bodies of its processes and its tools, both in order of definition, and its roots, at most 10,000.
#[derive(Drop)]
pub struct Program {
    /// The bodies of the processes, in order of definition.
    pub bodies: Bodies,
    /// The processes that exist from the start.
    pub roots: Roots,
    /// The kinds of tools, in order of definition.
    pub tools: Tools,
    ghost in_range: { IsTrue (is_program_in_range bodies roots tools) },
}

impl Program {
    /// Returns the program, or `None` if its parts aren't in range or it has too many roots.
    pub fn new(bodies: Bodies, roots: Roots, tools: Tools) -> Option<Program>
        ensures is { IfSome result (λ program. (program.bodies ≡ bodies)
            × (program.roots ≡ roots) × (program.tools ≡ tools)) }
        ensures some { is_some result ≡ is_program_in_range bodies roots tools }
    {
        if is_program_in_range(bodies.as_slice(), roots.as_slice(), tools.as_slice()) {
            Some(Program {
                bodies,
                roots,
                tools,
            })
        } else {
            None
        }
    }
}
