//! Programs: scripts whose calls are replaced. A process is a tree of atoms. Variables are slots, and processes and tools are numbers.
//! The types `Body` and `Program` have only values whose slots and numbers are in range.
#![tactic(auto)]

mod act;
mod atom;
mod body;
mod in_program;
mod in_range;
mod positions;
mod program;
mod tree;

pub use act::Act;
pub use atom::{Atom, Atoms, Time, TimeKind, Times, copy_atoms};
pub use body::{Bodies, Body, MOST_BODY_ATOMS, MOST_BODY_LEVELS};
pub use in_program::MOST_ROOTS;
pub use program::{Program, Root, Roots, Tool, Tools};
pub use tree::{Setting, Settings, Tree, copy_settings};
