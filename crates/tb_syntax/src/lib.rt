//! Scripts as trees, the token sequences that spell them, and their printed text.
#![tactic(auto)]

mod ast;
mod atom_words;
mod atoms;
mod definitions;
mod exprs;
mod gap;
mod laws;
mod level;
mod print;
mod proc;
mod procs;
mod proper;
mod push;
mod script;
mod sorts;
mod text;
mod words;

pub use ast::{Ast, AstKind, Asts};
pub use atom_words::{AtomWord, TimeWord, atom_word, is_atom_word, is_time_word, time_word};
pub use laws::{each_word_is_read, looser_stands_in_parens, parens_are_balanced};
pub use level::Level;
pub use print::print_script;
pub use proc::{ActDef, AtomDef, Call, Calls, Proc, TimeDef, TimeDefs, Var, Vars};
pub use script::{Formal, Formals, ProcDef, ProcDefs, Script, ToolDef, ToolDefs};
pub use words::{is_reserved, is_sort_word};
