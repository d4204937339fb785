//! The messages about the errors that the checks of a script find: names, arguments, and types.
#![tactic(auto)]

mod arguments;
mod checked;
mod clashes;
mod given;
mod names;
mod roots;
mod wanted;

pub use checked::say_check;
