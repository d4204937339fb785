//! The evaluation of expressions: the functions that they can apply, the store of the variables, the values and patterns of expressions
//! in a store, and the text of `printf`.
#![tactic(auto)]

mod built;
mod calls;
mod functions;
mod laws;
mod limits;
mod lists;
mod measured;
mod numbers;
mod open;
mod parts;
mod patterns;
mod printer;
mod printing;
mod shape;
mod slot;
mod store;
mod values;

pub use calls::apply;
pub use functions::{function, signature};
pub use laws::{plain_expressions_are_fixed, values_fit_signatures};
pub use parts::{bool_of, int_of};
pub use patterns::pattern;
pub use printing::printf_text;
pub use shape::{Shape, Signature};
pub use slot::Slot;
pub use store::Store;
pub use values::eval;
