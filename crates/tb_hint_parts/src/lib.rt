//! The parts of a message about a rejected script: the source around a token, and the message piece by piece.
#![tactic(auto)]

mod forms;
mod functions;
mod lines;
mod near;
mod reach;
mod said;
mod scan;
mod source;

pub use forms::say_form;
pub use functions::{say_assigned_operator, say_functions, signature_of};
pub use near::Near;
pub use reach::say_known;
pub use said::{Said, joint};
pub use scan::{
    Head, count_arguments, count_parameters, declaration_of, declared_in, definition_of, head_of,
    is_result, parameter_of, scope_of,
};
pub use source::{Source, between, is_among, is_lower, is_upper, text_of};
