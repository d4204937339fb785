//! Theorems about accepted sources: which programs they have.
#![tactic(auto)]

mod laws;

pub use laws::{tools_have_no_names_of_types, without_the_symbol_there_is_no_disrupt};
