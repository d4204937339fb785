//! Loads the program of the script in a file.
#![tactic(auto)]

mod fault;
mod loading;

pub use fault::LoadFault;
pub use loading::{MOST_BYTES, load_script};
