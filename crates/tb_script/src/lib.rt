//! Makes the program of a script from its bytes.
#![tactic(auto)]

mod accepting;
mod expanding;
mod fault;
mod laws;
mod loading;
mod program;
mod reading;
mod roots;
mod writing;

pub use accepting::accept;
pub use fault::ScriptFault;
pub use laws::a_text_has_one_program;
pub use loading::load;
pub use writing::write_fault;
