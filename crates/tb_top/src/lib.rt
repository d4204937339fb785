//! The program `toolbus`: reads the arguments of the command line, does the requested command, and reports its error.
#![tactic(auto)]

mod accepting;
mod check;
mod fault;
mod iface;
mod laws;
mod loading;
mod report;
mod ring;
mod run;
mod sim;
mod status;
mod top;
mod verify;

pub use fault::Fault;
pub use laws::{
    a_log_is_judged, a_ring_has_one_summary, a_ring_is_put, a_run_has_one_log,
    a_run_of_an_accepted_script_ends, a_simulation_has_one_log, a_simulation_that_ends_is_put,
    a_tool_of_a_script_has_its_interface_put, an_accepted_script_is_told,
};
pub use status::{Bound, Edge, LogWrong, Status};
pub use top::toolbus;
