//! The simulation of a script: a core runs to its end, and always takes the first possible step.
#![tactic(auto)]

mod ends;
mod laws;
mod simulation;

pub use ends::SimEnd;
pub use laws::{
    each_bus_has_a_simulation, one_simulation, prefixes_have_an_end, simulations_log_traces,
};
pub use simulation::simulate;
