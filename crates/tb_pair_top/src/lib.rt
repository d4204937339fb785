//! The program `toolbus_pair`: reads the arguments of the command line, runs two scripts as a pair, and reports an error.
#![tactic(auto)]

mod fault;
mod laws;
mod loading;
mod logs;
mod report;
mod running;
mod status;
mod top;

pub use fault::PairFault;
pub use laws::{a_pair_has_two_logs, a_pair_of_accepted_scripts_ends};
pub use status::{PairEdge, PairStatus};
pub use top::pair;
