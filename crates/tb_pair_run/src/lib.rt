//! Two buses and a pipe: the run of all workers of both, and the two logs after it.
#![tactic(auto)]

mod apart;
mod crewing;
mod ending;
mod ends;
mod idle;
mod laws;
mod lent;
mod parts;
mod running;
mod stock;
mod team;
mod working;

pub use ends::{BusWhy, PairWhy};
pub use laws::{a_pair_has_its_two_logs, a_pair_that_ended_was_not_refused};
pub use running::run_pair;
