//! What each process of a bus waits for: an entry for each offer, with the condition of its atom that fails.
#![tactic(auto)]

mod explaining;
mod fault;
mod following;
mod formats;
mod laws;
mod looking;
mod own;
mod partners;
mod reason;
mod scene;
mod stall;
mod standing;
mod tools;

pub use explaining::explain;
pub use fault::WhyFault;
pub use following::{Ending, why};
pub use laws::{
    each_reason_fails, no_reason_is_a_move, no_reason_is_a_step, the_explained_bus_is_up,
};
pub use looking::stand;
pub use reason::{FormatFault, Partner, Reason};
pub use stall::{Stall, Waiter};
pub use standing::{Offering, Standing};
