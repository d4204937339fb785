//! The shared bus: threads take turns at one core. Each thread has its own handle (`Seat`), and there is one history.
#![tactic(auto)]

mod board;
mod call;
mod laws;
mod notices;
mod plays;
mod rights;
mod seat;
mod share;
mod shared;
mod turn;
mod visit;

pub use laws::{calls_add_their_own, joins_keep_their_own, looks_add_nothing};
pub use rights::Rights;
pub use seat::Seat;
pub use shared::{NoRoom, Shared};
pub use visit::Visit;
