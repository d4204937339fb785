//! A theorem about the ring: its script is accepted, and its simulation ends because the bus has shut down.
#![tactic(auto)]

mod laws;

pub use laws::each_ring_goes_down;
