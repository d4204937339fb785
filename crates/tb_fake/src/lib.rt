//! Sixteen pairs of lane ends for tests, and a clock without ticks. Each inlet gives its cues when they are due, and each outlet keeps the
//! items that it takes.
#![tactic(auto)]

mod board;
mod cue;
mod fake_clock;
mod fake_inlet;
mod fake_outlet;
mod pairs;
mod record;

pub use cue::{Cue, Cues, Fail, Fails};
pub use fake_clock::FakeClock;
pub use fake_inlet::FakeInlet;
pub use fake_outlet::FakeOutlet;
pub use pairs::{FakePair, FakePairs, fakes};
pub use record::Records;
