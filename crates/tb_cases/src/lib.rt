//! The parts that the test programs share: texts with escapes, and the count of tests.
#![tactic(auto)]

mod escapes;
mod tally;

pub use escapes::meant;
pub use tally::Tally;
