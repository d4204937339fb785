//! The check whether a log is a trace of a script.
#![tactic(auto)]

mod laws;
mod verdict;
mod verifying;

pub use laws::a_log_has_one_verdict;
pub use verdict::{Verdict, VerifyFault};
pub use verifying::verify;
