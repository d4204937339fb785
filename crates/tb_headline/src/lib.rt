//! The words of the headlines of a run and of a pair, and theorems about the entries of each trace.
#![tactic(auto)]

mod laws;

pub use laws::{
    a_bus_is_shut_down_by_a_step, a_text_is_that_of_one_log,
    quiet_is_logged_only_if_nothing_can_step,
};
