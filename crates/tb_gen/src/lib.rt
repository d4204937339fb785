//! Generated scripts.
#![tactic(auto)]

mod ring;

pub use ring::ring_script;
