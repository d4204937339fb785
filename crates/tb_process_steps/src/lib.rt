//! The process algebra of scripts: process terms, their offers, and the terms after an offer is taken or a tick passes.
#![tactic(auto)]

mod fire;
mod fired;
mod found;
mod laws;
mod look;
mod node;
mod offer;
mod plan;
mod rewriter;
mod running;
mod settings;
mod times;
mod values;
mod walker;

pub use found::{Found, copy_candidates, copy_own};
pub use laws::{
    accepted_binds_are_taken, ageing_keeps_terms, ages_are_within_the_ticks, ages_behind_are_new,
    offers_age, offers_ascend, offers_keep_sorts, right_sides_are_alone, right_sides_wait,
    walks_stay_reached,
};
pub use look::store_of;
pub use offer::Offer;
pub use plan::Plan;
pub use rewriter::Rewriter;
pub use settings::{set_binds, tested, with_settings};
pub use times::is_ready;
pub use values::{accepted_binds, matched_patterns, sent_values};
pub use walker::Walker;
