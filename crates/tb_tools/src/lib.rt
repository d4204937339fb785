//! The lanes of a bus: the tool of each lane, its answer and its events, and the items that are queued for sending.
#![tactic(auto)]

mod bench;
mod events;
mod found;
mod handout;
mod lane;
mod laws;
mod stage;
mod told;
mod tool;

pub use bench::Bench;
pub use events::Events;
pub use found::FoundEvent;
pub use handout::Handout;
pub use laws::{
    a_term_names_one_tool, acts_keep_numbers, acts_leave_other_lanes, first_lane_is_lowest,
    first_tool_has_the_smallest_number, free_lanes_may_be_started, inputs_keep_numbers,
    inputs_leave_other_lanes, oldest_event_is_first, what_is_next_stands_first,
};
pub use stage::{LaneState, Stage};
