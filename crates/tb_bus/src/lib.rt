//! The bus: its processes and lanes, its possible steps in order, and the logs that are its traces.
#![tactic(auto)]

mod action;
mod exchange;
mod laws;
mod origin;
mod shapes;

pub use action::{Action, OwnAction, ToolAction};
pub use exchange::Exchange;
pub use laws::{
    a_bus_that_is_down_stays_down, dropped_inputs_change_nothing, labels_differ,
    one_bus_after_an_entry, one_step_a_label, prefixes_are_traces,
    processes_stand_by_their_numbers, there_are_16_lanes, three_steps_take_a_bus_down,
};
pub use origin::Origin;
pub use shapes::{
    commands_are_the_origins, entries_are_in_shape, entries_are_limited,
    what_is_handed_out_is_in_shape, what_waits_is_in_shape,
};
