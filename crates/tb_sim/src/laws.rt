//! Theorems about simulations and their logs. The calls change nothing: their contracts are the theorems.
ghost use Rattle.std.specs.Prelude.{◌≡◌, ◌++◌, List};
ghost use Rattle.std.specs.List.{All};
ghost use Rattle.tb_log.specs.declared.entry.Input.{Input};
ghost use Rattle.tb_log.specs.declared.entry.Entry.{Entry};
ghost use Rattle.tb_tools.specs.Lanes.{HasLanes};
ghost use Rattle.tb_bus.specs.Buses.{Bus};
ghost use Rattle.tb_log.specs.Shapes.{IsInputInShape};
ghost use Rattle.tb_bus.specs.Traces.{IsTrace};
ghost use Rattle.tb_sim.specs.Simulation.{IsSim, IsSimPrefix, Limits, sim_start};

use crate::ends::SimEnd;

/// If the bus has 16 lanes and the inputs of the feed are in shape, the log of the simulation is a trace, after each turn and at the
/// end.
pub fn simulations_log_traces()
    ensures on_the_way { (limits : Limits) (bus : Bus) (feed : List Input) (log : List Entry)
        → HasLanes bus.bench → All IsInputInShape feed
        → IsSimPrefix limits (sim_start bus feed) log → IsTrace bus log }
    ensures at_the_end { (limits : Limits) (bus : Bus) (feed : List Input) (log : List Entry)
        (end : SimEnd) → HasLanes bus.bench → All IsInputInShape feed
        → IsSim limits (sim_start bus feed) log end → IsTrace bus log }
{}

/// Within given limits, a bus and a feed have at most one simulation: one log and one end.
pub fn one_simulation()
    ensures { (limits : Limits) (bus : Bus) (feed : List Input) (log other : List Entry)
        (end last : SimEnd) → IsSim limits (sim_start bus feed) log end
        → IsSim limits (sim_start bus feed) other last → (log ≡ other) × (end ≡ last) }
{}

/// Each bus has a simulation with each feed and within all limits.
pub fn each_bus_has_a_simulation()
    ensures { (limits : Limits) (bus : Bus) (feed : List Input)
        → (log : List Entry) × ((end : SimEnd) × IsSim limits (sim_start bus feed) log end) }
{}

/// The log after some turns of a simulation is a prefix of the log of a simulation that ends. Each prefix of such a log is the log
/// after some turns.
pub fn prefixes_have_an_end()
    ensures ends { (limits : Limits) (bus : Bus) (feed : List Input) (log : List Entry)
        → IsSimPrefix limits (sim_start bus feed) log
        → (more : List Entry)
        × ((end : SimEnd) × IsSim limits (sim_start bus feed) (log ++ more) end) }
    ensures prefix { (limits : Limits) (bus : Bus) (feed : List Input) (log more : List Entry)
        (end : SimEnd) → IsSim limits (sim_start bus feed) (log ++ more) end
        → IsSimPrefix limits (sim_start bus feed) log }
{}
