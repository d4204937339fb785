//! Theorems about the entries of a log. The calls change nothing: their contracts are the theorems.
ghost use Rattle.std.specs.Prelude.{◌≡◌, true, List};
ghost use Rattle.tb_bus.specs.Buses.{Bus, start};
ghost use Rattle.tb_bus.specs.Traces.{IsTrace, replay};
ghost use Rattle.tb_bus.specs.declared.origin.Origin.{Origin};
ghost use Rattle.tb_headline.specs.Words.{HasOneText, IsIdleAtQuiet, IsShutDown};
ghost use Rattle.tb_log.specs.declared.entry.Entry.{Entry};
ghost use Rattle.tb_log_read.specs.Lines.{IsLog};

/// States that a trace has the entry `quiet` only where no step is possible and the bus hasn't shut down.
pub fn quiet_is_logged_only_if_nothing_can_step()
    ensures { (bus : Bus) (log : List Entry) → IsTrace bus log → IsIdleAtQuiet bus log }
{}

/// States that a bus that has shut down at the end of a trace was shut down by a step `finish`, `halt`, or `shutdown` of the trace.
pub fn a_bus_is_shut_down_by_a_step()
    ensures { (origin : Origin) (log : List Entry) → IsTrace (start origin) log
        → (replay (start origin) log).down ≡ true → IsShutDown log }
{}

/// States that no other log has the text of a log.
pub fn a_text_is_that_of_one_log()
    ensures { (log : List Entry) → IsLog log → HasOneText log }
{}
