//! Theorems about the traces of a bus, and about the reached buses. The calls change nothing: their contracts are the theorems.
ghost use Rattle.std.specs.Prelude.{◌≡◌, ◌≢◌, ◌≤◌, ◌<◌, ◌++◌, ℕ, List, [], None, Contains, length, true, false};
ghost use Rattle.std.specs.List.{All, AllPairs};
ghost use Rattle.tb_log.specs.Lanes.{handed};
ghost use Rattle.tb_log.specs.Shapes.{IsLane, lane_count};
ghost use Rattle.tb_log.specs.declared.entry.Input.{Input};
ghost use Rattle.tb_log.specs.declared.entry.Label.{Label};
ghost use Rattle.tb_log.specs.declared.entry.Reply.TheVariants.{Dropped};
ghost use Rattle.tb_log.specs.declared.entry.Why.{Why};
ghost use Rattle.tb_log.specs.declared.entry.Entry.{Entry};
ghost use Rattle.tb_log.specs.declared.entry.Entry.TheVariants.{Did};
ghost use Rattle.tb_tools.specs.Finding.{next_out};
ghost use Rattle.tb_tools.specs.Lanes.{HasLanes, outs_at};
ghost use Rattle.tb_bus.specs.declared.origin.Origin.{Origin};
ghost use Rattle.tb_bus.specs.Buses.{Bus, Proc};
ghost use Rattle.tb_bus.specs.Steps.{Step, steps};
ghost use Rattle.tb_bus.specs.Traces.{IsLegal, IsTrace, after, fed, replay};
ghost use Rattle.tb_bus.specs.Ends.{TakesDown};
ghost use Rattle.tb_bus.specs.Reached.{Reaches};

/// States that each prefix of a trace is a trace, and that the remaining entries are a trace from the bus after the prefix. If a trace
/// from this bus follows a trace, both together are a trace.
pub fn prefixes_are_traces()
    ensures prefix { (bus : Bus) (log more : List Entry)
        → IsTrace bus (log ++ more) → IsTrace bus log }
    ensures rest { (bus : Bus) (log more : List Entry) → IsTrace bus (log ++ more)
        → IsTrace (replay bus log) more }
    ensures joined { (bus : Bus) (log more : List Entry) → IsTrace bus log
        → IsTrace (replay bus log) more → IsTrace bus (log ++ more) }
{}

/// States that the processes of a reached bus are in order of their numbers. The numbers ascend strictly, are above 0, and are below the
/// next number.
pub fn processes_stand_by_their_numbers()
    ensures ascend { (origin : Origin) (bus : Bus) → Reaches origin bus
        → AllPairs (λ (one other : Proc). one.number < other.number) bus.procs }
    ensures above { (origin : Origin) (bus : Bus) → Reaches origin bus
        → All (λ (proc : Proc). 0 < proc.number) bus.procs }
    ensures below { (origin : Origin) (bus : Bus) → Reaches origin bus
        → All (λ (proc : Proc). proc.number < bus.next_number) bus.procs }
{}

/// States that all steps of a reached bus have different labels.
pub fn labels_differ()
    ensures { (origin : Origin) (bus : Bus) → Reaches origin bus
        → AllPairs (λ (one other : Step). one.label ≢ other.label) (steps bus) }
{}

/// States that two steps of a reached bus with the same label are the same step.
pub fn one_step_a_label()
    ensures { (origin : Origin) (bus : Bus) (one other : Step) → Reaches origin bus
        → Contains (steps bus) one → Contains (steps bus) other
        → one.label ≡ other.label → one ≡ other }
{}

/// States that an entry leads from a reached bus to at most one bus.
pub fn one_bus_after_an_entry()
    ensures { (origin : Origin) (bus next : Bus) (entry : Entry) → Reaches origin bus
        → IsLegal bus entry next → next ≡ after bus entry }
{}

/// States that a reached bus has 16 lanes if its origin has at most 16 commands for the first lanes.
pub fn there_are_16_lanes()
    ensures { (origin : Origin) (bus : Bus) → length origin.connects ≤ lane_count
        → Reaches origin bus → HasLanes bus.bench }
{}

/// States that a bus remains unchanged if it drops an input.
pub fn dropped_inputs_change_nothing()
    ensures { (bus : Bus) (input : Input) (why : Why)
        → (fed bus input).reply ≡ Dropped why → (fed bus input).bus ≡ bus }
{}

/// States that an entry shuts down a bus only if the entry is a step `finish`, `halt`, or `shutdown`.
pub fn three_steps_take_a_bus_down()
    ensures { (bus next : Bus) (entry : Entry) → IsLegal bus entry next → bus.down ≡ false
        → next.down ≡ true → (label : Label) × (entry ≡ Did label) × TakesDown label.kind }
{}

/// States that a bus that has shut down makes no step, and remains shut down along each trace. On each of its lanes, the queued output is
/// the output of the trace, followed by the output that is still queued. So a lane without queued output remains without it.
pub fn a_bus_that_is_down_stays_down()
    ensures steps { (bus : Bus) → bus.down ≡ true → steps bus ≡ [] }
    ensures stays { (bus : Bus) (log : List Entry) → IsTrace bus log → bus.down ≡ true
        → (replay bus log).down ≡ true }
    ensures outs { (bus : Bus) (log : List Entry) (lane : ℕ) → IsLane lane
        → IsTrace bus log → bus.down ≡ true
        → outs_at lane bus.bench ≡ handed log lane ++ outs_at lane (replay bus log).bench }
    ensures empty { (bus : Bus) (log : List Entry) (lane : ℕ) → IsLane lane
        → IsTrace bus log → bus.down ≡ true
        → next_out lane bus.bench ≡ None → next_out lane (replay bus log).bench ≡ None }
{}
