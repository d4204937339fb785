//! Theorems about all benches. The calls change nothing: their contracts are the theorems.

ghost use Rattle.std.specs.Prelude.{◌≡◌, ◌∷◌, ◌↔◌, Bool, List, ℕ, MatchOption, Some, IsTrue};
ghost use Rattle.tb_terms.specs.declared.term.Term.{Term};
ghost use Rattle.tb_terms.specs.declared.pattern.Pattern.{Pattern};
ghost use Rattle.tb_log.specs.declared.entry.Out.{Out};
ghost use Rattle.tb_log.specs.declared.entry.ToolLine.{ToolLine};
ghost use Rattle.tb_tools.specs.declared.stage.Stage.{Stage};
ghost use Rattle.tb_tools.specs.declared.stage.LaneState.TheVariants as state;
ghost use Rattle.tb_log.specs.Shapes.{IsLane};
ghost use Rattle.tb_tools.specs.Lanes.{Tool, Lane, BenchState, opening, tool_at, outs_at, term_of, is_free, lane_state};
ghost use Rattle.tb_tools.specs.Inputs.{put_line, gone, cut};
ghost use Rattle.tb_tools.specs.Acts.{executed, connected, left, asked, value_taken, told, event_taken, acknowledged, terminated, gone_down, handed_out};
ghost use Rattle.tb_tools.specs.Finding.{first_lane, first_at, oldest_event, next_out};
ghost use Rattle.tb_tools.specs.Acts.{events_at};
ghost use Rattle.tb_tools.specs.First.{NoLane, IsFirstLane, NoToolAt, HasSmallest, NoneMatches, IsOldest};
ghost use Rattle.tb_tools.specs.Numbers.{OthersStay, IsNumbered, KeepsNumbers};

/// States that an input from a lane changes only this lane.
pub fn inputs_leave_other_lanes()
    ensures line { (declared : Bool) (line : ToolLine)
        → OthersStay (λ lane bench. (put_line declared line lane bench).bench) }
    ensures gone { OthersStay (λ lane bench. (gone lane bench).bench) }
    ensures cut { OthersStay (λ lane bench. (cut lane bench).bench) }
{}

/// States that an action on a lane, or an output, changes only this lane. `down` isn't one of these calls: it changes all open lanes.
pub fn acts_leave_other_lanes()
    ensures execute { (name command : List ℕ) → OthersStay (executed name command) }
    ensures connect { OthersStay connected }
    ensures leave { OthersStay left }
    ensures eval { (term : Term) → OthersStay (asked term) }
    ensures value { OthersStay value_taken }
    ensures do_action { (term : Term) → OthersStay (told term) }
    ensures event { (place : ℕ) → OthersStay (event_taken place) }
    ensures ack { (place : ℕ) → OthersStay (acknowledged place) }
    ensures terminate { (term : Term) → OthersStay (terminated term) }
    ensures take_out { OthersStay handed_out }
{}

/// States that no two tools have the same number, and that each number is at least 1 and below the number of the next tool. This holds
/// for each initial bench, and inputs keep it.
pub fn inputs_keep_numbers()
    ensures opening { (commands : List (List ℕ)) → IsNumbered (opening commands) }
    ensures line { (declared : Bool) (line : ToolLine) (lane : ℕ)
        → KeepsNumbers (λ bench. (put_line declared line lane bench).bench) }
    ensures gone { (lane : ℕ) → KeepsNumbers (λ bench. (gone lane bench).bench) }
    ensures cut { (lane : ℕ) → KeepsNumbers (λ bench. (cut lane bench).bench) }
{}

/// States that actions on lanes, outputs, and a shutdown keep the numbering that `inputs_keep_numbers` states.
pub fn acts_keep_numbers()
    ensures execute { (name command : List ℕ) (lane : ℕ)
        → KeepsNumbers (executed name command lane) }
    ensures connect { (lane : ℕ) → KeepsNumbers (connected lane) }
    ensures leave { (lane : ℕ) → KeepsNumbers (left lane) }
    ensures eval { (term : Term) (lane : ℕ) → KeepsNumbers (asked term lane) }
    ensures value { (lane : ℕ) → KeepsNumbers (value_taken lane) }
    ensures do_action { (term : Term) (lane : ℕ) → KeepsNumbers (told term lane) }
    ensures event { (place lane : ℕ) → KeepsNumbers (event_taken place lane) }
    ensures ack { (place lane : ℕ) → KeepsNumbers (acknowledged place lane) }
    ensures terminate { (term : Term) (lane : ℕ) → KeepsNumbers (terminated term lane) }
    ensures down { (reason : Term) → KeepsNumbers (gone_down reason) }
    ensures take_out { (lane : ℕ) → KeepsNumbers (handed_out lane) }
{}

/// States that a term is that of at most one tool, if the tools have the numbering that `inputs_keep_numbers` states.
pub fn a_term_names_one_tool()
    ensures { (bench : BenchState) (lane other : ℕ) (tool another : Tool) → IsNumbered bench
        → IsLane lane → IsLane other → tool_at lane bench ≡ Some tool
        → tool_at other bench ≡ Some another → term_of tool ≡ term_of another → lane ≡ other }
{}

/// States that the search finds the lowest lane that passes a test. If no lane is found, no lane passes.
pub fn first_lane_is_lowest()
    ensures { (test : Lane → Bool) (bench : BenchState)
        → MatchOption (first_lane test bench) (NoLane test bench) (IsFirstLane test bench) }
{}

/// States that the tool that is found by name and stage has the smallest number among such tools. If no tool is found, no lane has such a
/// tool.
pub fn first_tool_has_the_smallest_number()
    ensures { (name : List ℕ) (stage : Stage) (bench : BenchState)
        → MatchOption (first_at name stage bench) (NoToolAt name stage bench)
        (HasSmallest name stage bench) }
{}

/// States that the event that is found is the first event that matches. If no event is found, no event matches.
pub fn oldest_event_is_first()
    ensures { (patterns : List Pattern) (lane : ℕ) (bench : BenchState)
        → MatchOption (oldest_event patterns lane bench)
        (NoneMatches patterns (events_at lane bench)) (IsOldest patterns (events_at lane bench)) }
{}

/// States that the next item to send is the first queued item, and that the other items keep their order.
pub fn what_is_next_stands_first()
    ensures { (lane : ℕ) (bench : BenchState) (out : Out) → IsLane lane
        → next_out lane bench ≡ Some out
        → outs_at lane bench ≡ out ∷ outs_at lane (handed_out lane bench) }
{}

/// States that the state of a lane is `Free` if and only if the lane can be started.
pub fn free_lanes_may_be_started()
    ensures { (lane : Lane) → (lane_state lane ≡ state.Free) ↔ IsTrue (is_free lane) }
{}
