//! The bench: the 16 lanes with their tools.
ghost use Rattle.std.specs.Prelude.{◌≡◌, ◌≤◌, ◌<◌, ◌+◌, ◌-◌, length, pos, IsTrue, IsSome, IfOk, OnOk, OnErr, Some, option_map, map, count_by};
ghost use Rattle.std.specs.Option.{option_copied, ForSome};
ghost use Rattle.tb_log.specs.Shapes.{IsLane, lane_count};
ghost use Rattle.tb_tools.specs.Lanes.{HasLanes, opening, started, unused, is_free, is_open, most_tools, is_stage_at, lane_at, tool_at, lane_state, term_of};
ghost use Rattle.tb_tools.specs.Finding.{free_lane, find_tool, first_at, oldest_event, oldest_received, next_out, first_out};
ghost use Rattle.tb_tools.specs.Inputs.{put_line, with_line, gone, cut, has_asked};
ghost use Rattle.tb_tools.specs.Acts.{answer_at, events_at, received_at, is_live_at, is_taken_at, can_execute, executed, can_connect, connected, can_leave, left, can_eval, asked, can_take_value, value_taken, can_do, told, can_take_event, event_taken, can_ack, acknowledged, can_terminate, terminated, gone_down, handed_out};

use crate::events::Events;
use crate::found::{FoundEvent, FoundTool};
use crate::handout::Handout;
use crate::lane::LaneRow;
use crate::stage::{LaneState, Stage};
use crate::told::{last_lines, line_with};
use crate::tool::LaneTool;
use std::alloc::Global;
use std::marker::Model;
use tb_log::{LANES, Out, Reply, ToolLine, Why};
use tb_terms::{Name, NoMemory, Patterns, Term, Terms, Text, Texts};

/// The lanes, numbered from 1 to 16, with their tools.
#[derive(Drop)]
pub struct Bench {
    alloc: Global,
    lanes: Vec<LaneRow>,
    next_tool: u32,
    /// A mark that is set only if no lane has a queued item.
    idle: bool,
}

impl Model for Bench {
    ghost use Rattle.std.specs.Prelude.{◌≡◌, length};
    ghost use Rattle.std.specs.Coded.{codes};
    ghost use Rattle.tb_log.specs.Shapes.{lane_count};
    ghost use Rattle.tb_terms.specs.contracts.term.Term as term_data;
    ghost use Rattle.std.specs.Prelude.{true, None};
    ghost use Rattle.tb_tools.specs.Lanes.{BenchState};
    ghost use Rattle.tb_tools.specs.Finding.{first_out};

    ghost Value = { BenchState };

    ghost coded = { Prim.hlevel (codes, term_data.the_row.coded) };

    ghost view = { λ bench. record { lanes = bench.lanes.items; next_tool = bench.next_tool } };

    ghost invariant = { λ bench. (length bench.lanes.items ≡ lane_count)
        × (bench.idle ≡ true
        → first_out (record { lanes = bench.lanes.items; next_tool = bench.next_tool }) ≡ None) };
}

impl Bench {
    /// Makes a bench whose first lanes are started with the commands. No lane has a tool. Each lane gets memory for a last line and an
    /// end, and always keeps the memory for an end.
    pub fn new(alloc: Global, connects: &Texts) -> Result<Bench, NoMemory>
        requires { length connects.now ≤ lane_count }
        ensures { IfOk result (λ bench. bench ≡ opening connects.now) }
    {
        let mut lanes = started_lanes(alloc, connects)?;
        for _ in connects.len()..LANES {
            lanes.push(LaneRow::unused(alloc)?)?;
        }
        let mut bench = Bench {
            alloc,
            lanes,
            next_tool: 1,
            idle: false,
        };
        bench.idle = bench.first_out().is_none();
        Ok(bench)
    }

    /// Returns the number of the next tool.
    pub fn next_tool(&self) -> u32
        ensures { result ≡ self.now.next_tool }
    {
        self.next_tool
    }

    /// Returns the lowest free lane.
    pub fn free_lane(&self) -> Option<u8>
        ensures lane { result ≡ free_lane self.now }
        ensures within { ForSome result IsLane }
        ensures free { ForSome result (λ lane. IsTrue (can_execute lane self.now)) }
    {
        for index in 0..LANES {
            if self.lanes[index].is_free() {
                return Some(number_of(index));
            }
        }
        None
    }

    /// Returns the lowest lane that has a tool with this term.
    pub fn find_tool(&self, t: &Term) -> Option<u8>
        ensures lane { result ≡ find_tool t.now self.now }
        ensures within { ForSome result IsLane }
        ensures tool { ForSome result (λ lane. IsSome (tool_at lane self.now)) }
    {
        for index in 0..LANES {
            if self.lanes[index].has_tool(t) {
                return Some(number_of(index));
            }
        }
        None
    }

    /// Returns the lane of the tool with the smallest number among the tools with this name and stage.
    pub fn first_at(&self, tool: &Name, stage: Stage) -> Option<u8>
        ensures lane { result ≡ first_at tool.now stage self.now }
        ensures within { ForSome result IsLane }
        ensures at { ForSome result (λ lane. IsTrue (is_stage_at stage lane self.now)) }
    {
        let mut best: Option<FoundTool> = None;
        for index in 0..LANES {
            best = self.lanes[index].smaller(tool, stage, best, number_of(index));
        }
        match best {
            Some(found) => Some(found.lane),
            None => None,
        }
    }

    /// States that there are 16 lanes. Changes nothing.
    pub fn show_lanes(&self)
        ensures { HasLanes self.now }
    {
        let _lanes = self.lanes.len();
    }

    /// Returns the state of a lane.
    pub fn lane_state(&self, lane: u8) -> LaneState
        requires { IsLane lane }
        ensures { result ≡ lane_state (lane_at lane self.now) }
    {
        self.row(lane).state()
    }

    /// Returns the number of a lane's tool, if there is one.
    pub fn number_on(&self, lane: u8) -> Option<u32>
        requires { IsLane lane }
        ensures { result ≡ option_map (λ tool. tool.number) (tool_at lane self.now) }
    {
        match self.row(lane).tool() {
            Some(tool) => Some(tool.number()),
            None => None,
        }
    }

    /// Returns whether a lane can be started.
    pub fn is_free(&self, lane: u8) -> bool
        requires { IsLane lane }
        ensures { result ≡ is_free (lane_at lane self.now) }
    {
        self.row(lane).is_free()
    }

    /// Returns the stage of a lane's tool.
    pub fn stage(&self, lane: u8) -> Stage
        requires lane { IsLane lane }
        requires tool { IsSome (tool_at lane self.now) }
        ensures { option_map (λ tool. tool.stage) (tool_at lane self.now) ≡ Some result }
    {
        self.tool_on(lane).stage()
    }

    /// Returns the term of a lane's tool.
    pub fn tool(&self, lane: u8) -> &Term
        requires lane { IsLane lane }
        requires tool { IsSome (tool_at lane self.now) }
        ensures { option_map term_of (tool_at lane self.now) ≡ Some result.now }
    {
        self.tool_on(lane).term()
    }

    /// Returns whether a lane has a tool that was asked to evaluate a term and hasn't answered.
    pub fn asked(&self, lane: u8) -> bool
        requires { IsLane lane }
        ensures { result ≡ has_asked (tool_at lane self.now) }
    {
        match self.row(lane).tool() {
            Some(tool) => tool.is_asked(),
            None => false,
        }
    }

    /// Returns the answer of a lane's tool, if there is one that no process has taken yet.
    pub fn answer(&self, lane: u8) -> Option<&Term>
        requires { IsLane lane }
        ensures { option_copied result ≡ answer_at lane self.now }
    {
        match self.row(lane).tool() {
            Some(tool) => tool.answer(),
            None => None,
        }
    }

    /// Returns the waiting events of a lane's tool, the oldest first.
    pub fn events(&self, lane: u8) -> &Events
        requires lane { IsLane lane }
        requires tool { IsSome (tool_at lane self.now) }
        ensures { result.now ≡ events_at lane self.now }
    {
        self.tool_on(lane).events()
    }

    /// Returns the events of a lane's tool that were received and not yet acknowledged, in the order in which they were received.
    pub fn received(&self, lane: u8) -> &Events
        requires lane { IsLane lane }
        requires tool { IsSome (tool_at lane self.now) }
        ensures { result.now ≡ received_at lane self.now }
    {
        self.tool_on(lane).received()
    }

    /// Returns whether a lane has a live tool.
    pub fn is_live(&self, lane: u8) -> bool
        requires { IsLane lane }
        ensures { result ≡ is_live_at lane self.now }
    {
        match self.row(lane).tool() {
            Some(tool) => tool.is_live(),
            None => false,
        }
    }

    /// Returns whether a lane has a tool that is live or leaving.
    pub fn is_taken(&self, lane: u8) -> bool
        requires { IsLane lane }
        ensures { result ≡ is_taken_at lane self.now }
    {
        match self.row(lane).tool() {
            Some(tool) => tool.is_taken(),
            None => false,
        }
    }

    /// Returns whether a lane has a leaving tool.
    pub fn can_leave(&self, lane: u8) -> bool
        requires { IsLane lane }
        ensures { result ≡ can_leave lane self.now }
    {
        match self.row(lane).tool() {
            Some(tool) => tool.is_leaving(),
            None => false,
        }
    }

    /// Returns whether a lane has a live tool without an open evaluation.
    pub fn can_eval(&self, lane: u8) -> bool
        requires { IsLane lane }
        ensures { result ≡ can_eval lane self.now }
    {
        match self.row(lane).tool() {
            Some(tool) => tool.is_live() && tool.is_closed(),
            None => false,
        }
    }

    /// Returns the oldest waiting event of a lane's tool that matches. Without a tool, there is none.
    pub fn find_event(&self, lane: u8, ps: &Patterns) -> Result<Option<FoundEvent>, NoMemory>
        requires { IsLane lane }
        ensures found { IfOk result (λ found. found ≡ oldest_event ps.now lane self.now) }
        ensures within { IfOk result
            (λ found. ForSome found (λ at. at.place < length (events_at lane self.now))) }
    {
        match self.row(lane).tool() {
            Some(tool) => Ok(tool.events().first_match(ps)?),
            None => Ok(None),
        }
    }

    /// Returns the position of the first received event of a lane's tool with exactly these terms. Without a tool, there is none.
    pub fn find_received(&self, lane: u8, ts: &Terms) -> Option<usize>
        requires { IsLane lane }
        ensures place { result ≡ oldest_received ts.now lane self.now }
        ensures within { ForSome result (λ place. place < length (received_at lane self.now)) }
    {
        match self.row(lane).tool() {
            Some(tool) => tool.received().position_of(ts),
            None => None,
        }
    }

    /// Returns the reply that `line` would give to a line of the program on a lane. Changes nothing.
    pub fn reply_to(&self, lane: u8, l: &ToolLine, declared: bool) -> Reply
        requires { IsLane lane }
        ensures { result ≡ (put_line declared l.now lane self.now).reply }
    {
        match self.row(lane).drops(l, declared) {
            Some(why) => Reply::Dropped(why),
            None => Reply::Took,
        }
    }

    /// Returns the reply that `gone` and `cut` would give for a lane. Changes nothing.
    pub fn reply_to_end(&self, lane: u8) -> Reply
        requires { IsLane lane }
        ensures gone { result ≡ (gone lane self.now).reply }
        ensures cut { result ≡ (cut lane self.now).reply }
    {
        if self.row(lane).is_up() {
            Reply::Took
        } else {
            Reply::Dropped(Why::NotLive)
        }
    }

    /// Takes or drops a line that the program on a lane has sent. `declared` states whether the script declares the name in a connect
    /// request.
    pub fn line(&mut self, lane: u8, l: ToolLine, declared: bool) -> Result<Reply, NoMemory>
        requires lane { IsLane lane }
        requires room { self.old.next_tool ≤ most_tools }
        ensures reply { IfOk result (λ reply. reply ≡ (put_line declared l lane self.old).reply) }
        ensures ok { OnOk result (self.new ≡ (put_line declared l lane self.old).bench) }
        ensures err { OnErr result (self.new ≡ self.old) }
    {
        if let Some(why) = self.row(lane).drops(&l, declared) {
            return Ok(Reply::Dropped(why));
        }
        self.take_line(lane, l)?;
        Ok(Reply::Took)
    }

    /// Makes the changes of a line that the lane doesn't drop.
    fn take_line(&mut self, lane: u8, line: ToolLine) -> Result<(), NoMemory>
        requires lane { IsLane lane }
        requires room { self.old.next_tool ≤ most_tools }
        ensures ok { OnOk result (self.new ≡ with_line line lane self.old) }
        ensures err { OnErr result (self.new ≡ self.old) }
    {
        self.idle = false;
        match line {
            ToolLine::Value(value) => self.lanes[index_of(lane)].set_answer(value),
            ToolLine::Event(terms) => self.lanes[index_of(lane)].push_event(terms)?,
            ToolLine::Connect(name) => self.name_lane(lane, name)?,
            ToolLine::Disconnect => self.lanes[index_of(lane)].close(),
            ToolLine::Bad => {}
        }
        Ok(())
    }

    /// Makes a waiting tool with this name on the lane.
    fn name_lane(&mut self, lane: u8, name: Name) -> Result<(), NoMemory>
        requires lane { IsLane lane }
        requires room { self.old.next_tool ≤ most_tools }
        ensures ok { OnOk result (self.new ≡ with_line (ToolLine.Connect name) lane self.old) }
        ensures err { OnErr result (self.new ≡ self.old) }
    {
        let tool = LaneTool::new(self.alloc, name, self.next_tool, Stage::Waiting)?;
        self.idle = false;
        self.lanes[index_of(lane)].set_tool(Some(tool));
        self.next_tool += 1;
        Ok(())
    }

    /// Records that the program on a lane has ended. Clears the lane, which is no longer up, and its tool departs. If the lane isn't up,
    /// drops the input. Takes no memory.
    pub fn gone(&mut self, lane: u8) -> Reply
        requires { IsLane lane }
        ensures reply { result ≡ (gone lane self.old).reply }
        ensures bench { self.new ≡ (gone lane self.old).bench }
    {
        if !self.row(lane).is_up() {
            return Reply::Dropped(Why::NotLive);
        }
        self.idle = false;
        self.lanes[index_of(lane)].lose();
        Reply::Took
    }

    /// Records that an item couldn't be written to the program on a lane. Clears the lane, and its tool, if it has one, departs. If the
    /// lane isn't up, drops the input. Takes no memory.
    pub fn cut(&mut self, lane: u8) -> Reply
        requires { IsLane lane }
        ensures reply { result ≡ (cut lane self.old).reply }
        ensures bench { self.new ≡ (cut lane self.old).bench }
    {
        if !self.row(lane).is_up() {
            return Reply::Dropped(Why::NotLive);
        }
        self.idle = false;
        self.lanes[index_of(lane)].close();
        Reply::Took
    }

    /// Starts a free lane with a tool's command, and returns the number of the tool, which is live.
    pub fn execute(&mut self, lane: u8, tool: &Name, command: &Text) -> Result<i64, NoMemory>
        requires lane { IsLane lane }
        requires can { IsTrue (can_execute lane self.old) }
        requires room { self.old.next_tool ≤ most_tools }
        ensures number { IfOk result (λ number. number ≡ pos self.old.next_tool) }
        ensures ok { OnOk result (self.new ≡ executed tool.now command.now lane self.old) }
        ensures err { OnErr result (self.new ≡ self.old) }
    {
        let number = self.next_tool;
        let live = LaneTool::new(self.alloc, tool.share()?, number, Stage::Live)?;
        let command = command.copy(self.alloc)?;
        self.idle = false;
        let row = &mut self.lanes[index_of(lane)];
        row.start(self.alloc, command)?;
        row.set_tool(Some(live));
        self.next_tool += 1;
        Ok(i64::from(number))
    }

    /// Makes the waiting tool of a lane live.
    pub fn connect(&mut self, lane: u8)
        requires lane { IsLane lane }
        requires can { IsTrue (can_connect lane self.old) }
        ensures { self.new ≡ connected lane self.old }
    {
        self.idle = false;
        self.lanes[index_of(lane)].connect();
    }

    /// Releases the leaving tool of a lane, and forgets its events.
    pub fn leave(&mut self, lane: u8)
        requires lane { IsLane lane }
        requires can { IsTrue (can_leave lane self.old) }
        ensures { self.new ≡ left lane self.old }
    {
        self.idle = false;
        self.lanes[index_of(lane)].set_tool(None);
    }

    /// Queues the request that the tool of a lane evaluate the term.
    pub fn eval(&mut self, lane: u8, t: Term) -> Result<(), NoMemory>
        requires lane { IsLane lane }
        requires can { IsTrue (can_eval lane self.old) }
        ensures ok { OnOk result (self.new ≡ asked t lane self.old) }
        ensures err { OnErr result (self.new ≡ self.old) }
    {
        self.idle = false;
        self.lanes[index_of(lane)].eval(self.alloc, t)
    }

    /// Takes the answer of a lane's tool. No evaluation is open any more.
    pub fn value(&mut self, lane: u8) -> Term
        requires lane { IsLane lane }
        requires can { IsTrue (can_take_value lane self.old) }
        ensures value { answer_at lane self.old ≡ Some result }
        ensures bench { self.new ≡ value_taken lane self.old }
    {
        self.idle = false;
        self.lanes[index_of(lane)].take_answer()
    }

    /// Queues the request that the tool of a lane carry out the term.
    pub fn do_action(&mut self, lane: u8, t: Term) -> Result<(), NoMemory>
        requires lane { IsLane lane }
        requires can { IsTrue (can_do lane self.old) }
        ensures ok { OnOk result (self.new ≡ told t lane self.old) }
        ensures err { OnErr result (self.new ≡ self.old) }
    {
        let line = line_with(self.alloc, b"rec-do", t)?;
        self.idle = false;
        self.lanes[index_of(lane)].put(line)
    }

    /// Moves the waiting event at this position to the end of the received events.
    pub fn event(&mut self, lane: u8, place: usize) -> Result<(), NoMemory>
        requires lane { IsLane lane }
        requires can { IsTrue (can_take_event place lane self.old) }
        ensures ok { OnOk result (self.new ≡ event_taken place lane self.old) }
        ensures err { OnErr result (self.new ≡ self.old) }
    {
        self.idle = false;
        self.lanes[index_of(lane)].receive(place)
    }

    /// Removes the received event at this position, and queues the line that acknowledges it.
    pub fn ack(&mut self, lane: u8, place: usize) -> Result<(), NoMemory>
        requires lane { IsLane lane }
        requires can { IsTrue (can_ack place lane self.old) }
        ensures ok { OnOk result (self.new ≡ acknowledged place lane self.old) }
        ensures err { OnErr result (self.new ≡ self.old) }
    {
        self.idle = false;
        self.lanes[index_of(lane)].ack(self.alloc, place)
    }

    /// Queues the last line to the tool of a lane, and the lane's end. The tool leaves the lane.
    pub fn terminate(&mut self, lane: u8, t: Term) -> Result<(), NoMemory>
        requires lane { IsLane lane }
        requires can { IsTrue (can_terminate lane self.old) }
        ensures ok { OnOk result (self.new ≡ terminated t lane self.old) }
        ensures err { OnErr result (self.new ≡ self.old) }
    {
        self.idle = false;
        self.lanes[index_of(lane)].terminate(self.alloc, t)
    }

    /// Queues the last line with this reason, and an end, on each lane that is up and hasn't ended.
    pub fn down(&mut self, t: &Term) -> Result<(), NoMemory>
        ensures ok { OnOk result (self.new ≡ gone_down t.now self.old) }
        ensures err { OnErr result (self.new ≡ self.old) }
    {
        let mut lines = last_lines(self.alloc, t, open_count(&self.lanes))?;
        for index in 0..LANES {
            self.lanes[index].dismiss(&mut lines);
        }
        self.idle = false;
        Ok(())
    }

    /// Returns the next queued item of a lane, if there is one.
    pub fn next_out(&self, lane: u8) -> Option<&Out>
        requires { IsLane lane }
        ensures { option_copied result ≡ next_out lane self.now }
    {
        self.row(lane).next_out()
    }

    /// Returns the lowest lane that has a queued item.
    pub fn first_out(&self) -> Option<u8>
        ensures lane { result ≡ first_out self.now }
        ensures within { ForSome result IsLane }
        ensures some { ForSome result (λ lane. IsSome (next_out lane self.now)) }
    {
        if self.idle {
            return None;
        }
        for index in 0..LANES {
            if self.lanes[index].has_out() {
                return Some(number_of(index));
            }
        }
        None
    }

    /// Takes the next queued item of a lane.
    pub fn take_out(&mut self, lane: u8) -> Out
        requires lane { IsLane lane }
        requires some { IsSome (next_out lane self.old) }
        ensures out { next_out lane self.old ≡ Some result }
        ensures bench { self.new ≡ handed_out lane self.old }
    {
        self.take_handout(lane).given
    }

    /// Takes both copies of the next queued item of a lane: one for the tool, and one for a log. Takes no memory.
    pub fn take_handout(&mut self, lane: u8) -> Handout
        requires lane { IsLane lane }
        requires some { IsSome (next_out lane self.old) }
        ensures given { next_out lane self.old ≡ Some result.given }
        ensures logged { next_out lane self.old ≡ Some result.logged }
        ensures bench { self.new ≡ handed_out lane self.old }
    {
        self.idle = false;
        let handout = self.lanes[index_of(lane)].take_out().into_handout();
        self.idle = self.first_out().is_none();
        handout
    }

    fn row(&self, lane: u8) -> &LaneRow
        requires { IsLane lane }
        ensures { result.now ≡ lane_at lane self.now }
    {
        &self.lanes[index_of(lane)]
    }

    fn tool_on(&self, lane: u8) -> &LaneTool
        requires lane { IsLane lane }
        requires tool { IsSome (tool_at lane self.now) }
        ensures { tool_at lane self.now ≡ Some result.now }
    {
        match self.row(lane).tool() {
            Some(tool) => tool,
            None => unreachable!(),
        }
    }
}

/// Returns the index of the lane with this number.
fn index_of(lane: u8) -> usize
    requires { IsLane lane }
    ensures { (result ≡ lane - 1) × (result < lane_count) }
{
    usize::from(lane) - 1
}

/// Makes a lane for each command, started with this command.
fn started_lanes(alloc: Global, commands: &Texts) -> Result<Vec<LaneRow>, NoMemory>
    ensures { IfOk result
        (λ lanes. lanes.items ≡ map (λ command. started command unused) commands.now) }
{
    let mut lanes = Vec::with_capacity(alloc, LANES)?;
    for command in commands.as_slice() {
        let mut lane = LaneRow::unused(alloc)?;
        lane.start(alloc, command.copy(alloc)?)?;
        lanes.push(lane)?;
    }
    Ok(lanes)
}

/// Returns how many lanes are up and haven't ended.
fn open_count(lanes: &[LaneRow]) -> usize
    ensures { result ≡ count_by is_open lanes.now }
{
    let mut count = 0;
    for lane in lanes {
        if lane.is_open() {
            count += 1;
        }
    }
    count
}

/// Returns the number of the lane at this index.
fn number_of(index: usize) -> u8
    requires { index < lane_count }
    ensures { result ≡ index + 1 }
{
    index as u8 + 1
}
