//! A lane: its state, its tool, and the items that are queued for sending.
ghost use Rattle.std.specs.Prelude.{◌≡◌, ◌<◌, ◌+◌, ℕ, length, slice_get, option_map, IsSome, IfOk, OnOk, OnErr, Some, None, false, replicate, if◌then◌else◌};
ghost use Rattle.std.specs.Option.{option_copied};
ghost use Rattle.tb_log.specs.declared.entry.Out.{Out};
ghost use Rattle.tb_tools.specs.declared.stage.Eval.TheVariants as eval;
ghost use Rattle.tb_tools.specs.Lanes.{unused, started, is_free, is_open, lane_state, on_tool, with_out, without_tool};
ghost use Rattle.tb_tools.specs.Finding.{has_tool, has_out, smaller_of};
ghost use Rattle.tb_tools.specs.Inputs.{flushed, closed, lost, dropped, answered, with_event};
ghost use Rattle.tb_tools.specs.Acts.{answer_by, events_of, received_of, with_live_tool, with_question, without_answer, with_received, with_acknowledged, dismissed, ended_with, last_line, without_out};

use crate::found::{FoundTool, smaller};
use crate::handout::KeptOut;
use crate::stage::{LaneState, Stage};
use crate::told::{last_line, line_with};
use crate::tool::LaneTool;
use std::alloc::Global;
use std::collections::VecDeque;
use std::marker::Model;
use tb_log::{Out, ToolLine, Why};
use tb_terms::{Name, NoMemory, Term, Terms, Text};

/// The number of items that a lane that hasn't ended can always take without more memory: a tool's last line, and the lane's end.
const LAST_ITEMS: usize = 2;

/// One lane. Contracts don't see the memory that it keeps.
#[derive(Drop)]
pub(crate) struct LaneRow {
    up: bool,
    ended: bool,
    tool: Option<LaneTool>,
    outs: VecDeque<KeptOut>,
}

impl Model for LaneRow {
    ghost use Rattle.std.specs.Coded.{codes};
    ghost use Rattle.tb_terms.specs.contracts.term.Term as term_data;
    ghost use Rattle.tb_tools.specs.Lanes.{Lane};
    ghost use Rattle.tb_tools.specs.Helpers.Room.{KeepsRoom};

    ghost Value = { Lane };

    ghost coded = { Prim.hlevel (codes, term_data.the_row.coded) };

    ghost view = { λ lane.
        record { up = lane.up; ended = lane.ended; tool = lane.tool; outs = lane.outs.items } };

    ghost invariant = { λ lane. KeepsRoom lane.ended lane.outs };
}

impl LaneRow {
    /// Makes a lane that was never started, with memory for a last line and an end.
    pub fn unused(alloc: Global) -> Result<LaneRow, NoMemory>
        ensures { IfOk result (λ lane. lane ≡ unused) }
    {
        Ok(LaneRow {
            up: false,
            ended: false,
            tool: None,
            outs: VecDeque::with_capacity(alloc, LAST_ITEMS)?,
        })
    }

    /// Returns whether the lane is up.
    pub fn is_up(&self) -> bool
        ensures { result ≡ self.now.up }
    {
        self.up
    }

    /// Returns whether the lane is up and hasn't ended.
    pub fn is_open(&self) -> bool
        ensures { result ≡ is_open self.now }
    {
        self.up && !self.ended
    }

    /// Returns whether the lane can be started.
    pub fn is_free(&self) -> bool
        ensures { result ≡ is_free self.now }
    {
        !self.up && self.tool.is_none() && self.outs.is_empty()
    }

    /// Returns the state of the lane.
    pub fn state(&self) -> LaneState
        ensures { result ≡ lane_state self.now }
    {
        match &self.tool {
            Some(tool) => match tool.stage() {
                Stage::Waiting => LaneState::Waiting,
                Stage::Live => LaneState::Live,
                Stage::Leaving => LaneState::Leaving,
            },
            None if self.is_free() => LaneState::Free,
            None if self.is_open() => LaneState::Unnamed,
            None => LaneState::Ending,
        }
    }

    /// Returns the tool of the lane, if there is one.
    pub fn tool(&self) -> Option<&LaneTool>
        ensures { option_copied result ≡ self.now.tool }
    {
        self.tool.as_ref()
    }

    /// Returns whether the lane has the tool with this term.
    pub fn has_tool(&self, term: &Term) -> bool
        ensures { result ≡ has_tool term.now self.now }
    {
        match &self.tool {
            Some(tool) => tool.is_named(term),
            None => false,
        }
    }

    /// Returns the tool of this lane if it has the name and the stage, and a smaller number than the best so far. Otherwise, returns the
    /// best so far. Without a best so far, the tool needs only the name and the stage.
    pub fn smaller(
        &self,
        name: &Name,
        stage: Stage,
        best: Option<FoundTool>,
        lane: u8,
    ) -> Option<FoundTool>
        ensures { result ≡ smaller_of name.now stage best lane self.now.tool }
    {
        match &self.tool {
            Some(tool) if tool.is_at(name, stage) => Some(smaller(best, tool.number(), lane)),
            _ => best,
        }
    }

    /// Starts the lane: it is up and hasn't ended, and the command is queued.
    pub fn start(&mut self, alloc: Global, command: Text) -> Result<(), NoMemory>
        ensures ok { OnOk result (self.new ≡ started command self.old) }
        ensures err { OnErr result (self.new ≡ self.old) }
    {
        let start = KeptOut::new(alloc, Out::Start(command))?;
        self.outs.reserve(1 + LAST_ITEMS)?;
        self.outs.push_back_reserved(start);
        self.up = true;
        self.ended = false;
        Ok(())
    }

    /// Sets or removes the tool of the lane.
    pub fn set_tool(&mut self, tool: Option<LaneTool>)
        ensures { self.new ≡ record self.old { tool = tool } }
    {
        self.tool = tool;
    }

    /// Queues the item after the others.
    pub fn put(&mut self, out: KeptOut) -> Result<(), NoMemory>
        ensures ok { OnOk result (self.new ≡ with_out out self.old) }
        ensures err { OnErr result (self.new ≡ self.old) }
    {
        self.outs.reserve(1 + LAST_ITEMS)?;
        self.outs.push_back_reserved(out);
        Ok(())
    }

    /// Clears the lane: discards the queued items, and queues the lane's end. If the lane has ended and no item is queued, nothing
    /// changes. Takes no memory.
    pub fn flush(&mut self)
        ensures { self.new ≡ flushed self.old }
    {
        if self.ended && self.outs.is_empty() {
            return;
        }
        self.outs.clear();
        self.outs.push_back_reserved(KeptOut::end());
        self.ended = true;
    }

    /// Clears the lane, and its tool departs. Takes no memory.
    pub fn close(&mut self)
        ensures { self.new ≡ closed self.old }
    {
        self.flush();
        self.tool = match self.tool.take() {
            Some(tool) => tool.depart(),
            None => None,
        };
    }

    /// Clears the lane, and its tool departs. The lane is no longer up. Takes no memory.
    pub fn lose(&mut self)
        ensures { self.new ≡ lost self.old }
    {
        self.close();
        self.up = false;
    }

    /// Returns the reason why the lane drops this line, or `None` if the lane takes it. `declared` states whether the script declares the
    /// name in a connect request.
    pub fn drops(&self, line: &ToolLine, declared: bool) -> Option<Why>
        ensures { result ≡ dropped declared line.now self.now }
    {
        if !self.is_open() {
            return Some(Why::NotLive);
        }
        match (line, &self.tool) {
            (ToolLine::Bad, _) => Some(Why::Bad),
            (ToolLine::Connect(_), Some(_)) => Some(Why::Named),
            (ToolLine::Connect(_), None) if !declared => Some(Why::Stranger),
            (ToolLine::Connect(_), None) => None,
            (_, None) => Some(Why::NotLive),
            (ToolLine::Value(_), Some(tool)) if !tool.is_asked() => Some(Why::Unasked),
            (_, Some(_)) => None,
        }
    }

    /// Records that the lane's tool has answered with this value.
    pub fn set_answer(&mut self, value: Term)
        ensures { self.new ≡ answered value self.old }
    {
        if let Some(tool) = &mut self.tool {
            tool.set_answer(value);
        }
    }

    /// Adds the event at the end of the tool's waiting events.
    pub fn push_event(&mut self, event: Terms) -> Result<(), NoMemory>
        ensures ok { OnOk result (self.new ≡ with_event event self.old) }
        ensures err { OnErr result (self.new ≡ self.old) }
    {
        if let Some(tool) = &mut self.tool {
            tool.push_event(event)?;
        }
        Ok(())
    }

    /// Makes the lane's tool live.
    pub fn connect(&mut self)
        ensures { self.new ≡ with_live_tool self.old }
    {
        if let Some(tool) = &mut self.tool {
            tool.connect();
        }
    }

    /// Queues the request that the lane's tool evaluate the term, and records that the tool was asked.
    pub fn eval(&mut self, alloc: Global, term: Term) -> Result<(), NoMemory>
        ensures ok { OnOk result (self.new ≡ with_question term self.old) }
        ensures err { OnErr result (self.new ≡ self.old) }
    {
        self.put(line_with(alloc, b"rec-eval", term)?)?;
        self.ask();
        Ok(())
    }

    fn ask(&mut self)
        ensures { self.new ≡ on_tool (λ tool. record tool { eval = eval.Asked }) self.old }
    {
        if let Some(tool) = &mut self.tool {
            tool.ask();
        }
    }

    /// Takes the answer of the lane's tool. No evaluation is open any more.
    pub fn take_answer(&mut self) -> Term
        requires { IsSome (answer_by self.old.tool) }
        ensures value { answer_by self.old.tool ≡ Some result }
        ensures closed { self.new ≡ without_answer self.old }
    {
        match &mut self.tool {
            Some(tool) => tool.take_answer(),
            None => unreachable!(),
        }
    }

    /// Moves the waiting event at this position to the end of the received events.
    pub fn receive(&mut self, place: usize) -> Result<(), NoMemory>
        requires { place < length (events_of self.old.tool) }
        ensures ok { OnOk result (self.new ≡ with_received place self.old) }
        ensures err { OnErr result (self.new ≡ self.old) }
    {
        if let Some(tool) = &mut self.tool {
            tool.receive(place)?;
        }
        Ok(())
    }

    /// Removes the received event at this position, and queues the line that acknowledges it.
    pub fn ack(&mut self, alloc: Global, place: usize) -> Result<(), NoMemory>
        requires { place < length (received_of self.old.tool) }
        ensures ok { OnOk result (self.new ≡ with_acknowledged place self.old) }
        ensures err { OnErr result (self.new ≡ self.old) }
    {
        self.outs.reserve(1 + LAST_ITEMS)?;
        if let Some(tool) = &mut self.tool {
            let line = tool.acknowledge(alloc, place)?;
            self.outs.push_back_reserved(line);
        }
        Ok(())
    }

    /// Queues the last line to the tool and the lane's end. The lane has ended, and has no tool.
    pub fn terminate(&mut self, alloc: Global, term: Term) -> Result<(), NoMemory>
        ensures ok { OnOk result (self.new ≡ without_tool (ended_with (last_line term) self.old)) }
        ensures err { OnErr result (self.new ≡ self.old) }
    {
        let line = last_line(alloc, term)?;
        self.outs.reserve(LAST_ITEMS)?;
        self.outs.push_back_reserved(line);
        self.outs.push_back_reserved(KeptOut::end());
        self.ended = true;
        self.tool = None;
        Ok(())
    }

    /// If the lane is up and hasn't ended, takes one of the lines, and queues it and the lane's end. Takes no memory.
    pub fn dismiss(&mut self, lines: &mut Vec<KeptOut>)
        ensures { (line : Out) (left : ℕ)
            → lines.old.items ≡ replicate ((if is_open self.old then 1 else 0) + left) line
            → (self.new ≡ dismissed line self.old) × (lines.new.items ≡ replicate left line) }
    {
        if self.is_open() {
            if let Some(line) = lines.pop() {
                self.end_with(line);
            }
        }
    }

    fn end_with(&mut self, line: KeptOut)
        requires { self.old.ended ≡ false }
        ensures { self.new ≡ ended_with line self.old }
    {
        self.outs.push_back_reserved(line);
        self.outs.push_back_reserved(KeptOut::end());
        self.ended = true;
    }

    /// Returns the next queued item, if there is one.
    pub fn next_out(&self) -> Option<&Out>
        ensures { option_copied result ≡ slice_get self.now.outs 0 }
    {
        match self.outs.front() {
            Some(kept) => Some(kept.item()),
            None => None,
        }
    }

    /// Returns whether the lane has a queued item.
    pub fn has_out(&self) -> bool
        ensures { result ≡ has_out self.now }
    {
        !self.outs.is_empty()
    }

    /// Takes the next queued item.
    pub fn take_out(&mut self) -> KeptOut
        requires { 0 < length self.old.outs }
        ensures out { slice_get self.old.outs 0 ≡ Some result }
        ensures rest { self.new ≡ without_out self.old }
    {
        match self.outs.pop_front() {
            Some(out) => out,
            None => unreachable!(),
        }
    }
}
