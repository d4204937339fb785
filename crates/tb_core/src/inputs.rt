//! Receives inputs, and takes items that are queued for sending.

ghost use Rattle.std.specs.Prelude.{◌≡◌, ◌<◌, ◌≤◌, ◌+◌, Bool, IfOk, IsSome, OnOk, OnErr, Some, false, map};
ghost use Rattle.tb_process_steps.specs.Walks.{most_ticks};
ghost use Rattle.tb_log.specs.Shapes.{IsInputInShape, IsLane};
ghost use Rattle.tb_tools.specs.Lanes.{most_tools};
ghost use Rattle.tb_tools.specs.Finding.{next_out};
ghost use Rattle.tb_tools.specs.Inputs.{put_line};
ghost use Rattle.tb_bus.specs.Traces.{aged_proc, fed, took, taken_out};
ghost use Rattle.tb_core.specs.Cores.{takes_memory};
ghost use Rattle.tb_core.specs.Helpers.LiveBuses.{bus_of, procs_in, IsSound, StandsAs};

use crate::bus::LiveBus;
use std::alloc::Global;
use tb_living::{hand_out, is_declared, tick_all};
use tb_log::{Input, Reply, ToolLine, Why};
use tb_process_steps::Walker;
use tb_terms::NoMemory;
use tb_tools::Handout;

impl<W: Walker> LiveBus<W> {
    /// Takes an input, or drops it, and returns the reply. Only a line takes memory. If out of memory, the bus remains unchanged.
    pub fn feed(&mut self, alloc: Global, input: &Input) -> Result<Reply, NoMemory>
        requires sound { IsSound W.view self.old }
        requires few { self.old.ticks < most_ticks }
        requires tools { self.old.bench.next_tool ≤ most_tools }
        requires shape { IsInputInShape input.now }
        ensures reply { IfOk result
            (λ reply. reply ≡ (fed (bus_of W.view self.old) input.now).reply) }
        ensures sound { IsSound W.view self.new }
        ensures origin { self.new.origin ≡ self.old.origin }
        ensures bus { OnOk result
            (bus_of W.view self.new ≡ (fed (bus_of W.view self.old) input.now).bus) }
        ensures calm { takes_memory input.now ≡ false → OnErr result ⊥ }
        ensures err { OnErr result (bus_of W.view self.new ≡ bus_of W.view self.old) }
    {
        if self.marks.down {
            return Ok(Reply::Dropped(Why::Down));
        }
        match input {
            Input::Tick => {
                self.tick();
                Ok(Reply::Took)
            }
            Input::NoTicks => {
                self.marks.no_ticks = true;
                Ok(Reply::Took)
            }
            Input::Line(lane, line) => self.put_line(alloc, *lane, line),
            Input::Gone(lane) => Ok(self.lose(*lane)),
            Input::Cut(lane) => Ok(self.cut(*lane)),
        }
    }

    /// Makes each process one tick older. This takes no memory.
    fn tick(&mut self)
        requires sound { IsSound W.view self.old }
        requires few { self.old.ticks < most_ticks }
        ensures sound { IsSound W.view self.new }
        ensures origin { self.new.origin ≡ self.old.origin }
        ensures bus { bus_of W.view self.new ≡ record (bus_of W.view self.old)
            { procs = map aged_proc (procs_in W.view self.old); now = self.old.ticks + 1 } }
    {
        tick_all(&self.plans, &mut self.living);
        self.ticks += 1;
        self.aged = true;
    }

    /// Receives a line from the tool of a lane.
    fn put_line(&mut self, alloc: Global, lane: u8, line: &ToolLine) -> Result<Reply, NoMemory>
        requires sound { IsSound W.view self.old }
        requires tools { self.old.bench.next_tool ≤ most_tools }
        requires lane { IsLane lane }
        ensures reply { IfOk result
            (λ reply. reply ≡ (took (bus_of W.view self.old) (Input.Line lane line.now)).reply) }
        ensures sound { IsSound W.view self.new }
        ensures origin { self.new.origin ≡ self.old.origin }
        ensures bus { OnOk result (bus_of W.view self.new
            ≡ (took (bus_of W.view self.old) (Input.Line lane line.now)).bus) }
        ensures err { OnErr result (bus_of W.view self.new ≡ bus_of W.view self.old) }
    {
        let declared = is_declared(self.origin.program.tools.as_slice(), line);
        let line = line.copy(alloc)?;
        let stirs = self.disturb(lane, &line)?;
        let reply = self.bench.line(lane, line, declared)?;
        self.bench.show_lanes();
        self.stir_if(stirs);
        Ok(reply)
    }

    /// Wakes the processes that a line from the tool of a lane may concern. If the line may concern any process that speaks with tools,
    /// returns `true`, and wakes none.
    fn disturb(&mut self, lane: u8, line: &ToolLine) -> Result<bool, NoMemory>
        requires sound { IsSound W.view self.old }
        requires lane { IsLane lane }
        ensures same { StandsAs W.view self.old self.new }
        ensures alone { self.new
            ≡ record self.old { index = self.new.index; roused = self.new.roused } }
        ensures quiet { IfOk result (λ stirs. stirs ≡ false → (declared : Bool)
            → IsSound W.view (record self.new
            { bench = (put_line declared line.now lane self.old.bench).bench })) }
    {
        match line {
            ToolLine::Value(_) => {
                self.rouse_lane(lane)?;
                Ok(false)
            }
            ToolLine::Event(_) => {
                self.rouse_lane(lane)?;
                Ok(false)
            }
            ToolLine::Connect(_) | ToolLine::Disconnect => Ok(true),
            ToolLine::Bad => Ok(false),
        }
    }

    /// Receives the end of the program on a lane. This takes no memory.
    fn lose(&mut self, lane: u8) -> Reply
        requires sound { IsSound W.view self.old }
        requires lane { IsLane lane }
        ensures reply { result ≡ (took (bus_of W.view self.old) (Input.Gone lane)).reply }
        ensures sound { IsSound W.view self.new }
        ensures origin { self.new.origin ≡ self.old.origin }
        ensures bus { bus_of W.view self.new
            ≡ (took (bus_of W.view self.old) (Input.Gone lane)).bus }
    {
        let reply = self.bench.gone(lane);
        self.stirred = true;
        self.bench.show_lanes();
        reply
    }

    /// Receives the failure of a write to a lane. This takes no memory.
    fn cut(&mut self, lane: u8) -> Reply
        requires sound { IsSound W.view self.old }
        requires lane { IsLane lane }
        ensures reply { result ≡ (took (bus_of W.view self.old) (Input.Cut lane)).reply }
        ensures sound { IsSound W.view self.new }
        ensures origin { self.new.origin ≡ self.old.origin }
        ensures bus { bus_of W.view self.new
            ≡ (took (bus_of W.view self.old) (Input.Cut lane)).bus }
    {
        let reply = self.bench.cut(lane);
        self.stirred = true;
        self.bench.show_lanes();
        reply
    }

    /// Takes the next item that is queued on a lane, and returns it twice: to send and to log. This takes no memory.
    pub fn hand_out(&mut self, lane: u8) -> Handout
        requires sound { IsSound W.view self.old }
        requires lane { IsLane lane }
        requires some { IsSome (next_out lane self.old.bench) }
        ensures given { next_out lane self.old.bench ≡ Some result.given }
        ensures logged { next_out lane self.old.bench ≡ Some result.logged }
        ensures sound { IsSound W.view self.new }
        ensures origin { self.new.origin ≡ self.old.origin }
        ensures bus { bus_of W.view self.new ≡ taken_out lane (bus_of W.view self.old) }
    {
        let handout = self.bench.take_handout(lane);
        let stirs = self.bench.is_free(lane);
        self.bench.show_lanes();
        self.stir_if(stirs);
        handout
    }
}
