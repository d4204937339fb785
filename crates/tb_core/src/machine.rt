//! The core: a bus with its log. Each call makes at most one event of the bus, and logs it.
ghost use Rattle.std.specs.Option.{ForSome, is_some};
ghost use Rattle.std.below.core.specs.declared.int.usize.TheConstants.{MAX};
ghost use Rattle.std.specs.Prelude.{◌≡◌, IsSome, Some, min, ◌≤◌, ◌<◌, ◌+◌, ◌↔◌, ◌∷◌, [], ◌++◌, length, IsTrue, IfOk, OnOk, OnErr, IsErrOf, true, false, if◌then◌else◌};
ghost use Rattle.tb_log.specs.Limits.{has_room, out_size};
ghost use Rattle.tb_log.specs.Shapes.{IsInputInShape, IsLane, lane_count};
ghost use Rattle.tb_tools.specs.Lanes.{lane_at, lane_state};
ghost use Rattle.tb_tools.specs.Finding.{first_out, next_out};
ghost use Rattle.tb_bus.specs.Buses.{origin_of, start};
ghost use Rattle.tb_bus.specs.Traces.{IsTrace, fed, taken_out};
ghost use Rattle.tb_bus.specs.Steps.{steps, apply, label_of};
ghost use Rattle.tb_search.specs.Views.{IsCandidateIn};
ghost use Rattle.tb_log.specs.declared.entry.Entry.TheVariants.{Did as Made};
ghost use Rattle.tb_core.specs.Cores.{Follows, IsCrowded, lacks_room, most_entries, HandIn, MakeStep, HandOut, IsTakenOut, started, bus_now, Logs, entries_of, is_full, IsStep, Stays, has_any, ends_quiet, takes_memory};
ghost use Rattle.tb_core.specs.Helpers.LiveBuses.{bus_of, move_in, scene_in, IsSound, StandsAs};
ghost use Rattle.tb_living.specs.Lives.{AreFresh};

use crate::answers::{CoreFault, Stepped, TakeOut};
use crate::bus::LiveBus;
use crate::comparing::same_reply;
use std::alloc::Global;
use std::marker::Model;
use tb_body::Program;
use tb_bus::Origin;
use tb_living::Buffers;
use tb_log::{
    Entry, Input, Label, Log, Out, Reply, Seen, input_size, is_in_shape, is_lane, out_size,
};
use tb_process_steps::Walker;
use tb_search::Candidate;
use tb_terms::{Items, NoMemory, Text, Texts};
use tb_tools::{Handout, LaneState};

/// A bus with its log. Each call makes at most one event, and logs it. Contracts see the origin of the core, its log, whether it was
/// stopped, and its spare memory. They see nothing of the walkers.
#[derive(Drop)]
pub struct Core<W: Walker> {
    alloc: Global,
    bus: LiveBus<W>,
    log: Log,
    stopped: bool,
    buffers: Buffers,
}

impl<W: Walker> Model for Core<W> {
    ghost use Rattle.tb_core.specs.Cores.{CoreState, core_code};
    ghost use Rattle.tb_core.specs.Helpers.LiveBuses.{Represents};

    ghost Value = { CoreState };

    ghost coded = { core_code };

    ghost view = { λ core. record {
      origin = core.bus.origin;
      log = core.log.entries;
      stopped = core.stopped;
      spare = core.log.spare;
    } };

    ghost invariant = { λ core. Represents W.view core.bus core.log };
}

impl<W: Walker> Core<W> {
    /// Returns a core with the initial bus of a program and an empty log. The first lanes are started with these commands, at most 16. The
    /// log has at most `limit` entries, and the limit is at most 4,000,000.
    pub fn start(
        alloc: Global,
        program: Program,
        connects: &Texts,
        limit: u32,
    ) -> Result<Core<W>, NoMemory>
        requires connects { length connects.now ≤ lane_count }
        requires limit { limit ≤ most_entries }
        ensures { IfOk result (Stays (started (origin_of program connects.now limit))) }
    {
        let origin = Origin {
            program,
            connects: copy_texts(alloc, connects)?,
            limit,
        };
        let bus = LiveBus::open(alloc, origin)?;
        let log = Log::new(alloc, limit);
        let buffers = Buffers::new(alloc)?;
        Ok(Core {
            alloc,
            bus,
            log,
            stopped: false,
            buffers,
        })
    }

    /// Lends the log, which is a trace of the program.
    pub fn log(&self) -> &Log
        ensures value { result.now.entries ≡ self.now.log }
        ensures limit { result.now.limit ≡ self.now.origin.limit }
        ensures spare { result.now.spare ≡ self.now.spare }
        ensures trace { IsTrace (start self.now.origin) self.now.log }
        ensures within { length self.now.log ≤ self.now.origin.limit }
    {
        &self.log
    }

    /// Lends the bus to which the log leads, as the core holds it.
    pub fn bus(&self) -> &LiveBus<W>
        ensures sound { IsSound W.view result.now }
        ensures value { bus_of W.view result.now ≡ bus_now self.now }
    {
        &self.bus
    }

    /// Returns whether the bus has shut down.
    pub fn is_down(&self) -> bool
        ensures { result ≡ (bus_now self.now).down }
    {
        self.bus.marks.down
    }

    /// Returns whether the core was stopped.
    pub fn is_stopped(&self) -> bool
        ensures { result ≡ self.now.stopped }
    {
        self.stopped
    }

    /// Stops the core: from now on no call makes an event.
    pub fn stop(&mut self)
        ensures { self.new ≡ record self.old { stopped = true } }
    {
        self.stopped = true;
    }

    /// Takes memory for at least `n` further entries, apart from the terms of steps.
    pub fn reserve(&mut self, n: usize) -> Result<(), NoMemory>
        ensures stays { Stays self.old self.new }
        ensures spare { OnOk result (n ≤ self.new.spare) }
    {
        self.log.reserve(n)
    }

    /// Returns the number of further entries for which there is memory, apart from the terms of steps.
    pub fn spare(&self) -> usize
        ensures { result ≡ self.now.spare }
    {
        self.log.spare()
    }

    /// Returns whether a step is possible. The call may look at processes again, and take memory for this.
    pub fn has_step(&mut self) -> Result<bool, NoMemory>
        ensures value { IfOk result (λ any. any ≡ has_any (steps (bus_now self.old))) }
        ensures unchanged { self.new ≡ self.old }
    {
        self.bus.freshen(self.alloc, &mut self.buffers)?;
        Ok(
            self.bus
                .first_candidate(self.alloc, &mut self.buffers.binds)?
                .is_some(),
        )
    }

    /// Delivers an input to the bus, logs it with the reply, and returns the reply.
    pub fn hand_in(&mut self, input: Input) -> Result<Reply, CoreFault>
        requires { IsInputInShape input }
        ensures reply { IfOk result (λ reply. reply ≡ (fed (bus_now self.old) input).reply) }
        ensures logs { IfOk result
            (λ _. Logs self.old self.new (entries_of self.old (HandIn input))) }
        ensures stopped { IsErrOf result CoreFault.Stopped ↔ IsTrue self.old.stopped }
        ensures full { IsErrOf result CoreFault.Full → is_full self.old (HandIn input) ≡ true }
        ensures room { IfOk result (λ _. is_full self.old (HandIn input) ≡ false) }
        ensures calm { takes_memory input ≡ false → 0 < self.old.spare
            → IsErrOf result CoreFault.NoMemory → ⊥ }
        ensures err { OnErr result (Stays self.old self.new) }
    {
        if self.stopped {
            return Err(CoreFault::Stopped);
        }
        let reply = hand(self.alloc, &mut self.bus, &mut self.log, input)?;
        Ok(reply)
    }

    /// Makes the first of the possible steps, and logs it. If no step is possible and the bus hasn't shut down, logs `quiet`, unless the
    /// last entry is `quiet`.
    pub fn step(&mut self) -> Result<Stepped, CoreFault>
        ensures found { IfOk result (IsStep self.old) }
        ensures logs { IfOk result (λ _. Logs self.old self.new (entries_of self.old MakeStep)) }
        ensures stopped { IsErrOf result CoreFault.Stopped ↔ IsTrue self.old.stopped }
        ensures full { IsErrOf result CoreFault.Full → is_full self.old MakeStep ≡ true }
        ensures room { IfOk result (λ _. is_full self.old MakeStep ≡ false) }
        ensures err { OnErr result (Stays self.old self.new) }
    {
        if self.stopped {
            return Err(CoreFault::Stopped);
        }
        self.bus.freshen(self.alloc, &mut self.buffers)?;
        match self
            .bus
            .first_candidate(self.alloc, &mut self.buffers.binds)?
        {
            Some(candidate) => {
                make(
                    self.alloc,
                    &mut self.bus,
                    &mut self.log,
                    candidate,
                    &mut self.buffers,
                )?;
                Ok(Stepped::Did)
            }
            None if self.bus.marks.down => Ok(Stepped::Down),
            None => {
                say_quiet(&mut self.log)?;
                Ok(Stepped::Quiet)
            }
        }
    }

    /// Follows an entry of another log. If the entry can come next, the call logs the entry, makes its event, and returns `true`. If the
    /// entry can't come next, the call returns `false`, and nothing changes. A label names its processes, so the call asks only those.
    /// `finish`, `halt`, and `quiet` depend on all processes, so the call searches all moves for them. Unlike `step`, the call logs a
    /// `quiet` after a `quiet`. After an error, only the spare memory may have grown.
    pub fn follow(&mut self, entry: &Entry) -> Result<bool, CoreFault>
        ensures follows { IfOk result (λ legal. Follows self.old entry.now legal self.new) }
        ensures room { IfOk result
            (λ legal. legal ≡ true → lacks_room self.old (Some entry.now) ≡ false) }
        ensures stopped { IsErrOf result CoreFault.Stopped ↔ IsTrue self.old.stopped }
        ensures full { IsErrOf result CoreFault.Full → IsCrowded self.old entry.now }
        ensures err { OnErr result (Stays self.old self.new) }
    {
        if self.stopped {
            return Err(CoreFault::Stopped);
        }
        match entry {
            Entry::Did(label) => self.follow_step(label),
            Entry::Quiet => self.follow_quiet(),
            Entry::Fed(input, reply) => {
                if !is_in_shape(entry) {
                    return Ok(false);
                }
                self.follow_input(input, *reply)
            }
            Entry::Gave(lane, out) => self.follow_out(*lane, out),
        }
    }

    /// Follows the step that a label shows.
    fn follow_step(&mut self, label: &Label) -> Result<bool, CoreFault>
        requires { self.old.stopped ≡ false }
        ensures follows { IfOk result (λ legal. Follows self.old (Made label.now) legal self.new) }
        ensures room { IfOk result
            (λ legal. legal ≡ true → lacks_room self.old (Some (Made label.now)) ≡ false) }
        ensures running { IsErrOf result CoreFault.Stopped → ⊥ }
        ensures full { IsErrOf result CoreFault.Full → IsCrowded self.old (Made label.now) }
        ensures err { OnErr result (Stays self.old self.new) }
    {
        self.bus.freshen(self.alloc, &mut self.buffers)?;
        match self
            .bus
            .seen_as(self.alloc, label, &mut self.buffers.binds)?
        {
            Some(candidate) => {
                make(
                    self.alloc,
                    &mut self.bus,
                    &mut self.log,
                    candidate,
                    &mut self.buffers,
                )?;
                Ok(true)
            }
            None => Ok(false),
        }
    }

    /// Follows a `quiet`.
    fn follow_quiet(&mut self) -> Result<bool, CoreFault>
        requires { self.old.stopped ≡ false }
        ensures follows { IfOk result (λ legal. Follows self.old Entry.Quiet legal self.new) }
        ensures room { IfOk result
            (λ legal. legal ≡ true → lacks_room self.old (Some Entry.Quiet) ≡ false) }
        ensures running { IsErrOf result CoreFault.Stopped → ⊥ }
        ensures full { IsErrOf result CoreFault.Full → IsCrowded self.old Entry.Quiet }
        ensures err { OnErr result (Stays self.old self.new) }
    {
        if self.is_down() {
            return Ok(false);
        }
        if self.has_step()? {
            return Ok(false);
        }
        put_quiet(&mut self.log)?;
        Ok(true)
    }

    /// Follows an input. The reply is compared before the input is delivered.
    fn follow_input(&mut self, input: &Input, reply: Reply) -> Result<bool, CoreFault>
        requires running { self.old.stopped ≡ false }
        requires shape { IsInputInShape input.now }
        ensures follows { IfOk result
            (λ legal. Follows self.old (Entry.Fed input.now reply) legal self.new) }
        ensures room { IfOk result
            (λ legal. legal ≡ true
            → lacks_room self.old (Some (Entry.Fed input.now reply)) ≡ false) }
        ensures running { IsErrOf result CoreFault.Stopped → ⊥ }
        ensures full { IsErrOf result CoreFault.Full
            → IsCrowded self.old (Entry.Fed input.now reply) }
        ensures err { OnErr result (Stays self.old self.new) }
    {
        if !same_reply(self.bus.reply_to(input), reply) {
            return Ok(false);
        }
        self.hand_in(input.copy(self.alloc)?)?;
        Ok(true)
    }

    /// Follows an item that was sent to a lane.
    fn follow_out(&mut self, lane: u8, out: &Out) -> Result<bool, CoreFault>
        requires { self.old.stopped ≡ false }
        ensures follows { IfOk result
            (λ legal. Follows self.old (Entry.Gave lane out.now) legal self.new) }
        ensures room { IfOk result
            (λ legal. legal ≡ true
            → lacks_room self.old (Some (Entry.Gave lane out.now)) ≡ false) }
        ensures running { IsErrOf result CoreFault.Stopped → ⊥ }
        ensures full { IsErrOf result CoreFault.Full → IsCrowded self.old (Entry.Gave lane out.now) }
        ensures err { OnErr result (Stays self.old self.new) }
    {
        if !is_lane(lane) {
            return Ok(false);
        }
        if !self.bus.hands_out(lane, out) {
            return Ok(false);
        }
        self.take_out(lane)?;
        Ok(true)
    }

    /// Takes the next item that is queued on a lane, and logs it. If no item is queued, the call logs nothing. If there is spare memory
    /// for an entry, the call takes no memory.
    pub fn take_out(&mut self, lane: u8) -> Result<TakeOut, CoreFault>
        requires { IsLane lane }
        ensures found { IfOk result (IsTakenOut self.old lane) }
        ensures logs { IfOk result
            (λ _. Logs self.old self.new (entries_of self.old (HandOut lane))) }
        ensures stopped { IsErrOf result CoreFault.Stopped ↔ IsTrue self.old.stopped }
        ensures full { IsErrOf result CoreFault.Full → is_full self.old (HandOut lane) ≡ true }
        ensures room { IfOk result (λ _. is_full self.old (HandOut lane) ≡ false) }
        ensures calm { 0 < self.old.spare → IsErrOf result CoreFault.NoMemory → ⊥ }
        ensures err { OnErr result (Stays self.old self.new) }
    {
        if self.stopped {
            return Err(CoreFault::Stopped);
        }
        match self.bus.bench.next_out(lane) {
            None => Ok(nothing_left(self.bus.marks.down)),
            Some(out) => {
                let size = out_size(out);
                Ok(TakeOut::Out(take(&mut self.bus, &mut self.log, lane, size)?))
            }
        }
    }

    /// Returns the state of a lane.
    pub fn lane_state(&self, lane: u8) -> LaneState
        requires { IsLane lane }
        ensures { result ≡ lane_state (lane_at lane (bus_now self.now).bench) }
    {
        self.bus.bench.lane_state(lane)
    }

    /// Returns whether an item is queued for sending on a lane.
    pub fn has_out(&self, lane: u8) -> bool
        requires { IsLane lane }
        ensures { result ≡ is_some (next_out lane (bus_now self.now).bench) }
    {
        match self.bus.bench.next_out(lane) {
            Some(_) => true,
            None => false,
        }
    }

    /// Returns the lowest lane on which an item is queued for sending, if there is one.
    pub fn first_out(&self) -> Option<u8>
        ensures lane { result ≡ first_out (bus_now self.now).bench }
        ensures within { ForSome result IsLane }
        ensures some { ForSome result (λ lane. IsSome (next_out lane (bus_now self.now).bench)) }
    {
        self.bus.bench.first_out()
    }
}

/// Returns the answer of `take_out` if no item is queued.
fn nothing_left(down: bool) -> TakeOut
    ensures { result ≡ (if down then TakeOut.Closed else TakeOut.Nothing) }
{
    if down {
        TakeOut::Closed
    } else {
        TakeOut::Nothing
    }
}

/// Delivers an input to the bus, and logs the input with its reply. Takes all memory before the bus changes or the log grows.
fn hand<W: Walker>(
    alloc: Global,
    bus: &mut LiveBus<W>,
    log: &mut Log,
    input: Input,
) -> Result<Reply, CoreFault>
    requires sound { IsSound W.view bus.old }
    requires ticks { bus.old.ticks ≤ length log.old.entries }
    requires tools { bus.old.bench.next_tool ≤ 1 + length log.old.entries }
    requires few { log.old.limit ≤ most_entries }
    requires shape { IsInputInShape input }
    ensures sound { IsSound W.view bus.new }
    ensures origin { bus.new.origin ≡ bus.old.origin }
    ensures limit { log.new.limit ≡ log.old.limit }
    ensures reply { IfOk result (λ reply. reply ≡ (fed (bus_of W.view bus.old) input).reply) }
    ensures log { IfOk result
        (λ reply. log.new.entries ≡ log.old.entries ++ Entry.Fed input reply ∷ []) }
    ensures spare { OnOk result (log.old.spare ≤ log.new.spare + 1) }
    ensures bus { OnOk result (bus_of W.view bus.new ≡ (fed (bus_of W.view bus.old) input).bus) }
    ensures running { IsErrOf result CoreFault.Stopped → ⊥ }
    ensures full { IsErrOf result CoreFault.Full → has_room log.old.limit log.old.entries
        (Entry.Fed input (fed (bus_of W.view bus.old) input).reply) ≡ false }
    ensures room { OnOk result (has_room log.old.limit log.old.entries
        (Entry.Fed input (fed (bus_of W.view bus.old) input).reply) ≡ true) }
    ensures calm { takes_memory input ≡ false → 0 < log.old.spare
        → IsErrOf result CoreFault.NoMemory → ⊥ }
    ensures err { OnErr result ((bus_of W.view bus.new ≡ bus_of W.view bus.old)
        × (log.new.entries ≡ log.old.entries) × (log.old.spare ≤ log.new.spare)) }
{
    let size = input_size(&input);
    if !log.room_for_size(size) {
        return Err(CoreFault::Full);
    }
    log.reserve(1)?;
    let reply = bus.feed(alloc, &input)?;
    log.push_fed(input, reply, size);
    Ok(reply)
}

/// Takes the next item that is queued on a lane, and logs it. The item has this size. Takes all memory before the bus changes or the log
/// grows.
fn take<W: Walker>(
    bus: &mut LiveBus<W>,
    log: &mut Log,
    lane: u8,
    size: usize,
) -> Result<Out, CoreFault>
    requires sound { IsSound W.view bus.old }
    requires lane { IsLane lane }
    requires some { IsSome (next_out lane bus.old.bench) }
    requires sized { (out : Out) → next_out lane bus.old.bench ≡ Some out
        → size ≡ min (out_size out) MAX }
    ensures sound { IsSound W.view bus.new }
    ensures origin { bus.new.origin ≡ bus.old.origin }
    ensures limit { log.new.limit ≡ log.old.limit }
    ensures out { IfOk result (λ out. next_out lane bus.old.bench ≡ Some out) }
    ensures log { IfOk result
        (λ out. log.new.entries ≡ log.old.entries ++ Entry.Gave lane out ∷ []) }
    ensures spare { OnOk result (log.old.spare ≤ log.new.spare + 1) }
    ensures bus { OnOk result (bus_of W.view bus.new ≡ taken_out lane (bus_of W.view bus.old)) }
    ensures running { IsErrOf result CoreFault.Stopped → ⊥ }
    ensures full { IsErrOf result CoreFault.Full → (out : Out)
        → next_out lane bus.old.bench ≡ Some out
        → has_room log.old.limit log.old.entries (Entry.Gave lane out) ≡ false }
    ensures room { IfOk result
        (λ out. has_room log.old.limit log.old.entries (Entry.Gave lane out) ≡ true) }
    ensures calm { 0 < log.old.spare → IsErrOf result CoreFault.NoMemory → ⊥ }
    ensures err { OnErr result ((bus_of W.view bus.new ≡ bus_of W.view bus.old)
        × (log.new.entries ≡ log.old.entries) × (log.old.spare ≤ log.new.spare)) }
{
    if !log.room_for_size(size) {
        return Err(CoreFault::Full);
    }
    log.reserve(1)?;
    let Handout { given, logged } = bus.hand_out(lane);
    log.push_gave(lane, logged, size);
    Ok(given)
}

/// Returns a copy of the texts.
fn copy_texts(alloc: Global, texts: &Texts) -> Result<Texts, NoMemory>
    ensures { IfOk result (λ copies. copies ≡ texts.now) }
{
    let mut copies = Items::new(alloc);
    for text in texts.as_slice() {
        copies.push(text.copy(alloc)?)?;
    }
    Ok(copies)
}

/// Makes a found move, and logs it. Takes all memory before the bus changes or the log grows.
fn make<W: Walker>(
    alloc: Global,
    bus: &mut LiveBus<W>,
    log: &mut Log,
    candidate: Candidate,
    buffers: &mut Buffers,
) -> Result<(), CoreFault>
    requires sound { IsSound W.view bus.old }
    requires fresh { AreFresh bus.old.living.items }
    requires next { bus.old.marks.next_number ≤ 10001 + length log.old.entries }
    requires tools { bus.old.bench.next_tool ≤ 1 + length log.old.entries }
    requires few { log.old.limit ≤ most_entries }
    requires found { IsCandidateIn (scene_in bus.old) candidate }
    ensures sound { IsSound W.view bus.new }
    ensures origin { bus.new.origin ≡ bus.old.origin }
    ensures limit { log.new.limit ≡ log.old.limit }
    ensures log { OnOk result (log.new.entries
        ≡ log.old.entries ++ Entry.Did (label_of (move_in W.view bus.old candidate)) ∷ []) }
    ensures spare { OnOk result (log.old.spare ≤ log.new.spare + 1) }
    ensures bus { OnOk result
        (bus_of W.view bus.new ≡ apply (bus_of W.view bus.old) (move_in W.view bus.old candidate)) }
    ensures running { IsErrOf result CoreFault.Stopped → ⊥ }
    ensures full { IsErrOf result CoreFault.Full → has_room log.old.limit log.old.entries
        (Entry.Did (label_of (move_in W.view bus.old candidate))) ≡ false }
    ensures room { OnOk result (has_room log.old.limit log.old.entries
        (Entry.Did (label_of (move_in W.view bus.old candidate))) ≡ true) }
    ensures err { OnErr result ((bus_of W.view bus.new ≡ bus_of W.view bus.old)
        × (log.new.entries ≡ log.old.entries) × (log.old.spare ≤ log.new.spare)) }
{
    let size = bus.shown_size(&candidate);
    if !log.room_for_size(size) {
        return Err(CoreFault::Full);
    }
    log.reserve_step(size)?;
    bus.make(alloc, candidate, log, buffers)?;
    Ok(())
}

/// Logs `quiet`, unless the last entry is `quiet`.
fn say_quiet(log: &mut Log) -> Result<(), CoreFault>
    ensures ok { OnOk result (log.new.entries
        ≡ log.old.entries ++ (if ends_quiet log.old.entries then [] else Entry.Quiet ∷ [])) }
    ensures limit { log.new.limit ≡ log.old.limit }
    ensures running { IsErrOf result CoreFault.Stopped → ⊥ }
    ensures full { IsErrOf result CoreFault.Full → (ends_quiet log.old.entries ≡ false)
        × (has_room log.old.limit log.old.entries Entry.Quiet ≡ false) }
    ensures room { OnOk result (ends_quiet log.old.entries ≡ false
        → has_room log.old.limit log.old.entries Entry.Quiet ≡ true) }
    ensures spare { OnOk result (log.old.spare
        ≤ log.new.spare + length (if ends_quiet log.old.entries then [] else Entry.Quiet ∷ [])) }
    ensures err { OnErr result
        ((log.new.entries ≡ log.old.entries) × (log.old.spare ≤ log.new.spare)) }
{
    if says_quiet(log) {
        return Ok(());
    }
    if !log.room_for(&Entry::Quiet) {
        return Err(CoreFault::Full);
    }
    log.reserve(1)?;
    log.push_quiet();
    Ok(())
}

/// Logs `quiet`, whatever the last entry is.
fn put_quiet(log: &mut Log) -> Result<(), CoreFault>
    ensures ok { OnOk result (log.new.entries ≡ log.old.entries ++ Entry.Quiet ∷ []) }
    ensures limit { log.new.limit ≡ log.old.limit }
    ensures running { IsErrOf result CoreFault.Stopped → ⊥ }
    ensures full { IsErrOf result CoreFault.Full
        → has_room log.old.limit log.old.entries Entry.Quiet ≡ false }
    ensures room { OnOk result (has_room log.old.limit log.old.entries Entry.Quiet ≡ true) }
    ensures spare { OnOk result (log.old.spare ≤ log.new.spare + 1) }
    ensures err { OnErr result
        ((log.new.entries ≡ log.old.entries) × (log.old.spare ≤ log.new.spare)) }
{
    if !log.room_for(&Entry::Quiet) {
        return Err(CoreFault::Full);
    }
    log.reserve(1)?;
    log.push_quiet();
    Ok(())
}

/// Returns whether the last entry is `quiet`.
fn says_quiet(log: &Log) -> bool
    ensures { result ≡ ends_quiet log.now.entries }
{
    if log.len() == 0 {
        return false;
    }
    match log.at(log.len() - 1) {
        Seen::Quiet => true,
        Seen::Did(_) => false,
        Seen::Fed(_, _) => false,
        Seen::Gave(_, _) => false,
    }
}
