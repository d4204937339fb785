//! Makes the changes of a move, except the advance of its process: notes, tools, creation, and the end of the bus.

ghost use Rattle.std.specs.Prelude.{◌≡◌, ◌||◌, ℕ, ◌<◌, ◌≤◌, length, IfOk, IsTrue, OnOk, OnErr, Some, slice_get, true, false};
ghost use Rattle.std.specs.List.{All};
ghost use Rattle.tb_bus.specs.Effects.{creation, speaking, taking, went_down};
ghost use Rattle.tb_bus.specs.Exchanges.{bench_after};
ghost use Rattle.tb_bus.specs.Slots.{fits_formals};
ghost use Rattle.tb_log.specs.Shapes.{IsLane};
ghost use Rattle.tb_tools.specs.Lanes.{most_tools, tool_at};
ghost use Rattle.tb_search.specs.Candidates.{all_take, row_at, rows_of, wanting};
ghost use Rattle.tb_search.specs.FoundEffects.{noting};
ghost use Rattle.tb_index.specs.Indexes.{is_awake};
ghost use Rattle.tb_living.specs.Indexes.{AreStillAwake, IsAwakeAt};
ghost use Rattle.tb_core.specs.Helpers.Makings.{effect_in, finding_in, IsPlainIn};
ghost use Rattle.tb_core.specs.Helpers.LiveBuses.{bus_of, AreRoused, IsAwakeUnder, IsSound, IsStaleAt, StandsAs, IsChanged};
ghost use Rattle.tb_living.specs.Spoken.{CanSpeak, IsDone, around};

use crate::acting::{created, kind_alone, printed, shut_down};
use crate::bus::LiveBus;
use std::alloc::Global;
use tb_bus::{Exchange, OwnAction, ToolAction};
use tb_index::Mark;
use tb_living::{
    Done, hand_out, number_mark, open_at, speak, subscribe_at, take_note_at, unsubscribe_at,
};
use tb_log::LabelKind;
use tb_notes::Found;
use tb_process_steps::Walker;
use tb_search::Finding;
use tb_terms::{Items, NoMemory, Term, Terms};

impl<W: Walker> LiveBus<W> {
    /// Makes the change of an own action of a process, with its finding. The process itself doesn't advance yet. If out of memory, the
    /// represented bus remains unchanged. No action has a finding of another kind, so the branches for such findings never run.
    pub fn act(
        &mut self,
        alloc: Global,
        at: usize,
        own: OwnAction,
        finding: Finding,
    ) -> Result<Done, NoMemory>
        requires sound { IsSound W.view self.old }
        requires within { at < length self.old.living.items }
        requires idle { IsStaleAt self.old.living.items at }
        requires next { self.old.marks.next_number < 4294967295 }
        requires tools { self.old.bench.next_tool ≤ most_tools }
        requires plain { IsPlainIn own }
        requires found { finding_in self.old at own ≡ Some finding }
        ensures changed { OnOk result
            (IsChanged W.view self.old at (effect_in self.old at own finding) self.new) }
        ensures done { IfOk result (IsDone (effect_in self.old at own finding)) }
        ensures err { OnErr result (StandsAs W.view self.old self.new) }
    {
        match own {
            OwnAction::Tau => Ok(kind_alone(alloc, LabelKind::Tau)),
            OwnAction::Set(shown, binds) => Ok(Done {
                kind: LabelKind::Set,
                shown,
                binds,
            }),
            OwnAction::Print(text) => printed(alloc, text),
            OwnAction::Notify(terms) => match finding {
                Finding::Notify(indices) => self.send_note(alloc, &indices, terms),
                _ => Ok(kind_alone(alloc, LabelKind::SndNote)),
            },
            OwnAction::TakeNote(_) => match finding {
                Finding::TakeNote(found) => Ok(self.take_note(at, found)),
                _ => Ok(kind_alone(alloc, LabelKind::RecNote)),
            },
            OwnAction::NoNote(_) => Ok(kind_alone(alloc, LabelKind::NoNote)),
            OwnAction::Subscribe(patterns) => {
                subscribe_at(&mut self.living, at, patterns)?;
                Ok(kind_alone(alloc, LabelKind::Subscribe))
            }
            OwnAction::Unsubscribe(patterns) => {
                unsubscribe_at(&mut self.living, at, &patterns);
                Ok(kind_alone(alloc, LabelKind::Unsubscribe))
            }
            OwnAction::Create(process, actuals, slot) => {
                self.create(alloc, process, actuals, slot)
            }
            OwnAction::Speak(does) => match finding {
                Finding::Speak(exchange) => self.speak_with_tool(alloc, does, exchange),
                _ => Ok(kind_alone(alloc, LabelKind::SndDo)),
            },
            OwnAction::Shutdown(reason) => {
                let done = shut_down(alloc, reason)?;
                self.go_down(&done.shown.as_slice()[0])?;
                Ok(done)
            }
        }
    }

    /// Wakes the process at an index, and notes its number in `roused`, so that the next `settle` judges the process again.
    fn rouse_at(&mut self, at: usize) -> Result<(), NoMemory>
        requires sound { IsSound W.view self.old }
        requires within { at < length self.old.living.items }
        ensures same { StandsAs W.view self.old self.new }
        ensures alone { self.new
            ≡ record self.old { index = self.new.index; roused = self.new.roused } }
        ensures kept { AreStillAwake self.old.index self.new.index }
        ensures awake { OnOk result
            (is_awake self.new.index (row_at (rows_of self.old.living.items) at).number ≡ true) }
    {
        let number = self.living[at].get().number;
        self.roused.push(number)?;
        self.index.wake(number);
        Ok(())
    }

    /// Wakes the processes at these indices, and notes their numbers in `roused`.
    fn rouse(&mut self, indices: &[usize]) -> Result<(), NoMemory>
        requires sound { IsSound W.view self.old }
        requires within { All (λ at. at < length self.old.living.items) indices.now }
        ensures same { StandsAs W.view self.old self.new }
        ensures alone { self.new
            ≡ record self.old { index = self.new.index; roused = self.new.roused } }
        ensures awake { OnOk result
            (All (IsAwakeAt self.new.index self.old.living.items) indices.now) }
    {
        for at in indices {
            self.rouse_at(*at)?;
        }
        Ok(())
    }

    /// Wakes the processes that the index names as receivers of a mark, and notes their numbers in `roused`.
    fn rouse_marked(&mut self, mark: Mark) -> Result<(), NoMemory>
        requires sound { IsSound W.view self.old }
        ensures same { StandsAs W.view self.old self.new }
        ensures alone { self.new
            ≡ record self.old { index = self.new.index; roused = self.new.roused } }
        ensures awake { OnOk result
            (All (IsAwakeUnder mark self.new.index) self.old.living.items) }
    {
        let mut at = 0;
        while at < self.living.len() {
            match self.next_marked(mark, at) {
                Some(place) => {
                    self.rouse_at(place)?;
                    at = place + 1;
                }
                None => return Ok(()),
            }
        }
        Ok(())
    }

    /// Wakes the processes that name the tool of a lane, if it has one, and notes their numbers in `roused`.
    pub fn rouse_lane(&mut self, lane: u8) -> Result<(), NoMemory>
        requires sound { IsSound W.view self.old }
        requires lane { IsLane lane }
        ensures same { StandsAs W.view self.old self.new }
        ensures alone { self.new
            ≡ record self.old { index = self.new.index; roused = self.new.roused } }
        ensures awake { OnOk result
            (AreRoused (tool_at lane self.old.bench) self.new.index self.old.living.items) }
    {
        match self.bench.number_on(lane) {
            Some(number) => {
                self.rouse_marked(number_mark(number))?;
                Ok(())
            }
            None => Ok(()),
        }
    }

    /// Wakes the processes that an exchange with a tool may concern. If the exchange may concern any process that speaks with tools,
    /// returns `true`, and wakes none. `Eval`, `Do`, and `Acknowledge` let no process begin anything.
    fn disturb_by(&mut self, does: &ToolAction, exchange: &Exchange) -> Result<bool, NoMemory>
        requires sound { IsSound W.view self.old }
        requires lane { IsLane exchange.now.lane }
        requires can { CanSpeak self.old.origin.program.tools self.old.bench
            does.now exchange.now }
        ensures same { StandsAs W.view self.old self.new }
        ensures alone { self.new
            ≡ record self.old { index = self.new.index; roused = self.new.roused } }
        ensures quiet { IfOk result (λ stirs. stirs ≡ false
            → IsSound W.view (record self.new {
              bench = bench_after
                  (around self.old.origin.program.tools self.old.bench) does.now exchange.now;
            })) }
    {
        match does {
            ToolAction::TakeValue(_, _) => {
                self.rouse_lane(exchange.lane)?;
                Ok(false)
            }
            ToolAction::TakeEvent(_, _) => {
                self.rouse_lane(exchange.lane)?;
                Ok(false)
            }
            ToolAction::Eval(_) => Ok(false),
            ToolAction::Do(_) => Ok(false),
            ToolAction::Acknowledge(_) => Ok(false),
            ToolAction::Execute(_, _)
            | ToolAction::Connect(_, _)
            | ToolAction::DisconnectAny(_, _)
            | ToolAction::Disconnect(_)
            | ToolAction::Terminate(_) => Ok(true),
        }
    }

    /// Sets `stirred` if a change of a lane may concern all processes that speak with tools.
    pub fn stir_if(&mut self, stirs: bool)
        ensures { self.new ≡ record self.old { stirred = self.old.stirred || stirs } }
    {
        if stirs {
            self.stirred = true;
        }
    }

    /// Wakes the processes at these indices, which want a note, and gives each a copy of the note.
    fn send_note(
        &mut self,
        alloc: Global,
        indices: &Items<usize>,
        terms: Terms,
    ) -> Result<Done, NoMemory>
        requires sound { IsSound W.view self.old }
        requires wanting { indices.now ≡ wanting terms 0 (rows_of self.old.living.items) }
        requires room { IsTrue (all_take terms (rows_of self.old.living.items)) }
        ensures changed { OnOk result ((at : ℕ) → at < length self.old.living.items
            → IsChanged W.view self.old at (noting terms) self.new) }
        ensures done { IfOk result (IsDone (noting terms)) }
        ensures err { OnErr result (StandsAs W.view self.old self.new) }
    {
        self.rouse(indices.as_slice())?;
        hand_out(alloc, &mut self.living, indices.as_slice(), &terms)?;
        Ok(Done {
            kind: LabelKind::SndNote,
            shown: terms,
            binds: Items::new(alloc),
        })
    }

    /// Takes a found note out of the queue of a process.
    fn take_note(&mut self, at: usize, found: Found) -> Done
        requires sound { IsSound W.view self.old }
        requires within { at < length self.old.living.items }
        requires idle { IsStaleAt self.old.living.items at }
        requires place { found.place
            < length (row_at (rows_of self.old.living.items) at).inbox.notes }
        ensures changed { IsChanged W.view self.old at
            (taking (row_at (rows_of self.old.living.items) at).inbox found) self.new }
        ensures done { IsDone
            (taking (row_at (rows_of self.old.living.items) at).inbox found) result }
    {
        let Found { place, binds } = found;
        Done {
            kind: LabelKind::RecNote,
            shown: take_note_at(&mut self.living, at, place),
            binds,
        }
    }

    /// Executes a found exchange with a tool, and wakes the processes that the exchange may concern.
    fn speak_with_tool(
        &mut self,
        alloc: Global,
        does: ToolAction,
        exchange: Exchange,
    ) -> Result<Done, NoMemory>
        requires sound { IsSound W.view self.old }
        requires tools { self.old.bench.next_tool ≤ most_tools }
        requires can { CanSpeak self.old.origin.program.tools self.old.bench does exchange }
        ensures changed { OnOk result ((at : ℕ) → at < length self.old.living.items
            → IsChanged W.view self.old at (speaking
            (around self.old.origin.program.tools self.old.bench) does exchange) self.new) }
        ensures done { IfOk result (IsDone
            (speaking (around self.old.origin.program.tools self.old.bench) does exchange)) }
        ensures err { OnErr result (StandsAs W.view self.old self.new) }
    {
        let stirs = self.disturb_by(&does, &exchange)?;
        let program = &self.origin.program;
        let done = speak(
            alloc,
            program.tools.as_slice(),
            &mut self.bench,
            does,
            exchange,
        )?;
        self.bench.show_lanes();
        self.stir_if(stirs);
        Ok(done)
    }

    /// Creates a process of this body with these arguments, as the last process. The result binds its number to the slot.
    fn create(
        &mut self,
        alloc: Global,
        process: u32,
        actuals: Terms,
        slot: u32,
    ) -> Result<Done, NoMemory>
        requires sound { IsSound W.view self.old }
        requires next { self.old.marks.next_number < 4294967295 }
        requires fits { IsTrue
            (fits_formals (slice_get self.old.origin.program.bodies process) actuals) }
        ensures changed { OnOk result ((at : ℕ) → at < length self.old.living.items
            → IsChanged W.view self.old at
            (creation self.old.marks.next_number process actuals slot) self.new) }
        ensures done { IfOk result
            (IsDone (creation self.old.marks.next_number process actuals slot)) }
        ensures err { OnErr result (StandsAs W.view self.old self.new) }
    {
        let number = self.marks.next_number;
        let done = created(alloc, number, slot)?;
        let program = &self.origin.program;
        let bodies = program.bodies.as_slice();
        let living = open_at::<W>(alloc, bodies, &self.plans, number, process, actuals)?;
        self.stale.reserve(1)?;
        self.index.make_room(number)?;
        self.living.push(living)?;
        self.stale.push_reserved(number);
        self.marks.next_number = number + 1;
        Ok(done)
    }

    /// Shuts down the bus, and queues the reason for each tool that is there.
    pub fn go_down(&mut self, reason: &Term) -> Result<(), NoMemory>
        requires { IsSound W.view self.old }
        ensures sound { IsSound W.view self.new }
        ensures origin { self.new.origin ≡ self.old.origin }
        ensures plans { self.new.plans ≡ self.old.plans }
        ensures living { self.new.living ≡ self.old.living }
        ensures stale { self.new.stale ≡ self.old.stale }
        ensures ok { OnOk result
            (bus_of W.view self.new ≡ went_down reason.now (bus_of W.view self.old)) }
        ensures err { OnErr result (StandsAs W.view self.old self.new) }
    {
        self.bench.down(reason)?;
        self.stirred = true;
        self.bench.show_lanes();
        self.marks.down = true;
        Ok(())
    }
}
