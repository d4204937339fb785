//! A bus that threads share.
ghost use Rattle.std.specs.Prelude.{◌≡◌, ◌<◌, [], IfOk, IfErr, false, true};
ghost use Rattle.tb_log.specs.Shapes.{IsInputInShape, IsLane};
ghost use Rattle.tb_core.specs.Cores.{HandIn, MakeStep, HandOut, IsStep};
ghost use Rattle.tb_lock.specs.Rights.{AreAmong, has, right_to, all_rights};
ghost use Rattle.tb_lock.specs.Seats.{first_seat, kept_of, handed_on, most_seats};
ghost use Rattle.tb_lock.specs.Calls.{IsCallInShape, Called, IsReply, IsTaken, Observes, IsStateOf, IsPieceOf, StopsBus, Joins, Closes};

use crate::call::{CoreCall, HandingIn, Stepping, TakingOut};
use crate::notices::Notices;
use crate::plays::BusRule;
use crate::rights::Rights;
use crate::seat::{Seat, View};
use crate::share::{part, unite};
use crate::turn::{acquire, open, release, release_stopped, release_unchanged};
use crate::visit::Visit;
use atomic_table::{Badge, Table};
use std::alloc::Global;
use std::marker::{Brand, Model};
use std::mem::replace;
use std::sync::Wait;
use tb_bells::Gate;
use tb_core::{Core, CoreFault, Stepped, TakeOut};
use tb_log::{Entries, Input, Reply, piece};
use tb_process_steps::Walker;
use tb_terms::NoMemory;
use tb_tools::LaneState;

/// A bus that threads share. Each thread calls it with its own handle, and the calls of all handles take turns. So there is one log,
/// and each handle has seen a prefix of it. Contracts see only the name of the bus, and a handle has the name of its bus.
#[derive(Drop)]
pub struct Shared<W: Walker> {
    table: Table<Option<Core<W>>, View, Core<W>, BusRule, Global>,
    /// A thread enters this gate before it draws a ticket. So no turn is passed on to a sleeping thread.
    gate: Gate,
    notices: Notices,
}

impl<W: Walker> Model for Shared<W> {
    ghost use Rattle.atomic_table.specs.Seated.{TableId, table_id_coded};
    ghost use Rattle.tb_lock.specs.Helpers.Plays.{IsBoard};

    ghost Value = { TableId };

    ghost coded = { table_id_coded };

    ghost view = { λ bus. bus.table.shared.table_id };

    ghost invariant = { λ bus. IsBoard bus.table.shared.table_id };
}

/// The error of `make` if out of memory: it returns the core.
#[derive(Drop)]
pub struct NoRoom<W: Walker> {
    /// The unchanged core.
    pub core: Core<W>,
}

impl<W: Walker> Shared<W> {
    /// Shares a core that has logged nothing and isn't stopped. The returned handle has all rights, and the quota 64.
    pub fn make(alloc: Global, core: Core<W>) -> Result<(Shared<W>, Seat), NoRoom<W>>
        requires log { core.log ≡ [] }
        requires running { core.stopped ≡ false }
        ensures ok { IfOk result (λ made. made.1 ≡ first_seat made.0 core.origin) }
        ensures err { IfErr result (λ refused. refused.core ≡ core) }
    {
        let Ok((table, mut holder)) = Table::vacant(alloc, &[1, 0], 1, &core) else {
            return Err(NoRoom { core });
        };
        let gate = Gate::new();
        let notices = Notices::of(&core);
        open(&table.shared, &mut holder, core);
        let seat = Seat {
            badge: holder.into_badge(),
        };
        let shared = Shared {
            table,
            gate,
            notices,
        };
        Ok((shared, seat))
    }

    /// Moves some of the handle's rights, and 1 of its quota, to a new handle.
    pub fn split(&self, seat: &mut Seat, rights: Rights) -> Seat
        requires own { seat.old.bus ≡ self.now }
        requires rights { AreAmong rights seat.old.rights }
        requires room { 1 < seat.old.room }
        ensures seat { seat.new ≡ kept_of rights seat.old }
        ensures new { result ≡ handed_on rights seat.old }
    {
        let mut holder = replace(&mut seat.badge, Badge::blank()).into_seat();
        let other = part::<W, Brand>(&self.table.shared, &mut holder, rights);
        seat.badge = holder.into_badge();
        Seat {
            badge: other.into_badge(),
        }
    }

    /// Joins another handle to this one, which takes its rights, its quota, and its own entries.
    pub fn join(&self, seat: &mut Seat, other: Seat)
        requires own { seat.old.bus ≡ self.now }
        requires other { other.bus ≡ self.now }
        ensures { Joins seat.old other seat.new }
    {
        let Seat { badge } = other;
        let mut holder = replace(&mut seat.badge, Badge::blank()).into_seat();
        unite(&self.table.shared, &mut holder, badge.into_seat());
        seat.badge = holder.into_badge();
    }

    /// Delivers an input in the handle's turn.
    pub fn hand_in<R: Wait>(
        &self,
        rt: &R,
        seat: &mut Seat,
        input: Input,
    ) -> Result<Reply, CoreFault>
        requires own { seat.old.bus ≡ self.now }
        requires form { IsInputInShape input }
        requires right { has seat.old.rights (right_to (HandIn input)) ≡ true }
        ensures { Called (IsReply input) (HandIn input) seat.old seat.new result }
    {
        self.call(rt, seat, HandingIn { input })
    }

    /// Takes the first possible step in the handle's turn, or reports that no step is possible, as `step` of a core does.
    pub fn step<R: Wait>(&self, rt: &R, seat: &mut Seat) -> Result<Stepped, CoreFault>
        requires own { seat.old.bus ≡ self.now }
        requires right { has seat.old.rights (right_to MakeStep) ≡ true }
        ensures { Called IsStep MakeStep seat.old seat.new result }
    {
        self.call(rt, seat, Stepping)
    }

    /// Enters the gate of the bus once, for several successive turns. The gate stays shut until the visit is dropped.
    pub fn enter<R: Wait>(&self, rt: &R) -> Visit<'_, W>
        ensures { result ≡ self.now }
    {
        Visit {
            bus: self,
            _gate: self.gate.enter(rt),
        }
    }

    /// Takes the next item that is queued on a lane, in the handle's turn.
    pub fn take_out<R: Wait>(&self, rt: &R, seat: &mut Seat, lane: u8) -> Result<TakeOut, CoreFault>
        requires own { seat.old.bus ≡ self.now }
        requires lane { IsLane lane }
        requires right { has seat.old.rights (right_to (HandOut lane)) ≡ true }
        ensures { Called (IsTaken lane) (HandOut lane) seat.old seat.new result }
    {
        self.call(rt, seat, TakingOut { lane })
    }

    /// Returns the state of a lane, in the handle's turn.
    pub fn lane_state<R: Wait>(&self, rt: &R, seat: &mut Seat, lane: u8) -> LaneState
        requires own { seat.old.bus ≡ self.now }
        requires lane { IsLane lane }
        ensures { Observes (IsStateOf lane) seat.old seat.new result }
    {
        let mut holder = replace(&mut seat.badge, Badge::blank()).into_seat();
        let guard = self.gate.enter(rt);
        let core = acquire(rt, &self.table.shared, &mut holder);
        let state = core.lane_state(lane);
        release_unchanged(&self.table.shared, &mut holder, core);
        drop(guard);
        seat.badge = holder.into_badge();
        state
    }

    /// Copies entries of the history in the handle's turn: the first `most` entries after the first `from`, or all of these if there are
    /// fewer. A handle needs no right for this call. Even if out of memory, the handle has then seen the whole log of the core.
    pub fn read_log<R: Wait>(
        &self,
        rt: &R,
        alloc: Global,
        seat: &mut Seat,
        from: u64,
        most: usize,
    ) -> Result<Entries, NoMemory>
        requires { seat.old.bus ≡ self.now }
        ensures { Observes (IsPieceOf from most) seat.old seat.new result }
    {
        let mut holder = replace(&mut seat.badge, Badge::blank()).into_seat();
        let guard = self.gate.enter(rt);
        let core = acquire(rt, &self.table.shared, &mut holder);
        let found = piece(alloc, core.log(), from, most);
        release_unchanged(&self.table.shared, &mut holder, core);
        drop(guard);
        seat.badge = holder.into_badge();
        found
    }

    /// Returns whether the writer of this lane has work, as the last turn left the core: an item is queued on the lane, or the bus has
    /// shut down, or the bus was stopped. The call takes no turn, and its answer is a hint.
    pub fn calls_for(&self, lane: u8) -> bool {
        self.notices.has(lane)
    }

    /// Makes a call of the core in one turn of the handle, inside the gate.
    fn call<R: Wait, C: CoreCall<W>>(
        &self,
        rt: &R,
        seat: &mut Seat,
        call: C,
    ) -> Result<C::Answer, CoreFault>
        requires own { seat.old.bus ≡ self.now }
        requires form { IsCallInShape (C.call call) }
        requires right { has seat.old.rights (right_to (C.call call)) ≡ true }
        ensures { Called (C.finds call) (C.call call) seat.old seat.new result }
    {
        let guard = self.gate.enter(rt);
        let answer = self.turn(rt, seat, call);
        drop(guard);
        answer
    }

    /// Makes a call of the core in one turn of the handle. The thread must already be inside the gate.
    pub(crate) fn turn<R: Wait, C: CoreCall<W>>(
        &self,
        rt: &R,
        seat: &mut Seat,
        call: C,
    ) -> Result<C::Answer, CoreFault>
        requires own { seat.old.bus ≡ self.now }
        requires form { IsCallInShape (C.call call) }
        requires right { has seat.old.rights (right_to (C.call call)) ≡ true }
        ensures { Called (C.finds call) (C.call call) seat.old seat.new result }
    {
        let mut holder = replace(&mut seat.badge, Badge::blank()).into_seat();
        let mut core = acquire(rt, &self.table.shared, &mut holder);
        let answer = call.make(&mut core);
        self.notices.put(&core);
        release(&self.table.shared, &mut holder, core);
        seat.badge = holder.into_badge();
        answer
    }

    /// Stops the bus in the handle's turn. From then on, `hand_in`, `step`, and `take_out` of all handles return `Stopped`.
    pub fn stop<R: Wait>(&self, rt: &R, seat: &mut Seat)
        requires own { seat.old.bus ≡ self.now }
        ensures { StopsBus seat.old seat.new }
    {
        let mut holder = replace(&mut seat.badge, Badge::blank()).into_seat();
        let guard = self.gate.enter(rt);
        let mut core = acquire(rt, &self.table.shared, &mut holder);
        core.stop();
        self.notices.put(&core);
        release_stopped(&self.table.shared, &mut holder, core);
        drop(guard);
        seat.badge = holder.into_badge();
    }

    /// Returns the core. The handle must be the only one left: it has all rights and the quota 64.
    pub fn close<R: Wait>(self, rt: &R, seat: Seat) -> Core<W>
        requires own { seat.bus ≡ self }
        requires rights { seat.rights ≡ all_rights }
        requires room { seat.room ≡ most_seats }
        ensures { Closes seat result }
    {
        let Shared {
            table,
            gate: _,
            notices: _,
        } = self;
        let Seat { badge } = seat;
        let mut holder = badge.into_seat();
        acquire(rt, &table.shared, &mut holder)
    }
}
