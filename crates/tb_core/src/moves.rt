//! Finds the first of all moves, makes a found move, and logs it.

ghost use Rattle.std.specs.Prelude.{◌≡◌, ◌<◌, ◌≤◌, ◌+◌, length, vec_len, vec_capacity, Contains, IfOk, IfSome, OnOk, OnErr, true, false, option_map};
ghost use Rattle.tb_process_steps.specs.Offers.{Offered};
ghost use Rattle.tb_tools.specs.Lanes.{most_tools};
ghost use Rattle.tb_bus.specs.Steps.{moves, apply, label_of, nowhere, first};
ghost use Rattle.tb_search.specs.Candidates.{row_at, rows_of};
ghost use Rattle.tb_search.specs.Views.{ready_at, offer_of, IsCandidateIn};
ghost use Rattle.tb_core.specs.Helpers.LiveBuses.{bus_of, procs_in, scene_in, move_in, IsSound, StandsAs, Leaves, CanAdvance, HasGone, IsMade, CanLog, IsLogged};
ghost use Rattle.tb_living.specs.Lives.{AreFresh};

use crate::acting::{NOWHERE, end_label, finish_reason, halt_reason, kind_alone, put_label};
use crate::advancing::Begun;
use crate::bus::LiveBus;
use std::alloc::Global;
use tb_bus::{Action, OwnAction};
use tb_living::{Buffers, Done};
use tb_log::{Label, LabelKind, Log, Place};
use tb_match::Binds;
use tb_process_steps::Walker;
use tb_search::{Candidate, Finding, Partner, Received, first_candidate};
use tb_terms::NoMemory;

impl<W: Walker> LiveBus<W> {
    /// Returns the first of all moves, if there is one. `room` lends memory for binds.
    #[inline(always)]
    pub fn first_candidate(
        &self,
        alloc: Global,
        room: &mut Binds,
    ) -> Result<Option<Candidate>, NoMemory>
        requires sound { IsSound W.view self.now }
        requires fresh { AreFresh self.now.living.items }
        requires settled { self.now.stirred ≡ false }
        ensures found { IfOk result (λ found. option_map (move_in W.view self.now) found
            ≡ first (moves (bus_of W.view self.now))) }
        ensures stands { IfOk result (λ found. IfSome found (IsCandidateIn (scene_in self.now))) }
    {
        let program = &self.origin.program;
        first_candidate(
            alloc,
            program,
            &self.bench,
            self.living.as_slice(),
            self.marks,
            &self.index,
            room,
        )
    }

    /// Makes a found move, and logs it. Takes all memory before the represented bus or the log changes.
    pub fn make(
        &mut self,
        alloc: Global,
        candidate: Candidate,
        log: &mut Log,
        buffers: &mut Buffers,
    ) -> Result<(), NoMemory>
        requires sound { IsSound W.view self.old }
        requires fresh { AreFresh self.old.living.items }
        requires next { self.old.marks.next_number < 4294967295 }
        requires tools { self.old.bench.next_tool ≤ most_tools }
        requires found { IsCandidateIn (scene_in self.old) candidate }
        requires can { CanLog log.old (label_of (move_in W.view self.old candidate)) }
        ensures sound { IsSound W.view self.new }
        ensures origin { self.new.origin ≡ self.old.origin }
        ensures logged { OnOk result
            (IsLogged log.old (label_of (move_in W.view self.old candidate)) log.new) }
        ensures bus { OnOk result (bus_of W.view self.new
            ≡ apply (bus_of W.view self.old) (move_in W.view self.old candidate)) }
        ensures err { OnErr result (bus_of W.view self.new ≡ bus_of W.view self.old) }
        ensures kept { OnErr result (log.new ≡ log.old) }
    {
        match candidate {
            Candidate::Own(at, index, Finding::Plain) if self.is_tau(at, index) => {
                self.make_tau(alloc, at, index, log)
            }
            Candidate::Own(at, index, finding) => self.make_own(alloc, at, index, finding, log),
            Candidate::Handshake(at, index, partner) => {
                self.shake(alloc, at, index, partner, log, buffers)
            }
            Candidate::Finish => self.finish_bus(alloc, log),
            Candidate::Halt => self.halt_bus(alloc, log),
        }
    }

    /// Returns whether a ready action is a tau: its label has no terms, and only its process advances.
    fn is_tau(&self, at: usize, index: usize) -> bool
        requires within { at < length self.now.living.items }
        requires index_within { index < length (row_at (rows_of self.now.living.items) at).ready }
        ensures { result ≡ true → (ready_at (rows_of self.now.living.items) at index).action
            ≡ Action.Own OwnAction.Tau }
    {
        match &self.living[at].get().ready[index].action {
            Action::Own(OwnAction::Tau) => true,
            _ => false,
        }
    }

    /// Makes the tau of a process, and logs it without terms.
    #[inline(always)]
    fn make_tau(
        &mut self,
        alloc: Global,
        at: usize,
        index: usize,
        log: &mut Log,
    ) -> Result<(), NoMemory>
        requires sound { IsSound W.view self.old }
        requires fresh { AreFresh self.old.living.items }
        requires found { IsCandidateIn (scene_in self.old) (Candidate.Own at index Finding.Plain) }
        requires tau { (ready_at (rows_of self.old.living.items) at index).action
            ≡ Action.Own OwnAction.Tau }
        requires can { CanLog log.old
            (label_of (move_in W.view self.old (Candidate.Own at index Finding.Plain))) }
        ensures made { OnOk result
            (IsMade W.view self.old (Candidate.Own at index Finding.Plain) self.new) }
        ensures logged { OnOk result (IsLogged log.old
            (label_of (move_in W.view self.old (Candidate.Own at index Finding.Plain))) log.new) }
        ensures err { OnErr result (StandsAs W.view self.old self.new) }
        ensures kept { OnErr result (log.new ≡ log.old) }
    {
        let taken = self.take_at(alloc, at, index)?;
        let from = self.leave(at, index)?;
        let label = self.finish(at, taken, from, kind_alone(alloc, LabelKind::Tau));
        put_label(log, label);
        Ok(())
    }

    /// Makes an own action of a process with its finding, and logs it.
    #[inline(never)]
    fn make_own(
        &mut self,
        alloc: Global,
        at: usize,
        index: usize,
        finding: Finding,
        log: &mut Log,
    ) -> Result<(), NoMemory>
        requires sound { IsSound W.view self.old }
        requires fresh { AreFresh self.old.living.items }
        requires next { self.old.marks.next_number < 4294967295 }
        requires tools { self.old.bench.next_tool ≤ most_tools }
        requires found { IsCandidateIn (scene_in self.old) (Candidate.Own at index finding) }
        requires can { CanLog log.old
            (label_of (move_in W.view self.old (Candidate.Own at index finding))) }
        ensures made { OnOk result
            (IsMade W.view self.old (Candidate.Own at index finding) self.new) }
        ensures logged { OnOk result (IsLogged log.old
            (label_of (move_in W.view self.old (Candidate.Own at index finding))) log.new) }
        ensures err { OnErr result (StandsAs W.view self.old self.new) }
        ensures kept { OnErr result (log.new ≡ log.old) }
    {
        let taken = self.take_at(alloc, at, index)?;
        let Begun { from, own } = self.begin(at, index)?;
        let done = self.act(alloc, at, own, finding)?;
        let label = self.finish(at, taken, from, done);
        put_label(log, label);
        Ok(())
    }

    /// Makes a found handshake, and logs it. Takes all memory first.
    fn shake(
        &mut self,
        alloc: Global,
        at: usize,
        index: usize,
        partner: Partner,
        log: &mut Log,
        buffers: &mut Buffers,
    ) -> Result<(), NoMemory>
        requires sound { IsSound W.view self.old }
        requires fresh { AreFresh self.old.living.items }
        requires found { IsCandidateIn (scene_in self.old) (Candidate.Handshake at index partner) }
        requires can { CanLog log.old
            (label_of (move_in W.view self.old (Candidate.Handshake at index partner))) }
        ensures sound { IsSound W.view self.new }
        ensures origin { self.new.origin ≡ self.old.origin }
        ensures logged { OnOk result (IsLogged log.old
            (label_of (move_in W.view self.old (Candidate.Handshake at index partner))) log.new) }
        ensures bus { OnOk result (bus_of W.view self.new ≡ apply (bus_of W.view self.old)
            (move_in W.view self.old (Candidate.Handshake at index partner))) }
        ensures err { OnErr result (bus_of W.view self.new ≡ bus_of W.view self.old) }
        ensures kept { OnErr result (log.new ≡ log.old) }
    {
        self.stale.reserve(2)?;
        let sent = self.take_at(alloc, at, index)?;
        let received = self.take_at(alloc, partner.living, partner.received.action)?;
        self.make_handshake(alloc, at, index, sent, partner, received, log, buffers);
        Ok(())
    }

    /// Makes a handshake after both offers were taken, and logs it. This takes no memory.
    fn make_handshake(
        &mut self,
        alloc: Global,
        at: usize,
        index: usize,
        sent: W::Taken,
        partner: Partner,
        received: W::Taken,
        log: &mut Log,
        buffers: &mut Buffers,
    )
        requires sound { IsSound W.view self.old }
        requires fresh { AreFresh self.old.living.items }
        requires found { IsCandidateIn (scene_in self.old) (Candidate.Handshake at index partner) }
        requires sent { Leaves W.view self.old at sent
            (offer_of (procs_in W.view self.old) (rows_of self.old.living.items) at index) }
        requires received { Leaves W.view self.old partner.living received
            (offer_of (procs_in W.view self.old)
            (rows_of self.old.living.items) partner.living partner.received.action) }
        requires room { vec_len self.old.stale + 1 < vec_capacity self.old.stale }
        requires can { CanLog log.old
            (label_of (move_in W.view self.old (Candidate.Handshake at index partner))) }
        ensures made { IsMade W.view self.old (Candidate.Handshake at index partner) self.new }
        ensures logged { IsLogged log.old
            (label_of (move_in W.view self.old (Candidate.Handshake at index partner))) log.new }
    {
        let Partner {
            living: other,
            received: Received { action, mut binds },
        } = partner;
        let from = self.place_at(at, index);
        let to = self.place_at(other, action);
        self.stale.push_reserved(from.proc);
        self.stale.push_reserved(to.proc);
        let terms = self.take_sent(alloc, at, index);
        self.advance_both(alloc, at, sent, other, received, &mut binds);
        self.marks.last_starter = from.proc;
        let emptied = put_label(
            log,
            Label {
                kind: LabelKind::Msg,
                from,
                to,
                terms,
            },
        );
        buffers.give_back(emptied, binds);
    }

    /// Advances a process after the taken offer and with its binds, and makes it the last starter. The change of its action was already
    /// made. Returns the label of the step.
    #[inline(always)]
    fn finish(&mut self, at: usize, taken: W::Taken, from: Place, done: Done) -> Label
        requires sound { IsSound W.view self.old }
        requires within { at < length self.old.living.items }
        requires named { Contains self.old.stale.items
            (row_at (rows_of self.old.living.items) at).number }
        requires taken { CanAdvance W.view self.old at taken done.binds }
        ensures gone { (offered : Offered) → Leaves W.view self.old at taken offered
            → HasGone W.view self.old at offered done.binds from.proc self.new }
        ensures label { result
            ≡ record { kind = done.kind; from = from; to = nowhere; terms = done.shown } }
    {
        let Done {
            kind,
            shown,
            mut binds,
        } = done;
        self.advance_at(at, taken, &mut binds);
        self.marks.last_starter = from.proc;
        Label {
            kind,
            from,
            to: NOWHERE,
            terms: shown,
        }
    }

    /// Shuts down the bus for the reason `finish`, because no process is left, and logs this step.
    #[inline(never)]
    fn finish_bus(&mut self, alloc: Global, log: &mut Log) -> Result<(), NoMemory>
        requires sound { IsSound W.view self.old }
        requires can { CanLog log.old (label_of (move_in W.view self.old Candidate.Finish)) }
        ensures made { OnOk result (IsMade W.view self.old Candidate.Finish self.new) }
        ensures logged { OnOk result
            (IsLogged log.old (label_of (move_in W.view self.old Candidate.Finish)) log.new) }
        ensures err { OnErr result (StandsAs W.view self.old self.new) }
        ensures kept { OnErr result (log.new ≡ log.old) }
    {
        self.go_down(&finish_reason(alloc)?)?;
        put_label(log, end_label(alloc, LabelKind::Finish));
        Ok(())
    }

    /// Shuts down the bus for the reason `halt`, because no process can do anything and no more ticks come, and logs this step.
    #[inline(never)]
    fn halt_bus(&mut self, alloc: Global, log: &mut Log) -> Result<(), NoMemory>
        requires sound { IsSound W.view self.old }
        requires can { CanLog log.old (label_of (move_in W.view self.old Candidate.Halt)) }
        ensures made { OnOk result (IsMade W.view self.old Candidate.Halt self.new) }
        ensures logged { OnOk result
            (IsLogged log.old (label_of (move_in W.view self.old Candidate.Halt)) log.new) }
        ensures err { OnErr result (StandsAs W.view self.old self.new) }
        ensures kept { OnErr result (log.new ≡ log.old) }
    {
        self.go_down(&halt_reason(alloc)?)?;
        put_label(log, end_label(alloc, LabelKind::Halt));
        Ok(())
    }
}
