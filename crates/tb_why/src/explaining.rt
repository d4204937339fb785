//! The reason of each offer of a bus.

ghost use Rattle.std.specs.Prelude.{◌≡◌, IfOk, map};
ghost use Rattle.tb_core.specs.Helpers.LiveBuses.{bus_of, IsSound};
ghost use Rattle.tb_why.specs.Reasons.{reason_by, reason_now, stall_of, waiters};
ghost use Rattle.tb_why.specs.Standing.{standings};
ghost use Rattle.tb_why.specs.Helpers.Scenes.{scene_seen};

use crate::own::{
    create_reason, end_reason, full_reason, note_reason, pattern_reason, print_reason, set_reason,
    waits_reason,
};
use crate::partners::{act_at, atoms_of, receiver_reason, sender_reason};
use crate::reason::Reason;
use crate::scene::Sight;
use crate::stall::{Stall, Waiter};
use crate::standing::{Offering, Standing};
use crate::tools::{
    event_reason, execute_reason, idle_reason, kind_reason, leaving_reason, live_reason,
    received_reason, value_reason,
};
use std::alloc::Global;
use tb_body::Act;
use tb_core::LiveBus;
use tb_notes::Inbox;
use tb_process_steps::Walker;
use tb_search::{Living, Speaker};
use tb_terms::{Items, NoMemory};
use tb_tools::Stage;

/// One offer of a process, with the parts of the process on which the reason depends.
#[derive(Clone, Copy)]
pub(crate) struct Offerer<'a> {
    /// The number of the process.
    pub number: u32,
    /// The index of its body, from 0.
    pub body: u32,
    /// Its queue of notes.
    pub inbox: &'a Inbox,
    /// The offer.
    pub offer: &'a Offering,
}

/// Returns the reason of an offer whose times hold: the first condition of its atom that fails. Returns `None` if none fails.
fn reason_by<W>(
    alloc: Global,
    sight: &Sight<W>,
    who: &Offerer,
    act: &Act,
) -> Result<Option<Reason>, NoMemory>
    ensures { IfOk result (λ reason. reason ≡ reason_by (scene_seen sight.now)
        who.now.number who.now.body who.now.inbox.now.held who.now.offer.now act.now) }
{
    let Sight { program, bench, .. } = sight;
    let Offering { sent, patterns, .. } = who.offer;
    let bodies = program.bodies.as_slice();
    let body = who.body;
    let speaker = Speaker {
        program,
        bench,
        body,
    };
    match act {
        Act::Delta => Ok(Some(Reason::Never)),
        Act::Tau => Ok(None),
        Act::Set { slot, .. } => Ok(set_reason(bodies, body, *slot, sent)),
        Act::Printf(_) => print_reason(alloc, sent),
        Act::Create { process, slot, .. } => Ok(create_reason(sight, body, *process, *slot, sent)),
        Act::SndMsg(_) => receiver_reason(alloc, bodies, who.number, sent, sight.standings),
        Act::RecMsg(_) => sender_reason(alloc, bodies, who.number, patterns, sight.standings),
        Act::SndNote(_) => Ok(full_reason(sight.all, sent)),
        Act::RecNote(_) => note_reason(who.inbox, patterns),
        Act::NoNote(_) => waits_reason(who.inbox, patterns),
        Act::Subscribe(_) | Act::Unsubscribe(_) => Ok(pattern_reason(patterns)),
        Act::Execute { tool, slot } => execute_reason(alloc, &speaker, *tool, *slot),
        Act::RecConnect { tool, slot } => Ok(kind_reason(&speaker, Stage::Waiting, *tool, *slot)),
        Act::RecDisconnectAny { tool, slot } => {
            Ok(kind_reason(&speaker, Stage::Leaving, *tool, *slot))
        }
        Act::RecDisconnect(_) => Ok(leaving_reason(bench, sent)),
        Act::SndEval(_, _) | Act::SndDo(_, _) => Ok(idle_reason(bench, sent)),
        Act::RecValue(_, _) => value_reason(alloc, bench, sent, patterns),
        Act::RecEvent(_, _) => event_reason(bench, sent, patterns),
        Act::SndAckEvent(_, _) => received_reason(alloc, bench, sent),
        Act::SndTerminate(_, _) => Ok(live_reason(bench, sent)),
        Act::Shutdown(_) => Ok(end_reason(sent)),
    }
}

/// Returns the reason of an offer, or `None` if no condition fails.
fn reason_now<W>(alloc: Global, sight: &Sight<W>, who: &Offerer) -> Result<Option<Reason>, NoMemory>
    ensures { IfOk result (λ reason. reason ≡ reason_now sight.now.down (scene_seen sight.now)
        who.now.number who.now.body who.now.inbox.now.held who.now.offer.now) }
{
    if sight.down {
        return Ok(Some(Reason::Down));
    }
    if !who.offer.ready {
        return Ok(Some(Reason::Times));
    }
    let atoms = atoms_of(sight.program.bodies.as_slice(), who.body);
    match act_at(atoms, who.offer.atom) {
        Some(act) => reason_by(alloc, sight, who, act),
        None => Ok(Some(Reason::Never)),
    }
}

/// Returns an entry for each offer of a process, in order.
fn stalls_of<W>(
    alloc: Global,
    sight: &Sight<W>,
    living: &Living<W>,
    offers: &[Offering],
) -> Result<Items<Stall>, NoMemory>
    ensures { IfOk result (λ stalls. stalls ≡ map (stall_of sight.now.down (scene_seen sight.now)
        living.now.number living.now.body living.now.inbox.held) offers.now) }
{
    let mut stalls = Items::new(alloc);
    for offer in offers {
        let who = Offerer {
            number: living.number,
            body: living.body,
            inbox: &living.inbox,
            offer,
        };
        let reason = reason_now(alloc, sight, &who)?;
        stalls.push(Stall {
            atom: offer.atom,
            reason,
        })?;
    }
    Ok(stalls)
}

/// Returns the entry of a process, with an entry for each of its offers.
fn waiter<W>(
    alloc: Global,
    sight: &Sight<W>,
    living: &Living<W>,
    standing: &Standing,
) -> Result<Waiter, NoMemory>
    ensures { IfOk result (λ waiter. waiter ≡ record {
      number = living.now.number;
      body = living.now.body;
      stalls = map (stall_of sight.now.down (scene_seen sight.now) living.now.number
          living.now.body living.now.inbox.held) standing.now.offers;
    }) }
{
    let stalls = stalls_of(alloc, sight, living, standing.offers.as_slice())?;
    Ok(Waiter {
        number: living.number,
        body: living.body,
        stalls,
    })
}

/// Returns what each living process of a bus waits for: an entry for each process, and in it an entry for each of its offers, in order.
/// `seen` is the result of `stand` for this bus.
pub fn explain<W: Walker>(
    alloc: Global,
    bus: &LiveBus<W>,
    seen: &[Standing],
) -> Result<Items<Waiter>, NoMemory>
    requires sound { IsSound W.view bus.now }
    requires seen { seen.now ≡ standings (bus_of W.view bus.now) }
    ensures { IfOk result (λ all. all ≡ waiters (bus_of W.view bus.now)) }
{
    let all = bus.living.as_slice();
    let sight = Sight {
        program: &bus.origin.program,
        bench: &bus.bench,
        all,
        standings: seen,
        next_number: bus.marks.next_number,
        down: bus.marks.down,
    };
    let mut waiters = Items::new(alloc);
    for (at, living) in all.iter().enumerate() {
        waiters.push(waiter(alloc, &sight, living.get(), &seen[at])?)?;
    }
    Ok(waiters)
}
