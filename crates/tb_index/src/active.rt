//! The active marks: how they change when a process sends and receives under other marks.
ghost use Rattle.std.specs.Prelude.{◌≡◌, ℕ, true, false, [], ◌∷◌, OnOk};
ghost use Rattle.std.specs.List.{list_any};
ghost use Rattle.tb_index.specs.declared.mark.Mark.{Mark as TheMark};
ghost use Rattle.tb_index.specs.Marks.{has_mark, is_mark, meets, open_head};
ghost use Rattle.tb_index.specs.Helpers.Pairs.{has, AreCountedIf, AreOpened, AllOpened, SentAreHeard, ReceivedAreHeard, SentAreKept, ReceivedAreKept, AreKept, IsFirst, is_sender};
ghost use Rattle.tb_index.specs.Helpers.Sides.{AreTold, AreHeardOn, AreKeptOn};

use crate::counts::Counts;
use crate::mark::{Mark, Marks, OPEN_HEAD, has_mark, wide};
use crate::pairs::Pairs;
use crate::slot::earlier;
use tb_terms::NoMemory;

/// The side of marks: the marks of the senders, or those of the receivers.
#[derive(Clone, Copy)]
pub(crate) enum Side {
    Sends,
    Receives,
}

/// Makes marks active for the marks of a process that are in `new` and not in `old`. For a sent mark, these are the marks under which
/// some process receives its messages. A received mark becomes active if some process sends a message for it.
/// After an error, some of these marks may be active.
pub(crate) fn activate(
    active: &mut Vec<Mark>,
    sending: &Pairs,
    receiving: &Pairs,
    counts: &Counts,
    old: &Marks,
    new: &Marks,
) -> Result<(), NoMemory>
    requires told { AllOpened counts.now.opened receiving.now }
    requires counted { AreCountedIf counts.now.opened sending.now counts.now.pairs }
    requires opened { AreOpened counts.now.opened new.now.receives.items }
    ensures kept { AreKept active.old.items active.new.items }
    ensures sends { OnOk result (SentAreHeard
        new.now.sends.items old.now.sends.items receiving.now active.new.items) }
    ensures receives { OnOk result (ReceivedAreHeard
        new.now.receives.items old.now.receives.items sending.now active.new.items) }
{
    match activate_side(
        active,
        Side::Sends,
        receiving,
        counts,
        new.sends.as_slice(),
        old.sends.as_slice(),
    ) {
        Ok(()) => {}
        Err(error) => return Err(error),
    }
    activate_side(
        active,
        Side::Receives,
        sending,
        counts,
        new.receives.as_slice(),
        old.receives.as_slice(),
    )?;
    Ok(())
}

/// Makes marks active for the marks of one side that aren't among `but`. `across` has the pairs of the other side.
#[inline(always)]
fn activate_side(
    active: &mut Vec<Mark>,
    side: Side,
    across: &Pairs,
    counts: &Counts,
    marks: &[Mark],
    but: &[Mark],
) -> Result<(), NoMemory>
    requires { AreTold side counts.now.opened across.now counts.now.pairs marks.now }
    ensures kept { AreKept active.old.items active.new.items }
    ensures all { OnOk result (AreHeardOn side marks.now but.now across.now active.new.items) }
{
    for mark in marks {
        activate_one(active, side, across, counts, *mark, but)?;
    }
    Ok(())
}

#[inline(always)]
fn activate_one(
    active: &mut Vec<Mark>,
    side: Side,
    across: &Pairs,
    counts: &Counts,
    mark: Mark,
    but: &[Mark],
) -> Result<(), NoMemory>
    requires { AreTold side counts.now.opened across.now counts.now.pairs (mark ∷ []) }
    ensures kept { AreKept active.old.items active.new.items }
    ensures all { OnOk result (AreHeardOn side (mark ∷ []) but.now across.now active.new.items) }
{
    if has_mark(but, mark) {
        return Ok(());
    }
    match side {
        Side::Sends => activate_sent(active, across, counts.opened, mark),
        Side::Receives => activate_received(active, across, counts, mark),
    }
}

fn activate_sent(
    active: &mut Vec<Mark>,
    receiving: &Pairs,
    opened: bool,
    mark: Mark,
) -> Result<(), NoMemory>
    requires { AllOpened opened receiving.now }
    ensures kept { AreKept active.old.items active.new.items }
    ensures all { OnOk result (SentAreHeard (mark ∷ []) [] receiving.now active.new.items) }
{
    match activate_where(active, receiving, mark) {
        Ok(()) => {}
        Err(error) => return Err(error),
    }
    if !opened {
        return Ok(());
    }
    match activate_where(active, receiving, wide(mark)) {
        Ok(()) => Ok(()),
        Err(error) => Err(error),
    }
}

fn activate_received(
    active: &mut Vec<Mark>,
    sending: &Pairs,
    counts: &Counts,
    mark: Mark,
) -> Result<(), NoMemory>
    requires counted { AreCountedIf counts.now.opened sending.now counts.now.pairs }
    requires opened { mark.head ≡ open_head → counts.now.opened ≡ true }
    ensures kept { AreKept active.old.items active.new.items }
    ensures all { OnOk result (ReceivedAreHeard (mark ∷ []) [] sending.now active.new.items) }
{
    if mark.head == OPEN_HEAD {
        activate_where(active, &counts.pairs, mark)?;
        return Ok(());
    }
    activate_where(active, sending, mark)?;
    Ok(())
}

/// Makes the mark active if some process has it in these pairs.
#[inline(always)]
fn activate_where(active: &mut Vec<Mark>, pairs: &Pairs, mark: Mark) -> Result<(), NoMemory>
    ensures kept { AreKept active.old.items active.new.items }
    ensures here { OnOk result ((its : ℕ) → has pairs.now mark its ≡ true
        → has_mark active.new.items mark ≡ true) }
{
    if has_mark(active.as_slice(), mark) {
        return Ok(());
    }
    if pairs.has_nobody(mark) {
        return Ok(());
    }
    active.reserve(1)?;
    active.push_reserved(mark);
    Ok(())
}

/// Removes active marks after a process lost the marks of one side that aren't among `but`. An active mark stays if some process
/// of this side still sends a message for it, or receives under it.
#[inline(always)]
pub(crate) fn quiet_side(
    active: &mut Vec<Mark>,
    side: Side,
    pairs: &Pairs,
    counts: &Counts,
    marks: &[Mark],
    but: &[Mark],
)
    requires { side ≡ Side.Sends → AreCountedIf counts.now.opened pairs.now counts.now.pairs }
    ensures { AreKeptOn side active.old.items active.new.items pairs.now }
{
    for mark in marks {
        quiet_one(active, side, pairs, counts, *mark, but);
    }
}

#[inline(always)]
fn quiet_one(
    active: &mut Vec<Mark>,
    side: Side,
    pairs: &Pairs,
    counts: &Counts,
    mark: Mark,
    but: &[Mark],
)
    requires { side ≡ Side.Sends → AreCountedIf counts.now.opened pairs.now counts.now.pairs }
    ensures { AreKeptOn side active.old.items active.new.items pairs.now }
{
    if has_mark(but, mark) {
        return;
    }
    match side {
        Side::Sends => quiet_sent(active, pairs, counts, mark),
        Side::Receives => quiet_unreceived(active, pairs, mark),
    }
}

/// Makes the mark, and the open mark with as many terms, inactive if no process sends a message for it.
#[inline(always)]
fn quiet_sent(active: &mut Vec<Mark>, sending: &Pairs, counts: &Counts, mark: Mark)
    requires { AreCountedIf counts.now.opened sending.now counts.now.pairs }
    ensures { SentAreKept active.old.items active.new.items sending.now }
{
    quiet_unsent(active, sending, counts, mark);
    if counts.opened {
        quiet_unsent(active, sending, counts, wide(mark));
    }
}

#[inline(always)]
fn quiet_unsent(active: &mut Vec<Mark>, sending: &Pairs, counts: &Counts, mark: Mark)
    requires { AreCountedIf counts.now.opened sending.now counts.now.pairs }
    ensures { SentAreKept active.old.items active.new.items sending.now }
{
    if has_mark(active.as_slice(), mark) {
        if is_unsent(sending, counts, mark) {
            drop_mark(active, mark);
        }
    }
}

/// Returns `true` only if no process sends a message that is received under the mark.
#[inline(always)]
fn is_unsent(sending: &Pairs, counts: &Counts, mark: Mark) -> bool
    requires { AreCountedIf counts.now.opened sending.now counts.now.pairs }
    ensures { result ≡ true → (sent : TheMark) (proc : ℕ)
        → has sending.now sent proc ≡ true → meets mark sent ≡ false }
{
    if mark.head != OPEN_HEAD {
        return sending.has_nobody(mark);
    }
    if counts.opened {
        counts.pairs.has_nobody(mark)
    } else {
        false
    }
}

#[inline(always)]
fn quiet_unreceived(active: &mut Vec<Mark>, receiving: &Pairs, mark: Mark)
    ensures { ReceivedAreKept active.old.items active.new.items receiving.now }
{
    if has_mark(active.as_slice(), mark) {
        if receiving.has_nobody(mark) {
            drop_mark(active, mark);
        }
    }
}

/// Removes one entry of this mark, if there is one. Every other mark stays active.
#[inline(always)]
fn drop_mark(active: &mut Vec<Mark>, mark: Mark)
    ensures { (other : TheMark) → is_mark other mark ≡ false
        → has_mark active.old.items other ≡ true → has_mark active.new.items other ≡ true }
{
    for place in 0..active.len() {
        let there = active[place];
        if there.count == mark.count && there.head == mark.head {
            active.swap_remove(place);
            return;
        }
    }
}

/// Returns the first process, from a number on, that sends a message that is received under one of the marks.
pub(crate) fn next_sender(
    sending: &Pairs,
    counted: &Pairs,
    marks: &[Mark],
    from: u32,
) -> Option<u32>
    ensures { IsFirst (λ proc. list_any
        (λ mark. is_sender sending.now counted.now mark proc) marks.now) from result }
{
    let mut found = None;
    for mark in marks {
        found = earlier(found, next_of_mark(sending, counted, *mark, from));
    }
    found
}

fn next_of_mark(sending: &Pairs, counted: &Pairs, mark: Mark, from: u32) -> Option<u32>
    ensures { IsFirst (is_sender sending.now counted.now mark) from result }
{
    if mark.head == OPEN_HEAD {
        counted.next(mark, from)
    } else {
        sending.next(mark, from)
    }
}
